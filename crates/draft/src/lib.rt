// A page built in linear time: a draft stands beside the document in a lent room, and the builder's calls (`buffer`, `buffer_doc`) read it instead
// of the document. A refused call changes no byte of the room. (A room and its draft are two parameters, since each call of the C interface lends both
// anew, as `buffer` says of a length.)

#![tactic(auto)]

ghost use Rattle.std.specs.Prelude.{◌≡◌, ℕ, ◌%◌, ◌≤◌, ◌<◌, ◌&&◌, eqb, leb, List, length, drop};
ghost use Rattle.base.specs.Stack.{pushed, popped};
ghost use Rattle.records.specs.Records.{number, index};
ghost use Rattle.buffer.specs.Builder.{writes, opens_block, closes_block, adds_as, adds_doc, adds_em_doc};
ghost use Rattle.buffer.specs.Answers.{Of01};
ghost use Rattle.buffer.specs.InnerParts.{Accepted};
ghost use Rattle.buffer_doc.specs.InnerParts.{made_of};
ghost use Rattle.draft.specs.Draft.{draft_in, Opens, Of, one_record, plausible, Sound, drafted_as, Resumed, Calls};
ghost use Rattle.draft.specs.InnerParts.{Turned, text_at};
ghost use Rattle.document.specs.Document.{max_open};

use buffer_doc::Form;
use document::{MAX_BYTES, MAX_OPEN};
use record_writer::{end_kind, start_kind};
use records::{Block, Kind, Records, Style};
use refusal::Refusal;

// The open blocks: how many there are, and their indices, four bits each, the 16 innermost in `inner`, the innermost lowest. (Numbers, since these are
// words that the C interface hands over.)
#[derive(Clone, Copy, Default)]
pub struct Packed {
    pub depth: usize,
    pub inner: usize,
    pub outer: usize,
}

impl Packed {
    // One more.
    fn push(&mut self, b: Block)
        ensures { (stack : List ℕ) → length stack < max_open → Opens self.old stack → Opens self.new (pushed (index b) stack) }
    {
        if MAX_OPEN <= self.depth {
            return;
        }
        self.depth += 1;
        self.outer = self.outer % 0x1000_0000_0000_0000 * 16 + self.inner / 0x1000_0000_0000_0000;
        self.inner = self.inner % 0x1000_0000_0000_0000 * 16 + b.index();
    }

    // All but the innermost.
    fn pop(&mut self)
        ensures { (stack : List ℕ) → 1 ≤ length stack → Opens self.old stack → Opens self.new (popped stack) }
    {
        if self.depth < 1 {
            return;
        }
        self.depth -= 1;
        self.inner = self.inner / 16 + self.outer % 16 * 0x1000_0000_0000_0000;
        self.outer /= 16;
    }

    // Whether a block is the innermost.
    fn is_innermost(&self, b: Block) -> bool
        ensures { result ≡ (leb 1 self.now.depth && eqb (self.now.inner % 16) (index b)) }
    {
        1 <= self.depth && self.inner % 16 == b.index()
    }
}

// What a check would find out about a document: its length, where its last record stands and that record's style (its kind, or 0 where it
// is no text), and the open blocks. A document with no record has zeros. (Numbers, as C's eight words have them, so that any words are a draft.)
#[derive(Clone, Copy, Default)]
pub struct Draft {
    pub length: usize,
    pub last: usize,
    pub style: usize,
    pub blocks: Packed,
}

impl Draft {
    // Whether it may hold of a room: its length is no refusal, a record ends there, and no more than 32 blocks are open.
    #[tactic(auto, unfolding(crate::specs::Draft::plausible))]
    fn plausible(self, room: &[u8]) -> bool
        ensures { result ≡ plausible room.now self }
    {
        let length = self.length;
        length <= room.len()
            && length <= MAX_BYTES
            && self.blocks.depth <= MAX_OPEN
            && (length == 0 || records::ends_at(&room[..length], self.last))
    }

    // After one more record, which starts at its end and has a kind.
    fn after_record(self, kind: Kind, next: usize) -> Draft
        ensures { Turned self kind next result }
    {
        let mut d = Draft {
            length: next,
            last: self.length,
            style: 0,
            ..self
        };
        match kind {
            Kind::Text(s) => d.style = s.number(),
            Kind::Start(b) => d.blocks.push(b),
            Kind::End(_) => d.blocks.pop(),
            Kind::Unknown => {}
        }
        d
    }

    // Where the record starts that text of a style goes into: the last one, if it is of that style, else a new one at the end.
    fn text_at(self, style: Style) -> usize
        ensures { result ≡ text_at self style }
    {
        if self.style == style.number() {
            return self.last;
        }
        self.length
    }
}

// The draft of a document that 2 to 7 accept.
fn found(document: &[u8]) -> Draft
    requires { Accepted document.now }
    ensures { Of result document.now }
{
    let mut d = Draft::default();
    for r in Records::of(document) {
        d = d.after_record(r.kind, r.start + r.body.len());
    }
    d
}

// A page, call by call.
impl Draft {
    // The draft of the document in the first bytes of a room: one check.
    pub fn resume(room: &[u8], len: usize) -> Result<Draft, Refusal>
        ensures numbers { Of01 (drafted_as result) }
        ensures does { Resumed room.now len result }
    {
        buffer::so_far(room, len)?;
        Ok(found(&room[..len]))
    }

    // The draft itself, or that of one check where it cannot hold. (The hint: as a call that hands a draft over in memory, a whole page takes 1.2 to 1.3 of the
    // time.)
    #[inline(always)]
    fn settled(self, room: &[u8]) -> Result<Draft, Refusal>
        ensures numbers { Of01 (drafted_as result) }
        ensures does { Sound room.now self → Resumed room.now self.length result }
    {
        if self.plausible(room) {
            return Ok(self);
        }
        Draft::resume(room, self.length)
    }

    // Text in a style.
    pub fn write_str(self, room: &mut [u8], style: Style, text: &[u8]) -> Result<Draft, Refusal>
        ensures { Calls (Sound room.old self) (writes room.old self.length style text.now) room.old room.new result }
    {
        let e = self.settled(room)?;
        if !utf8::valid(text) {
            return Err(Refusal::NotUtf8(0));
        }
        let last = e.text_at(style);
        let kind = style.number();
        let length = buffer::put_text(room, e.length, last, kind, text)?;
        Ok(Draft {
            length,
            last,
            style: kind,
            ..e
        })
    }

    // A block's start. (Start and end are two functions, since other refusals come first.)
    pub fn open_block(self, room: &mut [u8], b: Block) -> Result<Draft, Refusal>
        ensures { Calls (Sound room.old self) (opens_block room.old self.length b) room.old room.new result }
    {
        let e = self.settled(room)?;
        if MAX_OPEN <= e.blocks.depth {
            return Err(Refusal::TooDeep(e.length));
        }
        let next = buffer::put_block(room, e.length, start_kind(b))?;
        Ok(e.after_record(Kind::Start(b), next))
    }

    // A block's end.
    pub fn close_block(self, room: &mut [u8], b: Block) -> Result<Draft, Refusal>
        ensures { Calls (Sound room.old self) (closes_block room.old self.length b) room.old room.new result }
    {
        let e = self.settled(room)?;
        if !e.blocks.is_innermost(b) {
            return Err(Refusal::WrongEnd(e.length));
        }
        let next = buffer::put_block(room, e.length, end_kind(b))?;
        Ok(e.after_record(Kind::End(b), next))
    }

    // A document's records in InlineBlock, or what `Doc::em_doc` makes of them. The last record is that block's end.
    fn joined(self, room: &mut [u8], added: &[u8], form: Form) -> Result<Draft, Refusal>
        ensures { Calls (Sound room.old self) (adds_as room.old self.length added.now (made_of form added.now)) room.old room.new result }
    {
        let e = self.settled(room)?;
        let length = buffer_doc::add(room, e.length, e.blocks.depth, added, form)?;
        Ok(Draft {
            length,
            last: length.saturating_sub(6),
            style: 0,
            ..e
        })
    }

    // A document, as `Doc::doc` adds it. (This one and the next are two functions, as bpaf and the C interface have them.)
    pub fn doc(self, room: &mut [u8], added: &[u8]) -> Result<Draft, Refusal>
        ensures { Calls (Sound room.old self) (adds_doc room.old self.length added.now) room.old room.new result }
    {
        self.joined(room, added, Form::Doc)
    }

    // A document, as `Doc::em_doc` adds it.
    pub fn em_doc(self, room: &mut [u8], added: &[u8]) -> Result<Draft, Refusal>
        ensures { Calls (Sound room.old self) (adds_em_doc room.old self.length added.now) room.old room.new result }
    {
        self.joined(room, added, Form::EmDoc)
    }
}

// A draft in the eight words of the C interface; the last two are not used. (`as`: the C interface has `uint64_t`, which is no other number as
// `usize` here; std's conversion of the one into the other may fail, and there is nothing to answer.)
impl From<[u64; 8]> for Draft {
    ghost from_gives = { λ words d. d ≡ draft_in words };

    fn from(words: [u64; 8]) -> Draft {
        Draft {
            length: words[0] as usize,
            last: words[1] as usize,
            style: words[2] as usize,
            blocks: Packed {
                depth: words[3] as usize,
                inner: words[4] as usize,
                outer: words[5] as usize,
            },
        }
    }
}

// The eight words of a draft.
impl From<Draft> for [u64; 8] {
    ghost from_gives = { λ d words. draft_in words ≡ d };

    fn from(d: Draft) -> [u64; 8] {
        [
            d.length as u64,
            d.last as u64,
            d.style as u64,
            d.blocks.depth as u64,
            d.blocks.inner as u64,
            d.blocks.outer as u64,
            0,
            0,
        ]
    }
}
