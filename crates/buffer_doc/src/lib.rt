// Documents added to a document in the first bytes of a lent room (src/buffer.rs: `Doc::doc`, `Doc::em_doc`). A refused call changes no byte of the
// room. (A room and its length are two parameters of the functions outside of `Target`, as `buffer` says of its own.)

#![tactic(auto)]

ghost use Rattle.std.specs.Prelude.{◌≡◌, true, [], ◌++◌, ◌+◌, ◌-◌, ◌≤◌, ◌<◌, length, drop};
ghost use Rattle.std.specs.List.{list_any};
ghost use Rattle.base.specs.Result.{gives, measured};
ghost use Rattle.utf8.specs.Utf8.{utf8};
ghost use Rattle.splitter.specs.Split.{is_line_end, line};
ghost use Rattle.document.specs.Document.{reads, max_bytes, max_open};
ghost use Rattle.records.specs.Stored.{text, start};
ghost use Rattle.records.specs.declared.Style.TheVariants as style;
ghost use Rattle.records.specs.declared.Block.TheVariants as block;
ghost use Rattle.buffer.specs.Builder.{emphasised, adds_as, adds_doc, adds_em_doc};
ghost use Rattle.refusal.specs.Answers.{answered};
ghost use Rattle.buffer.specs.Answers.{Follows, Of01};
ghost use Rattle.base.specs.Bytes.{pasted};
ghost use Rattle.buffer_doc.specs.InnerParts.{count_after, section, titled, Nests, Ready, Lines, Adds, Joins, made_of};

use document::{Accepted, MAX_BYTES, MAX_OPEN};
use record_writer::{end_kind, set_block, set_head, start_kind};
use records::{Block, Kind, Records, Style};
use refusal::Refusal;

// How a document is added: as `Doc::doc` does, or as `Doc::em_doc` does.
#[derive(Clone, Copy, Debug, PartialEq, Eq)]
pub enum Form {
    Doc,
    EmDoc,
}

// How many blocks are open after a record. (Not `merge_items::open_after`: an end where none is open is passed over here, and ends the search there.)
fn counted(kind: Kind, count: usize) -> usize
    requires { count ≤ max_open }
    ensures { result ≡ count_after kind count }
{
    match kind {
        Kind::Text(_) | Kind::Unknown => count,
        Kind::Start(_) => count + 1,
        Kind::End(_) => count.saturating_sub(1),
    }
}

// Where the first record from `from` on stands that starts a block with 32 open, if `depth` are open before.
fn too_deep(document: &[u8], from: usize, depth: usize) -> Option<usize>
    requires { (reads from 0 [] (drop from document.now) ≡ gives []) × (from ≤ length document.now) × (depth ≤ max_open) }
    ensures { Nests document.now from depth result }
{
    let mut count = depth;
    for r in Records::from_place(document, from) {
        count = counted(r.kind, count);
        if MAX_OPEN < count {
            return Some(r.place);
        }
    }
    None
}

// Whether a `\n` stands in some bytes.
fn has_line_end(s: &[u8]) -> bool
    ensures { result ≡ list_any is_line_end s.now }
{
    base::any(s, |b| b == b'\n')
}

// How many bytes stand before the first `\n`. Blocks of 64 without one are passed over whole, since 16 of their bytes are tested at a time.
fn line_length(body: &[u8]) -> usize
    ensures { result ≡ length (line body.now) }
{
    let (blocks, _) = body.as_chunks::<64>();
    let passed = blocks
        .iter()
        .position(|b| has_line_end(b))
        .unwrap_or(blocks.len());
    let from = passed * 64;
    let rest = &body[from..];
    from + rest.iter().position(|b| *b == b'\n').unwrap_or(rest.len())
}

// InlineBlock's start, and text as Emphasis.
fn put_title(room: &mut [u8], at: usize, title: &[u8])
    requires { at + 12 + length title.now ≤ length room.old }
    ensures { room.new ≡ pasted room.old at (start block.InlineBlock ++ text style.Emphasis title.now) }
{
    set_block(room, at, start_kind(Block::InlineBlock));
    set_head(room, at + 6, title.len(), Style::Emphasis.number());
    base::copy_from_slice(room, at + 12, title);
}

// Section3 with a text of `size` bytes and other records, and InlineBlock's end.
fn put_section(room: &mut [u8], at: usize, size: usize, rest: &[u8])
    requires { at + 24 + length rest.now ≤ length room.old }
    ensures { room.new ≡ pasted room.old at (section size rest.now) }
{
    set_block(room, at, start_kind(Block::Section3));
    set_head(room, at + 6, size, Style::Text.number());
    base::copy_from_slice(room, at + 12, rest);
    set_block(room, at + 12 + rest.len(), end_kind(Block::Section3));
    set_block(room, at + 18 + rest.len(), end_kind(Block::InlineBlock));
}

// A lent room with a document so far, and how many of its blocks are open: InlineBlock may be opened. (Each method that writes tests
// `has_room` itself: one method for the three tests would say in a contract of its own what that function says.)
// Each method promises that the room's reference stays (`ensures room`): an invariant speaks of one value, and this of the values before and after.
#[derive(Drop)]
struct Target<'a> {
    room: &'a mut [u8],
    len: usize,
    depth: usize,
    ghost ready: { Ready room.now len depth },
    ghost open: { depth < max_open },
}

impl<'a> Target<'a> {
    // A document in InlineBlock.
    fn put_doc(&mut self, accepted: &Accepted) -> Result<usize, Refusal>
        ensures room { self.new.room.ghost_name ≡ self.old.room.ghost_name }
        ensures adds { Adds accepted.now self.old.len self.old.depth self.old.room.now self.new.room.now result }
    {
        let added = accepted.bytes();
        let (len, depth) = (self.len, self.depth);
        let room = &mut *self.room;
        if let Some(deep) = too_deep(added, 0, depth + 1) {
            return Err(Refusal::TooDeep(len + 6 + deep));
        }
        if !buffer::has_room(room, len + 12, added.len()) {
            return Err(Refusal::NoRoom);
        }
        set_block(room, len, start_kind(Block::InlineBlock));
        base::copy_from_slice(room, len + 6, added);
        set_block(room, len + 6 + added.len(), end_kind(Block::InlineBlock));
        Ok(len + 12 + added.len())
    }

    // A text without `\n` as Emphasis in InlineBlock. (The bound is of a part of the added document; a type for it would be made for this one call.)
    fn put_line(&mut self, body: &[u8]) -> Result<usize, Refusal>
        requires { (length body.now ≤ max_bytes) × (utf8 body.now ≡ true) }
        ensures room { self.new.room.ghost_name ≡ self.old.room.ghost_name }
        ensures adds { Adds (text style.Emphasis body.now) self.old.len self.old.depth self.old.room.now self.new.room.now result }
    {
        let (len, depth) = (self.len, self.depth);
        let room = &mut *self.room;
        if !buffer::has_room(room, len + 18, body.len()) {
            return Err(Refusal::NoRoom);
        }
        put_title(room, len, body);
        set_block(room, len + 12 + body.len(), end_kind(Block::InlineBlock));
        Ok(len + 18 + body.len())
    }

    // The first record of a document, text with a `\n` at `line` that ends at `next`: its first line as Emphasis, the rest in Section3.
    // (Places and not three slices: the refusals name places of the added document.)
    fn put_lines(&mut self, added: &[u8], line: usize, next: usize) -> Result<usize, Refusal>
        requires { Lines added.now line next }
        ensures room { self.new.room.ghost_name ≡ self.old.room.ghost_name }
        ensures adds { Adds (titled added.now line next) self.old.len self.old.depth self.old.room.now self.new.room.now result }
    {
        let (len, depth) = (self.len, self.depth);
        let room = &mut *self.room;
        if 31 <= depth {
            return Err(Refusal::TooDeep(len + 6 + line));
        }
        if let Some(deep) = too_deep(added, next, depth + 2) {
            return Err(Refusal::TooDeep(len + 17 + deep));
        }
        if !buffer::has_room(room, len + 29, added.len()) {
            return Err(Refusal::NoRoom);
        }
        put_title(room, len, &added[6..line]);
        put_section(room, len + 6 + line, next - line - 1, &added[line + 1..]);
        Ok(len + 29 + added.len())
    }

    // What `Doc::em_doc` makes of a document, in InlineBlock.
    fn put_em_doc(&mut self, accepted: &Accepted) -> Result<usize, Refusal>
        ensures room { self.new.room.ghost_name ≡ self.old.room.ghost_name }
        ensures adds { Adds (emphasised accepted.now) self.old.len self.old.depth self.old.room.now self.new.room.now result }
    {
        let added = accepted.bytes();
        let h = records::record_at(added, 0);
        if !buffer::is_text(Style::Text, h.kind) {
            return self.put_doc(accepted);
        }
        let body = &added[6..h.next];
        let n = line_length(body);
        if n == body.len() {
            return self.put_line(body);
        }
        self.put_lines(added, 6 + n, h.next)
    }
}

// A document's records in InlineBlock, or what `Doc::em_doc` makes of them, where 1 to 7 accept the document so far and `depth` of its blocks are open:
// 1 to 8 of the added document, then 7 and 13. Free are the answer and the room where the length passes the room or 32,768 bytes, or the depth 32.
pub fn add(
    room: &mut [u8],
    len: usize,
    depth: usize,
    added: &[u8],
    form: Form,
) -> Result<usize, Refusal>
    ensures numbers { Of01 (answered result) }
    ensures does { Ready room.old len depth → Joins added.now (made_of form added.now) len depth room.old room.new result }
{
    if room.len() < len || MAX_BYTES < len || MAX_OPEN < depth {
        return Err(Refusal::NoRoom);
    }
    let accepted = Accepted::of(added)?;
    if MAX_OPEN <= depth {
        return Err(Refusal::TooDeep(len));
    }
    let mut t = Target { room, len, depth };
    match form {
        Form::Doc => t.put_doc(&accepted),
        Form::EmDoc => t.put_em_doc(&accepted),
    }
}

// 13 when the length so far passes the room, 1 and 2 to 7 of the document so far, then as above.
fn joined(room: &mut [u8], len: usize, added: &[u8], form: Form) -> Result<usize, Refusal>
    ensures { Follows (adds_as room.old len added.now (made_of form added.now)) room.old room.new result }
{
    let blocks = buffer::so_far(room, len)?;
    add(room, len, blocks.depth(), added, form)
}

// A document, as `Doc::doc` adds it. (This one and the next are two functions, as bpaf and the C interface have them.)
pub fn doc(room: &mut [u8], len: usize, added: &[u8]) -> Result<usize, Refusal>
    ensures { Follows (adds_doc room.old len added.now) room.old room.new result }
{
    joined(room, len, added, Form::Doc)
}

// A document, as `Doc::em_doc` adds it.
pub fn em_doc(room: &mut [u8], len: usize, added: &[u8]) -> Result<usize, Refusal>
    ensures { Follows (adds_em_doc room.old len added.now) room.old room.new result }
{
    joined(room, len, added, Form::EmDoc)
}
