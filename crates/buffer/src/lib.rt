// The builder (src/buffer.rs): text, blocks and documents are added to a document in the first bytes of a lent room. A refused call
// changes no byte of the room. (A room and its length are two parameters: each call of the C interface lends both anew and takes the length
// back, so that a struct of both would be made, used for one call and taken apart again by every function of `sefgrunn`.)
// (No `room::Text`: it leaves free what stands past the text, and a call of the builder keeps those bytes.)

#![tactic(auto)]

ghost use Rattle.std.specs.Prelude.{◌≡◌, ◌&&◌, [], ◌++◌, ◌+◌, ◌-◌, ◌≤◌, ◌<◌, leb, length, take};
ghost use Rattle.base.specs.Result.{◌>>=◌ as bind};
ghost use Rattle.utf8.specs.Utf8.{utf8};
ghost use Rattle.refusal.specs.Answers.{answered};
ghost use Rattle.document.specs.Document.{open_blocks, max_bytes};
ghost use Rattle.records.specs.Stored.{stored, text};
ghost use Rattle.records.specs.declared.Style.TheVariants as style;
ghost use Rattle.buffer.specs.Builder.{is_text, so_far, fit, writes, opens_block, closes_block};
ghost use Rattle.buffer.specs.Answers.{Follows, Of01};
ghost use Rattle.buffer.specs.InnerParts.{longer, Accepted, Goes};

use document::{MAX_BYTES, MAX_OPEN, OpenBlocks};
use record_writer::{end_kind, start_kind};
use records::{Block, Kind, Records, Style};
use refusal::Refusal;

// 13 when the length so far passes the room, then 1 and 2 to 7 of the document so far.
pub fn so_far(room: &[u8], len: usize) -> Result<OpenBlocks<MAX_OPEN>, Refusal>
    ensures { answered result ≡ bind (so_far room.now len) open_blocks }
{
    if room.len() < len {
        return Err(Refusal::NoRoom);
    }
    if MAX_BYTES < len {
        return Err(Refusal::TooLong);
    }
    document::open_blocks(&room[..len])
}

// 13 otherwise: `more` bytes from `to` on lie within the room and within 32,768 bytes.
pub fn has_room(room: &[u8], to: usize, more: usize) -> bool
    ensures { result ≡ (leb (to + more) (length room.now) && leb (to + more) max_bytes) }
{
    let limit = room.len().min(MAX_BYTES);
    to <= limit && more <= limit - to
}

// Whether a record's kind is text of that style. (Derived `==`; the function says what it is by the rules, for both callers.)
pub fn is_text(style: Style, kind: Kind) -> bool
    ensures { result ≡ is_text style kind }
{
    kind == Kind::Text(style)
}

// Where the record starts that text of that style goes into: the last one, if it is text of that style, else a new one at the end.
fn last_text(document: &[u8], style: Style) -> usize
    requires { Accepted document.now }
    ensures { Goes style document.now result }
{
    match Records::of(document).last() {
        Some(r) if is_text(style, r.kind) => r.place,
        _ => document.len(),
    }
}

// Text in the record that starts at `last`, which is lengthened, or new where `last` is the document's length. Free are the answer and the
// room where `last` passes the length, or that the room or 32,768 bytes.
pub fn put_text(
    room: &mut [u8],
    len: usize,
    last: usize,
    kind: usize,
    text: &[u8],
) -> Result<usize, Refusal>
    ensures numbers { Of01 (answered result) }
    ensures does { (last ≤ len) × (len ≤ length room.old) × (len ≤ max_bytes) → Follows (fit room.old (longer (take len room.old) last kind text.now)) room.old room.new result }
{
    if MAX_BYTES < last {
        return Err(Refusal::NoRoom);
    }
    let body = last + 6;
    let to = len.max(body);
    if !has_room(room, to, text.len()) {
        return Err(Refusal::NoRoom);
    }
    record_writer::set_head(room, last, to - body + text.len(), kind);
    base::copy_from_slice(room, to, text);
    Ok(to + text.len())
}

// Text in a style.
pub fn write_str(room: &mut [u8], len: usize, style: Style, text: &[u8]) -> Result<usize, Refusal>
    ensures { Follows (writes room.old len style text.now) room.old room.new result }
{
    so_far(room, len)?;
    if !utf8::valid(text) {
        return Err(Refusal::NotUtf8(0));
    }
    let last = last_text(&room[..len], style);
    put_text(room, len, last, style.number(), text)
}

// A block's record after the document. Free are the answer and the room where the length passes the room.
pub fn put_block(room: &mut [u8], len: usize, kind: usize) -> Result<usize, Refusal>
    ensures numbers { Of01 (answered result) }
    ensures does { len ≤ length room.old → Follows (fit room.old (take len room.old ++ stored kind [])) room.old room.new result }
{
    if !has_room(room, len, 6) {
        return Err(Refusal::NoRoom);
    }
    record_writer::set_block(room, len, kind);
    Ok(len + 6)
}

// A block's start. (Two functions, as bpaf and the C interface have them: one for both would be told which of `open` and `close`, and which kind, to take,
// since a kind is a number here, as `record_writer` says.)
pub fn open_block(room: &mut [u8], len: usize, b: Block) -> Result<usize, Refusal>
    ensures { Follows (opens_block room.old len b) room.old room.new result }
{
    let mut blocks = so_far(room, len)?;
    blocks.open(b, len)?;
    put_block(room, len, start_kind(b))
}

// A block's end.
pub fn close_block(room: &mut [u8], len: usize, b: Block) -> Result<usize, Refusal>
    ensures { Follows (closes_block room.old len b) room.old room.new result }
{
    let mut blocks = so_far(room, len)?;
    blocks.close(b, len)?;
    put_block(room, len, end_kind(b))
}
