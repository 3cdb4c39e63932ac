// The writers' notes, taken in as a stored document.

#![tactic(auto)]

ghost use Rattle.std.specs.Prelude.{◌≡◌, true, [], ◌||◌, not, length};
ghost use Rattle.splitter.specs.Split.{line};
ghost use Rattle.base.specs.Bytes.{starts_with};
ghost use Rattle.base.specs.Result.{measured};
ghost use Rattle.room.specs.Lent.{text_of, with_bytes};
ghost use Rattle.room.specs.Room.{seen, extended};
ghost use Rattle.refusal.specs.Answers.{answered};
ghost use Rattle.renderer.specs.Rendered.{standing, Inside, filled};
ghost use Rattle.records.specs.Stored.{around};
ghost use Rattle.notes_rules.specs.Notes.{header_mark, item_mark, text_records, document, taken_in};
ghost use Rattle.notes_rules.specs.Without.{blank_line, ordinary, text_left};
ghost use Rattle.notes_rules.specs.Laws.{Faithful};
ghost use Rattle.notes.specs.InnerParts.{Ends, behind};

use document::MAX_BYTES;
use record_writer::{end_kind, head_of, start_kind};
use records::Block;
use refusal::Refusal;
use room::Text;

// Whether the line that stands first is empty or all spaces; so is none, where there is no more.
fn is_blank(s: &[u8]) -> bool
    ensures { result ≡ blank_line s.now }
{
    let other = s.iter().find(|b| **b != b' ');
    other.is_none_or(|b| *b == b'\n')
}

// Whether it becomes a Header, and an ItemBody. By patterns: `base::starts_with`, which tests at any place, costs more on short lines.
fn is_header(s: &[u8]) -> bool
    ensures { result ≡ starts_with header_mark s.now }
{
    matches!(s, [b'#', b' ', ..])
}

fn is_item(s: &[u8]) -> bool
    ensures { result ≡ starts_with item_mark s.now }
{
    matches!(s, [b'-', b' ', ..])
}

// Whether it has no marker and is more than spaces.
fn is_ordinary(s: &[u8]) -> bool
    ensures { result ≡ ordinary s.now }
{
    !(is_header(s) || is_item(s) || is_blank(s))
}

// Whether a text ends with its line, behind which the rest stands: it holds one line only, or the next is not ordinary.
fn is_last(rest: &[u8], one: bool) -> bool
    ensures { result ≡ (one || not (ordinary rest.now)) }
{
    one || !is_ordinary(rest)
}

// How many bytes the line that stands first has: blocks of 16 without a line end are passed over whole, then the bytes before the first line end of the
// next block, or what is left byte by byte.
fn long_line_length(s: &[u8]) -> usize
    ensures { result ≡ length (line s.now) }
{
    let mut len: usize = 0;
    while let Some(block) = s[len..].first_chunk::<16>() {
        let n = utf8::front(block, b'\n', b'\n', 16).len;
        if n < 16 {
            return len + n;
        }
        len += 16;
    }
    let last = &s[len..];
    len + last.iter().position(|b| *b == b'\n').unwrap_or(last.len())
}

// The same. A line of no byte or of one is told by a test of its first two bytes, since a page of such lines takes longer by blocks.
fn line_length(s: &[u8]) -> usize
    ensures { result ≡ length (line s.now) }
{
    match s {
        [b'\n', ..] => 0,
        [_, b'\n', ..] => 1,
        _ => long_line_length(s),
    }
}

// How long the text is that stands first. The loop goes from line end to line end: only there may a text end.
fn text_length(s: &[u8], one: bool) -> usize
    ensures { Ends s.now one result }
{
    let mut len = line_length(s);
    while len < s.len() {
        let rest = &s[len + 1..];
        if is_last(rest, one) {
            return len;
        }
        len += 1 + line_length(rest);
    }
    len
}

// What stands behind the line that stands first.
fn after_line(s: &[u8]) -> &[u8]
    ensures { result.now ≡ behind true s.now }
{
    let n = text_length(s, true);
    base::get_from(s, n + 1)
}

// A block with the text that stands first, and what stands behind that.
fn put_part<'a>(t: &mut Text, b: Block, s: &'a [u8], one: bool) -> &'a [u8]
    ensures text { text_of t.new ≡ with_bytes (around b (text_records (text_left one s.now))) (text_of t.old) }
    ensures rest { result.now ≡ behind one s.now }
{
    let n = text_length(s, one);
    t.put_all(&head_of(0, start_kind(b)));
    notes_text::put_text(t, &s[..n]);
    t.put_all(&head_of(0, end_kind(b)));
    base::get_from(s, n + 1)
}

// The parts of some notes. The loop goes from part to part: where one ends is known when it is looked for.
fn put_parts(t: &mut Text, s: &[u8])
    ensures { text_of t.new ≡ with_bytes (document s.now) (text_of t.old) }
{
    let mut rest = s;
    while !rest.is_empty() {
        rest = if is_header(rest) {
            put_part(t, Block::Header, base::get_from(rest, 2), true)
        } else if is_item(rest) {
            put_part(t, Block::ItemBody, base::get_from(rest, 2), true)
        } else if is_blank(rest) {
            after_line(rest)
        } else {
            put_part(t, Block::Block, rest, false)
        };
    }
}

// The document of some notes, from the room's start on.
fn put_notes(room: &mut [u8], s: &[u8]) -> usize
    ensures { seen room.new result ≡ extended (length room.old) (document s.now) [] }
{
    let mut t = Text::new(room);
    put_parts(&mut t, s);
    t.finish()
}

// The document that the notes stand for, or 1, 19 or 13.
fn fill(notes: &[u8], room: &mut [u8]) -> Result<usize, Refusal>
    ensures text { standing room.new result ≡ taken_in (length room.new) notes.now }
    ensures inside { Inside (length room.new) result }
{
    if MAX_BYTES < notes.len() {
        return Err(Refusal::TooLong);
    }
    if !utf8::valid(notes) {
        return Err(Refusal::NotesNotUtf8);
    }
    let n = put_notes(room, notes);
    if MAX_BYTES < n {
        return Err(Refusal::NoRoom);
    }
    renderer::answer(room, n)
}

// The notes as a stored document in a lent room. The clause `law` stands in `sefgrunn` and `sefgrunn_c` too: each function that a caller of C sees says all
// that it promises.
pub fn take_in(notes: &[u8], room: &mut [u8]) -> Result<usize, Refusal>
    ensures answer { answered result ≡ measured (taken_in (length room.old) notes.now) }
    ensures room { room.new ≡ filled (length room.old) (taken_in (length room.old) notes.now) }
    ensures law { Faithful notes.now (taken_in (length room.old) notes.now) }
{
    renderer::cleared(fill(notes, room), room)
}
