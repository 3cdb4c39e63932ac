// The chunks of a body, one at a time (src/buffer/splitter.rs).
// The functions take a body and a place, not the rest of the body: the places in a Piece count in the whole body.

#![tactic(auto)]

ghost use Rattle.std.specs.Prelude.{◌≡◌, Some, ◌+◌, ◌<◌, length, drop};
ghost use Rattle.utf8.specs.Utf8.{characters};
ghost use Rattle.splitter.specs.Split.{line, word, step, stripped, ticked as ticked_line, after_line_end};
ghost use Rattle.splitter.specs.Answers.{cursor, answer, first_chunk, place_of, piece_text, Within};
ghost use Rattle.splitter.specs.InnerParts.{Begins, Follows, LineBegins, word_from};
ghost use Rattle.splitter.specs.declared.Code.TheVariants as code;

use utf8::Part;

// The width of a code line: the source's `Chunk::CODE`.
// A number and no case of Piece: the console's walk adds it as a width, and the C interface hands it out.
pub const CODE: usize = 1_000_000;

// The width of a line in ticks: the source's `Chunk::TICKED_CODE`.
pub const TICKED_CODE: usize = 1_000_001;

// Whether a place in a body is in ticks: outside them, at their first line, at a later one.
#[derive(Clone, Copy, Debug, Default, PartialEq, Eq)]
pub enum Code {
    #[default]
    No,
    First,
    Rest,
}

// A place in a body, and how the body stands there.
#[derive(Clone, Copy, Debug, Default, PartialEq, Eq)]
pub struct Cursor {
    pub at: usize,
    pub code: Code,
}

// A chunk and where in the body it begins: a part of the body from a place up to another with its width; the chunk of one space, for the space or
// the line end at a place; a paragraph, a line break.
// Places and no parts of the body: a refusal names the place of a chunk, and `text_of` cuts the text out.
#[derive(Clone, Copy, Debug, PartialEq, Eq)]
pub enum Piece {
    Raw {
        from: usize,
        to: usize,
        width: usize,
    },
    Space(usize),
    Paragraph(usize),
    LineBreak(usize),
}

impl Piece {
    // The part of a body that a word or a line is; nothing for the other pieces.
    pub fn text_of<'a>(self, body: &'a [u8]) -> &'a [u8]
        ensures { result.now ≡ piece_text body.now self }
    {
        match self {
            Piece::Raw { from, to, .. } => base::get(body, from, to),
            Piece::Space(_) | Piece::Paragraph(_) | Piece::LineBreak(_) => &body[..0],
        }
    }

    // The place in its body where a piece begins.
    pub fn place_of(self) -> usize
        ensures { result ≡ place_of self }
    {
        match self {
            Piece::Raw { from, .. } => from,
            Piece::Space(at) | Piece::Paragraph(at) | Piece::LineBreak(at) => at,
        }
    }
}

// The bytes that the line at the front of a text begins with: blocks of 16, up to one with a line end, and of that one the bytes before it. What stands after
// the last whole block is left to `line_end`.
fn line_blocks(text: &[u8]) -> usize
    ensures { LineBegins text.now result }
{
    let mut len: usize = 0;
    while let Some(block) = text[len..].first_chunk::<16>() {
        let part = utf8::front(block, b'\n', b'\n', 16);
        len += part.len;
        if part.len < 16 {
            break;
        }
    }
    len
}

// Where the line that starts at `at` ends: by blocks, and what is left byte by byte.
fn line_end(body: &[u8], at: usize) -> usize
    ensures { result ≡ at + length (line (drop at body.now)) }
{
    let rest = base::get_from(body, at);
    let len = line_blocks(rest);
    let last = &rest[len..];
    at + len + last.iter().position(|b| *b == b'\n').unwrap_or(last.len())
}

// Where a word ends, and how many characters it has.
#[derive(Clone, Copy)]
struct Word {
    to: usize,
    width: usize,
}

// The bytes that the word at the front of a text begins with: blocks of 16, up to one in which the word ends, and of that one the bytes before its end. What
// stands after the last whole block is left to `word_bytes`.
fn word_blocks(text: &[u8]) -> Part
    ensures { Begins text.now result.len result.width }
{
    let mut len: usize = 0;
    let mut width: usize = 0;
    while let Some(block) = text[len..].first_chunk::<16>() {
        let part = utf8::front(block, b'\n', b' ', 16);
        len += part.len;
        width += part.width;
        if part.len < 16 {
            break;
        }
    }
    Part { len, width }
}

// The word at the front of a text, byte by byte: one pass finds its end and counts. By `position` and `utf8::count` pages of options took 1.04 to 1.13 of
// the time.
fn word_bytes(text: &[u8]) -> Part
    ensures len { result.len ≡ length (word text.now) }
    ensures width { result.width ≡ characters (word text.now) }
{
    let mut width: usize = 0;
    for (len, &x) in text.iter().enumerate() {
        if x == b' ' || x == b'\n' {
            return Part { len, width };
        }
        width += usize::from(utf8::starts_character(x));
    }
    Part {
        len: text.len(),
        width,
    }
}

// The word that starts at `at`: by blocks, and what is left byte by byte.
fn word_end(body: &[u8], at: usize) -> Word
    ensures { result ≡ word_from body.now at }
{
    let rest = base::get_from(body, at);
    let blocks = word_blocks(rest);
    let bytes = word_bytes(&rest[blocks.len..]);
    Word {
        to: at + blocks.len + bytes.len,
        width: blocks.width + bytes.width,
    }
}

// A chunk, and where the next one starts, and how.
fn found(piece: Piece, at: usize, code: Code) -> (Piece, Cursor)
    ensures { result ≡ (piece, cursor at code) }
{
    (piece, Cursor { at, code })
}

// A line in ticks. (Here and in `step_at` `base::starts_with` tests at a place: with the slice's `starts_with` of the rest from there the console takes
// 1.02 to 1.05 of the time, and Markdown 1.03 to 1.09.)
fn ticked(body: &[u8], at: usize, last: bool) -> (Piece, Cursor)
    requires { at < length body.now }
    ensures { result ≡ answer at (ticked_line last (drop at body.now)) }
{
    let to = line_end(body, at);
    let line = Piece::Raw {
        from: at,
        to,
        width: TICKED_CODE,
    };
    let next = to + 1;
    if last {
        if base::starts_with(body, to, b"\n\n") {
            return found(line, to, Code::No);
        }
        return found(line, next, Code::No);
    }
    found(line, next, Code::Rest)
}

// The text after a prefix, all of it if the prefix isn't there. (No Option: 01 asks for a function of this form, docs/RULES.md. A prefix of some bytes was
// there if the part is shorter than the text, as `plain` tests for the source's `if let Some(tail)`.)
pub fn strip_prefix<'a>(text: &'a [u8], prefix: &[u8]) -> &'a [u8]
    ensures { result.now ≡ stripped prefix.now text.now }
{
    text.strip_prefix(prefix).unwrap_or(text)
}

// What the line end at `start` begins; `tail` is what follows it.
fn after_line_end(body: &[u8], start: usize, tail: &[u8]) -> (Piece, Cursor)
    requires { Follows body.now start tail.now }
    ensures { result ≡ answer start (after_line_end tail.now) }
{
    let at = start + 1;
    // Mostly a word follows, as one byte tells: the source's last case stands before the tests of four and five bytes.
    if !tail.starts_with(b"\n") && !tail.starts_with(b" ") {
        return found(Piece::Space(start), at, Code::No);
    }
    if tail.starts_with(b"    ") {
        let from = at + 4;
        let to = line_end(body, from);
        let width = CODE;
        return found(Piece::Raw { from, to, width }, to, Code::No);
    }
    if tail.starts_with(b"\n```") {
        return found(Piece::Paragraph(start), at + 1, Code::First);
    }
    if tail.starts_with(b"\n    ") {
        return found(Piece::Paragraph(start), at, Code::No);
    }
    if tail.starts_with(b"\n") {
        return found(Piece::Paragraph(start), at + 1, Code::No);
    }
    found(Piece::LineBreak(start), at + 1, Code::No)
}

// Outside ticks.
fn plain(body: &[u8], at: usize) -> (Piece, Cursor)
    requires { at < length body.now }
    ensures { result ≡ answer at (step code.No (drop at body.now)) }
{
    let input = &body[at..];
    let tail = strip_prefix(input, b"\n");
    if tail.len() < input.len() {
        return after_line_end(body, at, tail);
    }
    if input.starts_with(b" ") {
        return found(Piece::Space(at), at + 1, Code::No);
    }
    let w = word_end(body, at);
    let to = w.to;
    let word = Piece::Raw {
        from: at,
        to,
        width: w.width,
    };
    found(word, to, Code::No)
}

// The first chunk from a cursor on, and the cursor after it; none at the body's end. (The hint, and that at `SplitterIterator::next`: as a call, which hands the
// chunk over in memory, HTML and Markdown run 4 to 5 % more instructions and take 1.05 to 1.13 of the time.)
#[inline(always)]
pub fn step_at(body: &[u8], c: Cursor) -> Option<(Piece, Cursor)>
    ensures chunk { result ≡ first_chunk body.now c }
    ensures within { Within body.now c result }
{
    let at = c.at;
    if body.len() <= at {
        return None;
    }
    Some(match c.code {
        Code::No => plain(body, at),
        Code::First => ticked(body, at, false),
        Code::Rest => ticked(body, at, base::starts_with(body, at, b"```")),
    })
}
