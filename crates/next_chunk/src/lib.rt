// The splitter's step in numbers, as the C interface hands out chunks one by one.

#![tactic(auto)]

ghost use Rattle.std.specs.Prelude.{◌≡◌};
ghost use Rattle.next_chunk.specs.NextChunk.{code_of, ticks_of, space_number, handed, next_chunk};

use splitter::{Code, Cursor, Piece};

// What a chunk is (0 none, 1 a part of the body, 2 a paragraph, 3 a line break, 4 a line end's space: numbers, since C gets them), the cursor after it,
// and where it begins, its length and its width.
#[derive(Clone, Copy, Default)]
pub struct Next {
    pub number: u32,
    pub at: usize,
    pub ticks: u32,
    pub start: usize,
    pub length: usize,
    pub width: usize,
}

// A tick state and its number in C: no `From` in `splitter`, where Code is, since it has no such numbers.
fn code_of(ticks: u32) -> Code
    ensures { result ≡ code_of ticks }
{
    match ticks {
        0 => Code::No,
        1 => Code::First,
        _ => Code::Rest,
    }
}

fn ticks_of(code: Code) -> u32
    ensures { result ≡ ticks_of code }
{
    match code {
        Code::No => 0,
        Code::First => 1,
        Code::Rest => 2,
    }
}

// What the chunk of one space at a place is.
fn space_number(body: &[u8], at: usize) -> u32
    ensures { result ≡ space_number body.now at }
{
    if base::starts_with(body, at, b" ") {
        1
    } else {
        4
    }
}

// A piece in numbers, with the cursor after it.
fn hand(body: &[u8], piece: Piece, after: Cursor) -> Next
    ensures { result ≡ handed body.now piece after }
{
    let next = Next {
        at: after.at.min(body.len()),
        ticks: ticks_of(after.code),
        ..Next::default()
    };
    match piece {
        Piece::Raw {
            from: start,
            to: stop,
            width,
        } => Next {
            number: 1,
            start,
            length: stop.saturating_sub(start),
            width,
            ..next
        },
        Piece::Space(start) => Next {
            number: space_number(body, start),
            start,
            length: 1,
            width: 1,
            ..next
        },
        Piece::Paragraph(start) => Next {
            number: 2,
            start,
            ..next
        },
        Piece::LineBreak(start) => Next {
            number: 3,
            start,
            ..next
        },
    }
}

// The chunk of a body at a cursor.
pub fn next_chunk(body: &[u8], at: usize, ticks: u32) -> Next
    ensures { result ≡ next_chunk body.now at ticks }
{
    let code = code_of(ticks);
    let step = splitter::step_at(body, Cursor { at, code });
    match step {
        Some((piece, after)) => hand(body, piece, after),
        None => Next {
            at,
            ticks,
            ..Next::default()
        },
    }
}
