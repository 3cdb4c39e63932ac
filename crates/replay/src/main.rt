// Reads a list of calls with the oracle's answers from standard input, makes each call and compares, and prints one line with the counts:
// check, the renderers, the splitter and its step, the tabstop.
#![tactic(auto)]

use recorded::operation::Operation;
use recorded::{Call, Case, makes, run};
use splitter::Piece;
use std::io;

// A chunk as a list has it: a tag, where it starts, its length and its width.
// (Numbers, 0 or 0xFFFF_FFFF where there is none, as the list has them: what is read is compared as it stands.)
#[derive(Clone, Copy, Default, PartialEq, Eq)]
struct Chunk {
    tag: u8,
    start: usize,
    size: usize,
    width: usize,
}

// The chunk that a list begins with, and what follows it.
fn first_chunk<'a>(listed: &'a [u8]) -> (Chunk, &'a [u8]) {
    let tag = compared::byte_or(listed, 0, 255);
    let (start, rest) = recorded::split_number(base::get_from(listed, 1));
    let (size, rest) = recorded::split_number(rest);
    let (width, rest) = recorded::split_number(rest);
    let chunk = Chunk {
        tag,
        start,
        size,
        width,
    };
    (chunk, rest)
}

// A paragraph or a line break, which have only a tag.
fn mark(tag: u8) -> Chunk {
    Chunk {
        tag,
        ..Chunk::default()
    }
}

// A piece of a body, as a list has it. A space has a start where it is a part of the body, and not of a line end.
fn chunk_of(body: &[u8], piece: Piece) -> Chunk {
    match piece {
        Piece::Paragraph(_) => mark(1),
        Piece::LineBreak(_) => mark(2),
        Piece::Space(at) => Chunk {
            tag: 0,
            start: if compared::byte_or(body, at, 0) == b' ' {
                at
            } else {
                0xFFFF_FFFF
            },
            size: 1,
            width: 1,
        },
        Piece::Raw { from, to, width } => Chunk {
            tag: 0,
            start: from,
            size: to.wrapping_sub(from),
            width,
        },
    }
}

// Whether a body's chunks are those listed, so many, and the list ends with them.
fn has_chunks(body: &[u8], listed: &[u8], count: usize) -> bool {
    let mut chunks = splitter_iter::split(body);
    let mut rest = listed;
    for _ in 0..count {
        let Some((piece, _)) = chunks.next() else {
            return false;
        };
        let (chunk, others) = first_chunk(rest);
        if chunk_of(body, piece) != chunk {
            return false;
        }
        rest = others;
    }
    chunks.next().is_none() && rest.is_empty()
}

// Whether the splitter answers as a case says.
fn splits(body: &[u8], answer: &[u8]) -> bool {
    let (wanted, listed) = recorded::split_answer(answer);
    wanted.is_ok_and(|count| has_chunks(body, listed, count))
}

// Whether `next_chunk` answers as a case says: what the chunk is and the cursor after it, where it begins, its length and its width.
fn hands_out(call: Call, body: &[u8], answer: &[u8]) -> bool {
    let next = next_chunk::next_chunk(body, call.setting, u32::from(call.ticks));
    // `as`, since Rust has no From between u32 and usize
    let handed = [
        next.number as usize,
        next.at,
        next.ticks as usize,
        next.start,
        next.length,
        next.width,
    ];
    let mut rest = answer;
    for n in handed {
        let (listed, others) = recorded::split_number(rest);
        if n != listed {
            return false;
        }
        rest = others;
    }
    rest.is_empty()
}

// Whether the search for the tabstop answers as a case says.
fn finds_tabstop(document: &[u8], answer: &[u8]) -> bool {
    let (wanted, tabstop) = recorded::split_answer(answer);
    let tabstop = recorded::number(tabstop);
    match (console_tabstop::search_tabstop(document), wanted) {
        (Ok(t), Ok(at)) => t.at == at && t.columns.0 == tabstop,
        (Err(a), Err(w)) => tabstop == 0 && compared::is_refusal(a, w),
        _ => false,
    }
}

// Whether a call answers as its case says.
fn agrees(case: &[u8]) -> bool {
    let Case {
        operation: Ok(operation),
        call,
        document,
        answer,
    } = Case::of(case)
    else {
        return false;
    };
    let (full, css) = (call.full, call.css);
    match operation {
        Operation::Check => recorded::checks(document::check(document), answer),
        Operation::Console => makes(call.room, answer, |room| {
            console::render_console(document, call.settings(), room)
        }),
        Operation::Html => makes(call.room, answer, |room| {
            html::render_html(document, full, css, room)
        }),
        Operation::HtmlStrict => makes(call.room, answer, |room| {
            html::render_html_strict(document, full, css, room)
        }),
        Operation::Markdown => makes(call.room, answer, |room| {
            markdown::render_markdown(document, full, room)
        }),
        Operation::Roff => makes(call.room, answer, |room| {
            manpage::render_roff(document, room)
        }),
        Operation::Split => splits(document, answer),
        Operation::NextChunk => hands_out(call, document, answer),
        Operation::Tabstop => finds_tabstop(document, answer),
        _ => false,
    }
}

// The calls of this program's list, as its line names them.
const NAMES: [(Operation, &[u8]); 9] = [
    (Operation::Check, b"check "),
    (Operation::Console, b", console "),
    (Operation::Html, b", html "),
    (Operation::HtmlStrict, b", html_strict "),
    (Operation::Markdown, b", markdown "),
    (Operation::Roff, b", roff "),
    (Operation::Split, b", split "),
    (Operation::NextChunk, b", next_chunk "),
    (Operation::Tabstop, b", tabstop "),
];

// A read or a write that fails ends the program with its error.
fn main(rt: HostRuntime) -> io::Result<()> {
    run::run(&mut rt.stdin(), &mut rt.stdout(), &NAMES, agrees)
}
