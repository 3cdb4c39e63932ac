// The console renderer (src/buffer/console.rs).

#![tactic(auto)]

ghost use Rattle.std.specs.Prelude.{◌≡◌, List, [], ℕ, ◌+◌, ◌≤◌, ◌^◌, length, take};
ghost use Rattle.base.specs.Result.{measured};
ghost use Rattle.splitter.specs.Answers.{placed_of, PieceWithin};
ghost use Rattle.records.specs.Records.{tokens};
ghost use Rattle.document.specs.Document.{max_bytes};
ghost use Rattle.refusal.specs.Answers.{answered};
ghost use Rattle.renderer.specs.Rendered.{filled};
ghost use Rattle.console_rules.specs.Console.{measure_of, body_chunk, text_by, console, max_tab};
ghost use Rattle.console_chunks.specs.InnerShown.{page_of, ruled, after, Near};
ghost use Rattle.console.specs.Answers.{Stands, Demand3, wide};
ghost use Rattle.console.specs.InnerWritten.{Written};

use console_blocks::Margins;
use console_chunks::{Chunk, Page};
use console_rules::{Columns, MAX_WIDTH, Measure, Settings};
use document::{Accepted, MAX_BYTES, MAX_OPEN};
use records::Kind;
use refusal::Refusal;
use splitter::Piece;

// `Doc::monochrome`: the width is 100.
pub fn monochrome(document: &[u8], full: bool, room: &mut [u8]) -> Result<usize, Refusal>
    ensures answer { answered result ≡ measured (console (wide full) (length room.old) document.now) }
    ensures room { room.new ≡ filled (length room.old) (console (wide full) (length room.old) document.now) }
    ensures demand3 { Demand3 (wide full) document.now room.old room.new (answered result) }
{
    render_console(
        document,
        Settings {
            width: 100,
            full,
            measure: Measure::Bytes,
        },
        room,
    )
}

// The text of a document in a room, or its refusal. The room is 0 beyond the text, and all 0 after a refusal.
// Each renderer has this line: one function for all would take the walk as a closure, and ask its promise by a `requires`.
pub fn render_console(document: &[u8], set: Settings, room: &mut [u8]) -> Result<usize, Refusal>
    ensures answer { answered result ≡ measured (console set (length room.old) document.now) }
    ensures room { room.new ≡ filled (length room.old) (console set (length room.old) document.now) }
    ensures demand3 { Demand3 set document.now room.old room.new (answered result) }
{
    renderer::cleared(rendered(document, set, room), room)
}

// Refusals 1, 9, then 2 to 8; then the walk.
// Document and settings stay two, as the entry has them: a struct of both would be made here and taken apart in the walk.
fn rendered(document: &[u8], set: Settings, room: &mut [u8]) -> Result<usize, Refusal>
    ensures { Stands room.new result (console set (length room.old) document.now) }
{
    if MAX_BYTES < document.len() {
        return Err(Refusal::TooLong);
    }
    if MAX_WIDTH < set.width {
        return Err(Refusal::TooWide);
    }
    let accepted = Accepted::of(document)?;
    let tab = console_tabstop::tabstop_of(document);
    walk(&accepted, set, tab, room)
}

// A chunk of a body that starts at a place of the document, at a margin: a piece as the splitter gives it. Words and spaces have one call of
// `place_chunk`, so that the compiler puts it into the loop: with a call for each the console takes 1.02 to 1.10 of the time.
// Here and in `put_body` margin, start and body stay three: a struct of them would be made at the one call in the walk, and its bounds be asked for there.
fn put_piece(
    page: &mut Page,
    margin: Columns,
    start: usize,
    body: &[u8],
    piece: Piece,
    set: Settings,
) -> Result<(), Refusal>
    requires { (page.old.lay.column.0 ≤ 2 ^ 50) × (margin.0 ≤ 2 ^ 50) × (length body.now ≤ max_bytes) × (start ≤ max_bytes) × PieceWithin (length body.now) piece }
    ensures by_index { (kept : List ℕ) → after result (page_of page.new kept) ≡ ruled (λ n. body_chunk (measure_of set) set n margin.0 start (placed_of body.now piece)) (page_of page.old kept) }
    ensures near { Near (margin.0 + 1_032_771) page.old.lay page.new.lay }
{
    let (at, text, width) = match piece {
        Piece::Raw { from, to, width } => (from, &body[from..to], width),
        Piece::Space(at) => (at, b" ".as_slice(), 1),
        Piece::Paragraph(_) => {
            page.put_paragraph(set);
            return Ok(());
        }
        Piece::LineBreak(_) => {
            page.line_end();
            return Ok(());
        }
    };
    let chunk = Chunk {
        at: start + at,
        text,
        width: Columns(width),
    };
    page.place_chunk(margin, chunk, set)
}

// The text of a record whose body starts at a place of the document, at a margin. `tail` is the document's bytes from there on: the body and what follows it.
fn put_body(
    page: &mut Page,
    margin: Columns,
    start: usize,
    body: &[u8],
    tail: &[u8],
    set: Settings,
) -> Result<(), Refusal>
    requires { (page.old.lay.column.0 ≤ 2 ^ 49) × (margin.0 ≤ 1_000_000) × (length body.now ≤ max_bytes) × (start ≤ max_bytes) × (body.now ≡ take (length body.now) tail.now) }
    ensures { Written set body.now margin.0 start page.old page.new result }
{
    let mut chunks = splitter_iter::split(body);
    // words and then a chunk at a time: a `for` over the chunks would lend them to the loop alone, and words move their cursor
    'chunks: loop {
        chunks.cursor.at = console_words::put_words(page, margin, &chunks, tail, set);
        // At a body's end the splitter is not asked: so the console takes 0.97 to 0.99 of its time.
        if body.len() <= chunks.cursor.at {
            return Ok(());
        }
        let Some((piece, _)) = chunks.next() else {
            return Ok(());
        };
        put_piece(page, margin, start, body, piece, set)?;
        if renderer::ends_body(piece, set.full) {
            break 'chunks;
        }
    }
    Ok(())
}

// The walk over the records of an accepted document.
fn walk(accepted: &Accepted, set: Settings, tab: Columns, room: &mut [u8]) -> Result<usize, Refusal>
    requires { tab.0 ≤ max_tab + 4 }
    ensures { Stands room.new result (text_by (measure_of set) set (length room.old) tab.0 (tokens 0 0 accepted.now)) }
{
    let document = accepted.bytes();
    let mut page = Page::new(room);
    let mut margins = Margins::<MAX_OPEN>::new();
    // where the records after the next end of a Section4 begin; at first 0, which is passed already, so no Option
    let mut ahead: usize = 0;
    let mut at: usize = 0;
    // By places: as a `for` over `Records` the console takes 1.07 to 1.09 of the time on pages of options.
    while at < document.len() {
        if page.is_full() {
            return Err(Refusal::NoRoom);
        }
        let h = records::whole_at(document, at);
        at = h.next;
        match h.kind {
            Kind::Unknown => {}
            Kind::Start(b) => {
                let gap = console_tabstop::gap_ahead(document, h.next, b, &mut ahead);
                console_blocks::started(&mut page, &mut margins, b, tab, gap);
            }
            Kind::End(b) => console_blocks::ended(&mut page, &mut margins, b),
            Kind::Text(_) => {
                if !page.lay.skip.enabled() {
                    let body = &document[h.start..h.next];
                    let tail = &document[h.start..];
                    put_body(&mut page, margins.top(), h.start, body, tail, set)?;
                }
            }
        }
    }
    page.last_line();
    let n = page.finish();
    renderer::answer(room, n)
}
