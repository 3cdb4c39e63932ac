// The C interface (include/sefgrunn.h). Each function returns 0 for accepted, else the refusal's number. The header gives names and parameters: numbers for
// styles, blocks and refusals, 0 for none, a room and its length apart, numbers handed out through pointers, and two functions where one with a flag would do
// (`sefgrunn_html_strict`).

#![tactic(auto)]

ghost use Rattle.std.specs.Prelude.{◌≡◌, true, false, ◌≤◌, length, take, drop};
ghost use Rattle.base.specs.Result.{measured};
ghost use Rattle.document.specs.Document.{check};
ghost use Rattle.refusal.specs.Numbers.{refusal_number, refusal_place};
ghost use Rattle.refusal.specs.Answers.{answered};
ghost use Rattle.renderer.specs.Rendered.{filled};
ghost use Rattle.console_rules.specs.Console.{tabstop_in, settled_in, console};
ghost use Rattle.console.specs.Answers.{Demand3};
ghost use Rattle.console_bound.specs.Bound.{bound, room_bound};
ghost use Rattle.buffer.specs.Answers.{kept};
ghost use Rattle.buffer.specs.Builder.{adds_doc, adds_em_doc};
ghost use Rattle.notes_rules.specs.Notes.{taken_in};
ghost use Rattle.notes_rules.specs.Laws.{Faithful};
ghost use Rattle.next_chunk.specs.NextChunk.{next_chunk};
ghost use Rattle.pages.specs.Pages.{page_of, page_start, page_count, shown};
ghost use Rattle.html_rules.specs.Html.{html};
ghost use Rattle.html_rules.specs.Markdown.{markdown};
ghost use Rattle.manpage.specs.Roff.{roff};
ghost use Rattle.joined_rules.specs.Joined.{check_joined, joins_into, unjoins_into};
ghost use Rattle.joined_render_rules.specs.Render.{joined_console, joined_html, joined_markdown, joined_roff};
ghost use Rattle.figures.specs.Bundle.{figures};
ghost use Rattle.sefgrunn.specs.Figures.{or_none};
ghost use Rattle.draft.specs.Draft.{draft_in, Sound};
ghost use Rattle.sefgrunn.specs.Drafts.{WordsAfter, Drafts, resumes, DraftTold};
ghost use Rattle.sefgrunn.specs.HouseShape.{ShapeTold};
ghost use Rattle.sefgrunn.specs.Merge.{MergeTold};
ghost use Rattle.sefgrunn.specs.Numbers.{number_of, place_of, length_or_place, or_zero, length_after, caller_reads, settings, writes_in, opens_in, closes_in};

use console_rules::{Measure, Settings};
use draft::Draft;
use figures::Figures;
use pages::Part;
use records::{Block, Style};
use refusal::Refusal;

// The number of an answer: 0 for accepted, else the refusal's.
fn number<T: Drop>(answer: Result<T, Refusal>) -> u32
    ensures { result ≡ number_of (answered answer) }
{
    match answer {
        Ok(_) => 0,
        Err(a) => a.number(),
    }
}

// A refusal's number, and its place.
fn refused(a: Refusal, place: &mut usize) -> u32
    ensures number { result ≡ refusal_number a }
    ensures place { place.new ≡ refusal_place a }
{
    *place = a.place();
    a.number()
}

// The number of an answer, and the refusal's place, 0 where it is accepted.
fn number_with_place<T: Drop>(answer: Result<T, Refusal>, place: &mut usize) -> u32
    ensures number { result ≡ number_of (answered answer) }
    ensures place { place.new ≡ place_of (answered answer) }
{
    match answer {
        Ok(_) => {
            *place = 0;
            0
        }
        Err(a) => refused(a, place),
    }
}

// Refusals 1 to 8; `place` is the refusal's, and 0 where the document is accepted.
pub fn sefgrunn_check(document: &[u8], place: &mut usize) -> u32
    ensures number { result ≡ number_of (check document.now) }
    ensures place { place.new ≡ place_of (check document.now) }
{
    number_with_place(document::check(document), place)
}

// The number of an answer, and its length or place.
fn numbers_of(answer: Result<usize, Refusal>, at: &mut usize) -> u32
    ensures number { result ≡ number_of (answered answer) }
    ensures at { at.new ≡ length_or_place (answered answer) }
{
    *at = answer.unwrap_or_else(|a| a.place());
    number(answer)
}

// What a call asks of the console: `characters` off is the crate's measure.
// (No `From<bool>` for a measure, which would not say which of the two `true` is; so in `recorded`, where the flag is read from a list.)
fn settings(width: usize, full: bool, characters: bool) -> Settings
    ensures { result ≡ settings width full characters }
{
    let measure = if characters {
        Measure::Characters
    } else {
        Measure::Bytes
    };
    Settings {
        width,
        full,
        measure,
    }
}

// `Doc::render_console` with `Color::Monochrome`; by characters, the measure that 02 adds.
pub fn sefgrunn_console(
    document: &[u8],
    width: usize,
    full: bool,
    characters: bool,
    room: &mut [u8],
    at: &mut usize,
) -> u32
    ensures number { result ≡ number_of (console (settings width full characters) (length room.old) document.now) }
    ensures at { at.new ≡ length_or_place (measured (console (settings width full characters) (length room.old) document.now)) }
    ensures room { room.new ≡ filled (length room.old) (console (settings width full characters) (length room.old) document.now) }
    ensures demand3 { Demand3 (settings width full characters) document.now room.old room.new (caller_reads result at.new) }
    ensures enough { bound document.now ≤ length room.old → result ≡ 13 → ⊥ }
{
    let set = settings(width, full, characters);
    let answer = console::render_console(document, set, room);
    numbers_of(answer, at)
}

// How much room to lend to `sefgrunn_console`, so that it never answers 13: `at` is so many bytes, or the refusal's place.
pub fn sefgrunn_room_bound(document: &[u8], at: &mut usize) -> u32
    ensures number { result ≡ number_of (room_bound document.now) }
    ensures at { at.new ≡ length_or_place (room_bound document.now) }
{
    numbers_of(console_bound::room_bound(document), at)
}

// The chunk of a body at a cursor, which moves past it; 0 where there is none.
pub fn sefgrunn_next_chunk(
    body: &[u8],
    at: &mut usize,
    ticks: &mut u32,
    start: &mut usize,
    length: &mut usize,
    width: &mut usize,
) -> u32
    ensures number { result ≡ (next_chunk body.now at.old ticks.old).number }
    ensures at { at.new ≡ (next_chunk body.now at.old ticks.old).at }
    ensures ticks { ticks.new ≡ (next_chunk body.now at.old ticks.old).ticks }
    ensures start { start.new ≡ (next_chunk body.now at.old ticks.old).start }
    ensures length { length.new ≡ (next_chunk body.now at.old ticks.old).length }
    ensures width { width.new ≡ (next_chunk body.now at.old ticks.old).width }
{
    let next = next_chunk::next_chunk(body, *at, *ticks);
    *at = next.at;
    *ticks = next.ticks;
    *start = next.start;
    *length = next.length;
    *width = next.width;
    next.number
}

// The tabstop, and the start of the first ItemTerm end whose count is 24, or the document's length.
pub fn sefgrunn_tabstop(document: &[u8], tabstop: &mut usize, at: &mut usize) -> u32
    ensures number { result ≡ number_of (tabstop_in document.now) }
    ensures tabstop { tabstop.new ≡ or_zero (tabstop_in document.now) }
    ensures at { at.new ≡ length_or_place (settled_in document.now) }
{
    let found = console_tabstop::search_tabstop(document);
    *tabstop = found.map_or(0, |f| f.columns.0);
    numbers_of(found.map(|f| f.at), at)
}

// Whether a document has house shape, 1 or 0; and the place of the first record after which no further records could lead to it.
pub fn sefgrunn_house_shape(document: &[u8], shaped: &mut u32, place: &mut usize) -> u32
    ensures { ShapeTold document.now result shaped.new place.new }
{
    let answer = shape::house_shape(document);
    *shaped = u32::from(answer == Ok(None));
    numbers_of(answer.map(|p| p.unwrap_or(0)), place)
}

// A document into the joined form, or 1 to 8, or 13.
pub fn sefgrunn_join(document: &[u8], room: &mut [u8], at: &mut usize) -> u32
    ensures number { result ≡ number_of (joins_into (length room.old) document.now) }
    ensures at { at.new ≡ length_or_place (measured (joins_into (length room.old) document.now)) }
    ensures room { room.new ≡ filled (length room.old) (joins_into (length room.old) document.now) }
{
    let moved = joined::join(document, room);
    numbers_of(moved, at)
}

// A joined form back into a document, or 1, 17, 2 to 8 and 18, or 13.
pub fn sefgrunn_unjoin(joined: &[u8], room: &mut [u8], at: &mut usize) -> u32
    ensures number { result ≡ number_of (unjoins_into (length room.old) joined.now) }
    ensures at { at.new ≡ length_or_place (measured (unjoins_into (length room.old) joined.now)) }
    ensures room { room.new ≡ filled (length room.old) (unjoins_into (length room.old) joined.now) }
{
    let moved = joined::unjoin(joined, room);
    numbers_of(moved, at)
}

// Refusals 1, 17, 2 to 8 and 18 of a joined form; `place` is the refusal's, and 0 where it is accepted.
pub fn sefgrunn_joined_check(joined: &[u8], place: &mut usize) -> u32
    ensures number { result ≡ number_of (check_joined joined.now) }
    ensures place { place.new ≡ place_of (check_joined joined.now) }
{
    number_with_place(joined_check::check(joined), place)
}

// The figures of a bundle, or 16, 15, 14: `texts` are the accepted documents, `others` the refused ones. After a refusal the four numbers are 0.
pub fn sefgrunn_figures(
    bundle: &[u8],
    documents: &mut usize,
    texts: &mut usize,
    others: &mut usize,
    characters: &mut usize,
    place: &mut usize,
) -> u32
    ensures number { result ≡ number_of (figures bundle.now) }
    ensures documents { documents.new ≡ (or_none (figures bundle.now)).documents }
    ensures texts { texts.new ≡ (or_none (figures bundle.now)).accepted }
    ensures others { others.new ≡ (or_none (figures bundle.now)).refused }
    ensures characters { characters.new ≡ (or_none (figures bundle.now)).characters }
    ensures place { place.new ≡ place_of (figures bundle.now) }
{
    let answer = figures::figures_of(bundle);
    let f = answer.unwrap_or_default();
    *documents = f.documents;
    *texts = f.accepted;
    *others = f.refused;
    *characters = f.characters;
    number_with_place(answer, place)
}

// `Doc::render_html`.
pub fn sefgrunn_html(document: &[u8], full: bool, css: bool, room: &mut [u8], at: &mut usize) -> u32
    ensures number { result ≡ number_of (html (length room.old) false full css document.now) }
    ensures at { at.new ≡ length_or_place (measured (html (length room.old) false full css document.now)) }
    ensures room { room.new ≡ filled (length room.old) (html (length room.old) false full css document.now) }
{
    let answer = html::render_html(document, full, css, room);
    numbers_of(answer, at)
}

// Strict HTML, which 01 adds.
pub fn sefgrunn_html_strict(
    document: &[u8],
    full: bool,
    css: bool,
    room: &mut [u8],
    at: &mut usize,
) -> u32
    ensures number { result ≡ number_of (html (length room.old) true full css document.now) }
    ensures at { at.new ≡ length_or_place (measured (html (length room.old) true full css document.now)) }
    ensures room { room.new ≡ filled (length room.old) (html (length room.old) true full css document.now) }
{
    let answer = html::render_html_strict(document, full, css, room);
    numbers_of(answer, at)
}

// `Doc::render_markdown`.
pub fn sefgrunn_markdown(document: &[u8], full: bool, room: &mut [u8], at: &mut usize) -> u32
    ensures number { result ≡ number_of (markdown (length room.old) full document.now) }
    ensures at { at.new ≡ length_or_place (measured (markdown (length room.old) full document.now)) }
    ensures room { room.new ≡ filled (length room.old) (markdown (length room.old) full document.now) }
{
    let answer = markdown::render_markdown(document, full, room);
    numbers_of(answer, at)
}

// `Doc::render_roff` given `Roff::new()`.
pub fn sefgrunn_roff(document: &[u8], room: &mut [u8], at: &mut usize) -> u32
    ensures number { result ≡ number_of (roff (length room.old) document.now) }
    ensures at { at.new ≡ length_or_place (measured (roff (length room.old) document.now)) }
    ensures room { room.new ≡ filled (length room.old) (roff (length room.old) document.now) }
{
    let page = manpage::render_roff(document, room);
    numbers_of(page, at)
}

// The document that Markdown notes stand for.
pub fn sefgrunn_notes(notes: &[u8], room: &mut [u8], at: &mut usize) -> u32
    ensures number { result ≡ number_of (taken_in (length room.old) notes.now) }
    ensures at { at.new ≡ length_or_place (measured (taken_in (length room.old) notes.now)) }
    ensures room { room.new ≡ filled (length room.old) (taken_in (length room.old) notes.now) }
    ensures law { Faithful notes.now (taken_in (length room.old) notes.now) }
{
    let answer = notes::take_in(notes, room);
    numbers_of(answer, at)
}

// The console text of a joined form, with places there.
pub fn sefgrunn_joined_console(
    joined: &[u8],
    width: usize,
    full: bool,
    characters: bool,
    room: &mut [u8],
    at: &mut usize,
) -> u32
    ensures number { result ≡ number_of (joined_console (settings width full characters) (length room.old) joined.now) }
    ensures at { at.new ≡ length_or_place (measured (joined_console (settings width full characters) (length room.old) joined.now)) }
    ensures room { room.new ≡ filled (length room.old) (joined_console (settings width full characters) (length room.old) joined.now) }
{
    let set = settings(width, full, characters);
    let answer = joined_render::joined_console(joined, set, room);
    numbers_of(answer, at)
}

// The HTML of a joined form.
pub fn sefgrunn_joined_html(
    joined: &[u8],
    full: bool,
    css: bool,
    room: &mut [u8],
    at: &mut usize,
) -> u32
    ensures number { result ≡ number_of (joined_html (length room.old) false full css joined.now) }
    ensures at { at.new ≡ length_or_place (measured (joined_html (length room.old) false full css joined.now)) }
    ensures room { room.new ≡ filled (length room.old) (joined_html (length room.old) false full css joined.now) }
{
    let answer = joined_render::joined_html(joined, full, css, room);
    numbers_of(answer, at)
}

// The strict HTML of a joined form.
pub fn sefgrunn_joined_html_strict(
    joined: &[u8],
    full: bool,
    css: bool,
    room: &mut [u8],
    at: &mut usize,
) -> u32
    ensures number { result ≡ number_of (joined_html (length room.old) true full css joined.now) }
    ensures at { at.new ≡ length_or_place (measured (joined_html (length room.old) true full css joined.now)) }
    ensures room { room.new ≡ filled (length room.old) (joined_html (length room.old) true full css joined.now) }
{
    let answer = joined_render::joined_html_strict(joined, full, css, room);
    numbers_of(answer, at)
}

// The Markdown of a joined form.
pub fn sefgrunn_joined_markdown(joined: &[u8], full: bool, room: &mut [u8], at: &mut usize) -> u32
    ensures number { result ≡ number_of (joined_markdown (length room.old) full joined.now) }
    ensures at { at.new ≡ length_or_place (measured (joined_markdown (length room.old) full joined.now)) }
    ensures room { room.new ≡ filled (length room.old) (joined_markdown (length room.old) full joined.now) }
{
    let answer = joined_render::joined_markdown(joined, full, room);
    numbers_of(answer, at)
}

// The roff of a joined form.
pub fn sefgrunn_joined_roff(joined: &[u8], room: &mut [u8], at: &mut usize) -> u32
    ensures number { result ≡ number_of (joined_roff (length room.old) joined.now) }
    ensures at { at.new ≡ length_or_place (measured (joined_roff (length room.old) joined.now)) }
    ensures room { room.new ≡ filled (length room.old) (joined_roff (length room.old) joined.now) }
{
    let page = joined_render::joined_roff(joined, room);
    numbers_of(page, at)
}

// How many pages a text has at a height; 0 after a refusal.
pub fn sefgrunn_page_count(text: &[u8], height: usize, count: &mut usize) -> u32
    ensures number { result ≡ number_of (page_count height text.now) }
    ensures count { count.new ≡ or_zero (page_count height text.now) }
{
    let answer = pages::page_count(text, height);
    *count = answer.unwrap_or(0);
    number(answer)
}

// A page of a text, as a part of it: where it starts, and how many bytes it has; both 0 after a refusal.
pub fn sefgrunn_page(
    text: &[u8],
    height: usize,
    page: usize,
    start: &mut usize,
    len: &mut usize,
) -> u32
    ensures number { result ≡ number_of (page_of height page text.now) }
    ensures start { start.new ≡ or_zero (page_start height page text.now) }
    ensures length { len.new ≡ or_zero (measured (page_of height page text.now)) }
    ensures part { take len.new (drop start.new text.now) ≡ shown (page_of height page text.now) }
{
    let answer = pages::find_page(text, height, page);
    // written out, since no other page has a part of no bytes for a refusal
    let part = answer.unwrap_or(Part { start: 0, size: 0 });
    *start = part.start;
    *len = part.size;
    number(answer)
}

// The number of what the builder answers; the length changes only where it accepts.
fn stored(built: Result<usize, Refusal>, len: &mut usize, place: &mut usize) -> u32
    ensures number { result ≡ number_of (answered built) }
    ensures length { len.new ≡ length_after len.old (answered built) }
    ensures place { place.new ≡ place_of (answered built) }
{
    *len = built.unwrap_or(*len);
    number_with_place(built, place)
}

// `Doc::write_str`, in the style with a number from 1 to 5; any other is refused as 3 with place 0. (`as`, since Rust has no From between u32 and usize; so in
// the functions below. No generic function for style and block: these functions answer a number and no Result, so that a `let .. else` would follow it.)
pub fn sefgrunn_write(
    room: &mut [u8],
    len: &mut usize,
    style: u32,
    text: &[u8],
    place: &mut usize,
) -> u32
    ensures number { result ≡ number_of (writes_in room.old len.old style text.now) }
    ensures length { len.new ≡ length_after len.old (measured (writes_in room.old len.old style text.now)) }
    ensures place { place.new ≡ place_of (writes_in room.old len.old style text.now) }
    ensures room { room.new ≡ kept room.old (writes_in room.old len.old style text.now) }
{
    let Ok(s) = Style::try_from(style as usize) else {
        return refused(Refusal::UnknownKind(0), place);
    };
    let built = buffer::write_str(room, *len, s, text);
    stored(built, len, place)
}

// The start of the block with an index from 0 to 11; any other is refused likewise.
pub fn sefgrunn_open(room: &mut [u8], len: &mut usize, block: u32, place: &mut usize) -> u32
    ensures number { result ≡ number_of (opens_in room.old len.old block) }
    ensures length { len.new ≡ length_after len.old (measured (opens_in room.old len.old block)) }
    ensures place { place.new ≡ place_of (opens_in room.old len.old block) }
    ensures room { room.new ≡ kept room.old (opens_in room.old len.old block) }
{
    let Ok(b) = Block::try_from(block as usize) else {
        return refused(Refusal::UnknownKind(0), place);
    };
    let built = buffer::open_block(room, *len, b);
    stored(built, len, place)
}

// The end of the block with an index from 0 to 11.
pub fn sefgrunn_close(room: &mut [u8], len: &mut usize, block: u32, place: &mut usize) -> u32
    ensures number { result ≡ number_of (closes_in room.old len.old block) }
    ensures length { len.new ≡ length_after len.old (measured (closes_in room.old len.old block)) }
    ensures place { place.new ≡ place_of (closes_in room.old len.old block) }
    ensures room { room.new ≡ kept room.old (closes_in room.old len.old block) }
{
    let Ok(b) = Block::try_from(block as usize) else {
        return refused(Refusal::UnknownKind(0), place);
    };
    let built = buffer::close_block(room, *len, b);
    stored(built, len, place)
}

// `Doc::doc`.
pub fn sefgrunn_doc(room: &mut [u8], len: &mut usize, added: &[u8], place: &mut usize) -> u32
    ensures number { result ≡ number_of (adds_doc room.old len.old added.now) }
    ensures length { len.new ≡ length_after len.old (measured (adds_doc room.old len.old added.now)) }
    ensures place { place.new ≡ place_of (adds_doc room.old len.old added.now) }
    ensures room { room.new ≡ kept room.old (adds_doc room.old len.old added.now) }
{
    let built = buffer_doc::doc(room, *len, added);
    stored(built, len, place)
}

// `Doc::em_doc`.
pub fn sefgrunn_em_doc(room: &mut [u8], len: &mut usize, added: &[u8], place: &mut usize) -> u32
    ensures number { result ≡ number_of (adds_em_doc room.old len.old added.now) }
    ensures length { len.new ≡ length_after len.old (measured (adds_em_doc room.old len.old added.now)) }
    ensures place { place.new ≡ place_of (adds_em_doc room.old len.old added.now) }
    ensures room { room.new ≡ kept room.old (adds_em_doc room.old len.old added.now) }
{
    let built = buffer_doc::em_doc(room, *len, added);
    stored(built, len, place)
}

// 02: one option list from two products.
pub fn sefgrunn_merge(first: &[u8], second: &[u8], room: &mut [u8], at: &mut usize) -> u32
    ensures { MergeTold room.old first.now second.now result at.new room.new }
{
    let answer = merge::merge(first, second, room);
    numbers_of(answer, at)
}

// The number of what a call by a draft answers, and the new draft's words, which change only where it accepts.
fn drafted(answer: Result<Draft, Refusal>, draft: &mut [u64; 8], place: &mut usize) -> u32
    ensures { DraftTold answer draft.old draft.new result place.new }
{
    if let Ok(d) = answer {
        *draft = <[u64; 8]>::from(d);
    }
    number_with_place(answer, place)
}

// The draft of the document in the first `length` bytes of the room, by one check.
pub fn sefgrunn_draft_resume(
    room: &[u8],
    length: usize,
    draft: &mut [u64; 8],
    place: &mut usize,
) -> u32
    ensures number { result ≡ number_of (resumes room.now length) }
    ensures place { place.new ≡ place_of (resumes room.now length) }
    ensures draft { WordsAfter (resumes room.now length) room.now draft.old draft.new }
{
    let answer = Draft::resume(room, length);
    drafted(answer, draft, place)
}

// `sefgrunn_write` by a draft.
pub fn sefgrunn_draft_write(
    room: &mut [u8],
    draft: &mut [u64; 8],
    style: u32,
    text: &[u8],
    place: &mut usize,
) -> u32
    ensures numbers { result ≤ 13 }
    ensures does { Sound room.old (draft_in draft.old) → Drafts (writes_in room.old (draft_in draft.old).length style text.now) room.old room.new draft.old draft.new result place.new }
{
    let Ok(s) = Style::try_from(style as usize) else {
        return refused(Refusal::UnknownKind(0), place);
    };
    let answer = Draft::from(*draft).write_str(room, s, text);
    drafted(answer, draft, place)
}

// `sefgrunn_open` by a draft.
pub fn sefgrunn_draft_open(
    room: &mut [u8],
    draft: &mut [u64; 8],
    block: u32,
    place: &mut usize,
) -> u32
    ensures numbers { result ≤ 13 }
    ensures does { Sound room.old (draft_in draft.old) → Drafts (opens_in room.old (draft_in draft.old).length block) room.old room.new draft.old draft.new result place.new }
{
    let Ok(b) = Block::try_from(block as usize) else {
        return refused(Refusal::UnknownKind(0), place);
    };
    let answer = Draft::from(*draft).open_block(room, b);
    drafted(answer, draft, place)
}

// `sefgrunn_close` by a draft.
pub fn sefgrunn_draft_close(
    room: &mut [u8],
    draft: &mut [u64; 8],
    block: u32,
    place: &mut usize,
) -> u32
    ensures numbers { result ≤ 13 }
    ensures does { Sound room.old (draft_in draft.old) → Drafts (closes_in room.old (draft_in draft.old).length block) room.old room.new draft.old draft.new result place.new }
{
    let Ok(b) = Block::try_from(block as usize) else {
        return refused(Refusal::UnknownKind(0), place);
    };
    let answer = Draft::from(*draft).close_block(room, b);
    drafted(answer, draft, place)
}

// `sefgrunn_doc` by a draft.
pub fn sefgrunn_draft_doc(
    room: &mut [u8],
    draft: &mut [u64; 8],
    added: &[u8],
    place: &mut usize,
) -> u32
    ensures numbers { result ≤ 13 }
    ensures does { Sound room.old (draft_in draft.old) → Drafts (adds_doc room.old (draft_in draft.old).length added.now) room.old room.new draft.old draft.new result place.new }
{
    let answer = Draft::from(*draft).doc(room, added);
    drafted(answer, draft, place)
}

// `sefgrunn_em_doc` by a draft.
pub fn sefgrunn_draft_em_doc(
    room: &mut [u8],
    draft: &mut [u64; 8],
    added: &[u8],
    place: &mut usize,
) -> u32
    ensures numbers { result ≤ 13 }
    ensures does { Sound room.old (draft_in draft.old) → Drafts (adds_em_doc room.old (draft_in draft.old).length added.now) room.old room.new draft.old draft.new result place.new }
{
    let answer = Draft::from(*draft).em_doc(room, added);
    drafted(answer, draft, place)
}
