// The C interface (include/sefgrunn.h), as it is linked: each function of the crate `sefgrunn` under its own name, with the same clauses, for
// callers in C and Rust. They stand here in the order of the header; and in `sefgrunn` too, since a crate is a library or a static library, and the laws of
// `write_calls` are about these functions as a library's.

#![tactic(auto)]

ghost use Rattle.std.specs.Prelude.{◌≡◌, true, false, ◌≤◌, length, take, drop};
ghost use Rattle.base.specs.Result.{measured};
ghost use Rattle.document.specs.Document.{check};
ghost use Rattle.renderer.specs.Rendered.{filled};
ghost use Rattle.console_rules.specs.Console.{tabstop_in, settled_in, console};
ghost use Rattle.console.specs.Answers.{Demand3};
ghost use Rattle.console_bound.specs.Bound.{bound, room_bound};
ghost use Rattle.buffer.specs.Answers.{kept};
ghost use Rattle.buffer.specs.Builder.{adds_doc, adds_em_doc};
ghost use Rattle.notes_rules.specs.Notes.{taken_in};
ghost use Rattle.notes_rules.specs.Laws.{Faithful};
ghost use Rattle.next_chunk.specs.NextChunk.{next_chunk};
ghost use Rattle.pages.specs.Pages.{page_of, page_start, page_count, shown};
ghost use Rattle.html_rules.specs.Html.{html};
ghost use Rattle.html_rules.specs.Markdown.{markdown};
ghost use Rattle.manpage.specs.Roff.{roff};
ghost use Rattle.joined_rules.specs.Joined.{check_joined, joins_into, unjoins_into};
ghost use Rattle.joined_render_rules.specs.Render.{joined_console, joined_html, joined_markdown, joined_roff};
ghost use Rattle.figures.specs.Bundle.{figures};
ghost use Rattle.sefgrunn.specs.Figures.{or_none};
ghost use Rattle.draft.specs.Draft.{draft_in, Sound};
ghost use Rattle.sefgrunn.specs.Drafts.{WordsAfter, Drafts, resumes};
ghost use Rattle.sefgrunn.specs.HouseShape.{ShapeTold};
ghost use Rattle.sefgrunn.specs.Merge.{MergeTold};
ghost use Rattle.sefgrunn.specs.Numbers.{number_of, place_of, length_or_place, or_zero, length_after, caller_reads, settings, writes_in, opens_in, closes_in};

// Refusals 1 to 8; `place` is the refusal's, and 0 where the document is accepted.
#[unsafe(no_mangle)]
pub extern "C" fn sefgrunn_check(document: &[u8], place: &mut usize) -> u32
    ensures number { result ≡ number_of (check document.now) }
    ensures place { place.new ≡ place_of (check document.now) }
{
    sefgrunn::sefgrunn_check(document, place)
}

// `Doc::render_console` with `Color::Monochrome`; by characters, the measure that 02 adds.
#[unsafe(no_mangle)]
pub extern "C" fn sefgrunn_console(
    document: &[u8],
    width: usize,
    full: bool,
    characters: bool,
    room: &mut [u8],
    at: &mut usize,
) -> u32
    ensures number { result ≡ number_of (console (settings width full characters) (length room.old) document.now) }
    ensures at { at.new ≡ length_or_place (measured (console (settings width full characters) (length room.old) document.now)) }
    ensures room { room.new ≡ filled (length room.old) (console (settings width full characters) (length room.old) document.now) }
    ensures demand3 { Demand3 (settings width full characters) document.now room.old room.new (caller_reads result at.new) }
    ensures enough { bound document.now ≤ length room.old → result ≡ 13 → ⊥ }
{
    sefgrunn::sefgrunn_console(document, width, full, characters, room, at)
}

// Whether a document has house shape, 1 or 0; and the place of the first record after which no further records could lead to it.
#[unsafe(no_mangle)]
pub extern "C" fn sefgrunn_house_shape(document: &[u8], shaped: &mut u32, place: &mut usize) -> u32
    ensures { ShapeTold document.now result shaped.new place.new }
{
    sefgrunn::sefgrunn_house_shape(document, shaped, place)
}

// How much room to lend to `sefgrunn_console`, so that it never answers 13: `at` is so many bytes, or the refusal's place.
#[unsafe(no_mangle)]
pub extern "C" fn sefgrunn_room_bound(document: &[u8], at: &mut usize) -> u32
    ensures number { result ≡ number_of (room_bound document.now) }
    ensures at { at.new ≡ length_or_place (room_bound document.now) }
{
    sefgrunn::sefgrunn_room_bound(document, at)
}

// The chunk of a body at a cursor, which moves past it; 0 where there is none.
#[unsafe(no_mangle)]
pub extern "C" fn sefgrunn_next_chunk(
    body: &[u8],
    at: &mut usize,
    ticks: &mut u32,
    start: &mut usize,
    length: &mut usize,
    width: &mut usize,
) -> u32
    ensures number { result ≡ (next_chunk body.now at.old ticks.old).number }
    ensures at { at.new ≡ (next_chunk body.now at.old ticks.old).at }
    ensures ticks { ticks.new ≡ (next_chunk body.now at.old ticks.old).ticks }
    ensures start { start.new ≡ (next_chunk body.now at.old ticks.old).start }
    ensures length { length.new ≡ (next_chunk body.now at.old ticks.old).length }
    ensures width { width.new ≡ (next_chunk body.now at.old ticks.old).width }
{
    sefgrunn::sefgrunn_next_chunk(body, at, ticks, start, length, width)
}

// The tabstop, and the start of the first ItemTerm end whose count is 24, or the document's length.
#[unsafe(no_mangle)]
pub extern "C" fn sefgrunn_tabstop(document: &[u8], tabstop: &mut usize, at: &mut usize) -> u32
    ensures number { result ≡ number_of (tabstop_in document.now) }
    ensures tabstop { tabstop.new ≡ or_zero (tabstop_in document.now) }
    ensures at { at.new ≡ length_or_place (settled_in document.now) }
{
    sefgrunn::sefgrunn_tabstop(document, tabstop, at)
}

// `Doc::render_html`.
#[unsafe(no_mangle)]
pub extern "C" fn sefgrunn_html(
    document: &[u8],
    full: bool,
    css: bool,
    room: &mut [u8],
    at: &mut usize,
) -> u32
    ensures number { result ≡ number_of (html (length room.old) false full css document.now) }
    ensures at { at.new ≡ length_or_place (measured (html (length room.old) false full css document.now)) }
    ensures room { room.new ≡ filled (length room.old) (html (length room.old) false full css document.now) }
{
    sefgrunn::sefgrunn_html(document, full, css, room, at)
}

// Strict HTML, which 01 adds.
#[unsafe(no_mangle)]
pub extern "C" fn sefgrunn_html_strict(
    document: &[u8],
    full: bool,
    css: bool,
    room: &mut [u8],
    at: &mut usize,
) -> u32
    ensures number { result ≡ number_of (html (length room.old) true full css document.now) }
    ensures at { at.new ≡ length_or_place (measured (html (length room.old) true full css document.now)) }
    ensures room { room.new ≡ filled (length room.old) (html (length room.old) true full css document.now) }
{
    sefgrunn::sefgrunn_html_strict(document, full, css, room, at)
}

// `Doc::render_markdown`.
#[unsafe(no_mangle)]
pub extern "C" fn sefgrunn_markdown(
    document: &[u8],
    full: bool,
    room: &mut [u8],
    at: &mut usize,
) -> u32
    ensures number { result ≡ number_of (markdown (length room.old) full document.now) }
    ensures at { at.new ≡ length_or_place (measured (markdown (length room.old) full document.now)) }
    ensures room { room.new ≡ filled (length room.old) (markdown (length room.old) full document.now) }
{
    sefgrunn::sefgrunn_markdown(document, full, room, at)
}

// `Doc::render_roff` given `Roff::new()`.
#[unsafe(no_mangle)]
pub extern "C" fn sefgrunn_roff(document: &[u8], room: &mut [u8], at: &mut usize) -> u32
    ensures number { result ≡ number_of (roff (length room.old) document.now) }
    ensures at { at.new ≡ length_or_place (measured (roff (length room.old) document.now)) }
    ensures room { room.new ≡ filled (length room.old) (roff (length room.old) document.now) }
{
    sefgrunn::sefgrunn_roff(document, room, at)
}

// A document into the joined form, or 1 to 8, or 13.
#[unsafe(no_mangle)]
pub extern "C" fn sefgrunn_join(document: &[u8], room: &mut [u8], at: &mut usize) -> u32
    ensures number { result ≡ number_of (joins_into (length room.old) document.now) }
    ensures at { at.new ≡ length_or_place (measured (joins_into (length room.old) document.now)) }
    ensures room { room.new ≡ filled (length room.old) (joins_into (length room.old) document.now) }
{
    sefgrunn::sefgrunn_join(document, room, at)
}

// A joined form back into a document, or 1, 17, 2 to 8 and 18, or 13.
#[unsafe(no_mangle)]
pub extern "C" fn sefgrunn_unjoin(joined: &[u8], room: &mut [u8], at: &mut usize) -> u32
    ensures number { result ≡ number_of (unjoins_into (length room.old) joined.now) }
    ensures at { at.new ≡ length_or_place (measured (unjoins_into (length room.old) joined.now)) }
    ensures room { room.new ≡ filled (length room.old) (unjoins_into (length room.old) joined.now) }
{
    sefgrunn::sefgrunn_unjoin(joined, room, at)
}

// Refusals 1, 17, 2 to 8 and 18 of a joined form; `place` is the refusal's, and 0 where it is accepted.
#[unsafe(no_mangle)]
pub extern "C" fn sefgrunn_joined_check(joined: &[u8], place: &mut usize) -> u32
    ensures number { result ≡ number_of (check_joined joined.now) }
    ensures place { place.new ≡ place_of (check_joined joined.now) }
{
    sefgrunn::sefgrunn_joined_check(joined, place)
}

// The console text of a joined form, with places there.
#[unsafe(no_mangle)]
pub extern "C" fn sefgrunn_joined_console(
    joined: &[u8],
    width: usize,
    full: bool,
    characters: bool,
    room: &mut [u8],
    at: &mut usize,
) -> u32
    ensures number { result ≡ number_of (joined_console (settings width full characters) (length room.old) joined.now) }
    ensures at { at.new ≡ length_or_place (measured (joined_console (settings width full characters) (length room.old) joined.now)) }
    ensures room { room.new ≡ filled (length room.old) (joined_console (settings width full characters) (length room.old) joined.now) }
{
    sefgrunn::sefgrunn_joined_console(joined, width, full, characters, room, at)
}

// The HTML of a joined form.
#[unsafe(no_mangle)]
pub extern "C" fn sefgrunn_joined_html(
    joined: &[u8],
    full: bool,
    css: bool,
    room: &mut [u8],
    at: &mut usize,
) -> u32
    ensures number { result ≡ number_of (joined_html (length room.old) false full css joined.now) }
    ensures at { at.new ≡ length_or_place (measured (joined_html (length room.old) false full css joined.now)) }
    ensures room { room.new ≡ filled (length room.old) (joined_html (length room.old) false full css joined.now) }
{
    sefgrunn::sefgrunn_joined_html(joined, full, css, room, at)
}

// The strict HTML of a joined form.
#[unsafe(no_mangle)]
pub extern "C" fn sefgrunn_joined_html_strict(
    joined: &[u8],
    full: bool,
    css: bool,
    room: &mut [u8],
    at: &mut usize,
) -> u32
    ensures number { result ≡ number_of (joined_html (length room.old) true full css joined.now) }
    ensures at { at.new ≡ length_or_place (measured (joined_html (length room.old) true full css joined.now)) }
    ensures room { room.new ≡ filled (length room.old) (joined_html (length room.old) true full css joined.now) }
{
    sefgrunn::sefgrunn_joined_html_strict(joined, full, css, room, at)
}

// The Markdown of a joined form.
#[unsafe(no_mangle)]
pub extern "C" fn sefgrunn_joined_markdown(
    joined: &[u8],
    full: bool,
    room: &mut [u8],
    at: &mut usize,
) -> u32
    ensures number { result ≡ number_of (joined_markdown (length room.old) full joined.now) }
    ensures at { at.new ≡ length_or_place (measured (joined_markdown (length room.old) full joined.now)) }
    ensures room { room.new ≡ filled (length room.old) (joined_markdown (length room.old) full joined.now) }
{
    sefgrunn::sefgrunn_joined_markdown(joined, full, room, at)
}

// The roff of a joined form.
#[unsafe(no_mangle)]
pub extern "C" fn sefgrunn_joined_roff(joined: &[u8], room: &mut [u8], at: &mut usize) -> u32
    ensures number { result ≡ number_of (joined_roff (length room.old) joined.now) }
    ensures at { at.new ≡ length_or_place (measured (joined_roff (length room.old) joined.now)) }
    ensures room { room.new ≡ filled (length room.old) (joined_roff (length room.old) joined.now) }
{
    sefgrunn::sefgrunn_joined_roff(joined, room, at)
}

// The document that Markdown notes stand for.
#[unsafe(no_mangle)]
pub extern "C" fn sefgrunn_notes(notes: &[u8], room: &mut [u8], at: &mut usize) -> u32
    ensures number { result ≡ number_of (taken_in (length room.old) notes.now) }
    ensures at { at.new ≡ length_or_place (measured (taken_in (length room.old) notes.now)) }
    ensures room { room.new ≡ filled (length room.old) (taken_in (length room.old) notes.now) }
    ensures law { Faithful notes.now (taken_in (length room.old) notes.now) }
{
    sefgrunn::sefgrunn_notes(notes, room, at)
}

// The figures of a bundle, or 16, 15, 14: `texts` are the accepted documents, `others` the refused ones. After a refusal the four numbers are 0.
#[unsafe(no_mangle)]
pub extern "C" fn sefgrunn_figures(
    bundle: &[u8],
    documents: &mut usize,
    texts: &mut usize,
    others: &mut usize,
    characters: &mut usize,
    place: &mut usize,
) -> u32
    ensures number { result ≡ number_of (figures bundle.now) }
    ensures documents { documents.new ≡ (or_none (figures bundle.now)).documents }
    ensures texts { texts.new ≡ (or_none (figures bundle.now)).accepted }
    ensures others { others.new ≡ (or_none (figures bundle.now)).refused }
    ensures characters { characters.new ≡ (or_none (figures bundle.now)).characters }
    ensures place { place.new ≡ place_of (figures bundle.now) }
{
    sefgrunn::sefgrunn_figures(bundle, documents, texts, others, characters, place)
}

// 02: one option list from two products.
#[unsafe(no_mangle)]
pub extern "C" fn sefgrunn_merge(
    first: &[u8],
    second: &[u8],
    room: &mut [u8],
    at: &mut usize,
) -> u32
    ensures { MergeTold room.old first.now second.now result at.new room.new }
{
    sefgrunn::sefgrunn_merge(first, second, room, at)
}

// How many pages a text has at a height; 0 after a refusal.
#[unsafe(no_mangle)]
pub extern "C" fn sefgrunn_page_count(text: &[u8], height: usize, count: &mut usize) -> u32
    ensures number { result ≡ number_of (page_count height text.now) }
    ensures count { count.new ≡ or_zero (page_count height text.now) }
{
    sefgrunn::sefgrunn_page_count(text, height, count)
}

// A page of a text, as a part of it: where it starts, and how many bytes it has; both 0 after a refusal.
#[unsafe(no_mangle)]
pub extern "C" fn sefgrunn_page(
    text: &[u8],
    height: usize,
    page: usize,
    start: &mut usize,
    len: &mut usize,
) -> u32
    ensures number { result ≡ number_of (page_of height page text.now) }
    ensures start { start.new ≡ or_zero (page_start height page text.now) }
    ensures length { len.new ≡ or_zero (measured (page_of height page text.now)) }
    ensures part { take len.new (drop start.new text.now) ≡ shown (page_of height page text.now) }
{
    sefgrunn::sefgrunn_page(text, height, page, start, len)
}

// `Doc::write_str`, in the style with a number from 1 to 5.
#[unsafe(no_mangle)]
pub extern "C" fn sefgrunn_write(
    room: &mut [u8],
    len: &mut usize,
    style: u32,
    text: &[u8],
    place: &mut usize,
) -> u32
    ensures number { result ≡ number_of (writes_in room.old len.old style text.now) }
    ensures length { len.new ≡ length_after len.old (measured (writes_in room.old len.old style text.now)) }
    ensures place { place.new ≡ place_of (writes_in room.old len.old style text.now) }
    ensures room { room.new ≡ kept room.old (writes_in room.old len.old style text.now) }
{
    sefgrunn::sefgrunn_write(room, len, style, text, place)
}

// The start of the block with an index from 0 to 11.
#[unsafe(no_mangle)]
pub extern "C" fn sefgrunn_open(
    room: &mut [u8],
    len: &mut usize,
    block: u32,
    place: &mut usize,
) -> u32
    ensures number { result ≡ number_of (opens_in room.old len.old block) }
    ensures length { len.new ≡ length_after len.old (measured (opens_in room.old len.old block)) }
    ensures place { place.new ≡ place_of (opens_in room.old len.old block) }
    ensures room { room.new ≡ kept room.old (opens_in room.old len.old block) }
{
    sefgrunn::sefgrunn_open(room, len, block, place)
}

// The end of the block with an index from 0 to 11.
#[unsafe(no_mangle)]
pub extern "C" fn sefgrunn_close(
    room: &mut [u8],
    len: &mut usize,
    block: u32,
    place: &mut usize,
) -> u32
    ensures number { result ≡ number_of (closes_in room.old len.old block) }
    ensures length { len.new ≡ length_after len.old (measured (closes_in room.old len.old block)) }
    ensures place { place.new ≡ place_of (closes_in room.old len.old block) }
    ensures room { room.new ≡ kept room.old (closes_in room.old len.old block) }
{
    sefgrunn::sefgrunn_close(room, len, block, place)
}

// `Doc::doc`.
#[unsafe(no_mangle)]
pub extern "C" fn sefgrunn_doc(
    room: &mut [u8],
    len: &mut usize,
    added: &[u8],
    place: &mut usize,
) -> u32
    ensures number { result ≡ number_of (adds_doc room.old len.old added.now) }
    ensures length { len.new ≡ length_after len.old (measured (adds_doc room.old len.old added.now)) }
    ensures place { place.new ≡ place_of (adds_doc room.old len.old added.now) }
    ensures room { room.new ≡ kept room.old (adds_doc room.old len.old added.now) }
{
    sefgrunn::sefgrunn_doc(room, len, added, place)
}

// `Doc::em_doc`.
#[unsafe(no_mangle)]
pub extern "C" fn sefgrunn_em_doc(
    room: &mut [u8],
    len: &mut usize,
    added: &[u8],
    place: &mut usize,
) -> u32
    ensures number { result ≡ number_of (adds_em_doc room.old len.old added.now) }
    ensures length { len.new ≡ length_after len.old (measured (adds_em_doc room.old len.old added.now)) }
    ensures place { place.new ≡ place_of (adds_em_doc room.old len.old added.now) }
    ensures room { room.new ≡ kept room.old (adds_em_doc room.old len.old added.now) }
{
    sefgrunn::sefgrunn_em_doc(room, len, added, place)
}

// The draft of the document in the first `length` bytes of the room, by one check.
#[unsafe(no_mangle)]
pub extern "C" fn sefgrunn_draft_resume(
    room: &[u8],
    length: usize,
    draft: &mut [u64; 8],
    place: &mut usize,
) -> u32
    ensures number { result ≡ number_of (resumes room.now length) }
    ensures place { place.new ≡ place_of (resumes room.now length) }
    ensures draft { WordsAfter (resumes room.now length) room.now draft.old draft.new }
{
    sefgrunn::sefgrunn_draft_resume(room, length, draft, place)
}

// `sefgrunn_write` by a draft.
#[unsafe(no_mangle)]
pub extern "C" fn sefgrunn_draft_write(
    room: &mut [u8],
    draft: &mut [u64; 8],
    style: u32,
    text: &[u8],
    place: &mut usize,
) -> u32
    ensures numbers { result ≤ 13 }
    ensures does { Sound room.old (draft_in draft.old) → Drafts (writes_in room.old (draft_in draft.old).length style text.now) room.old room.new draft.old draft.new result place.new }
{
    sefgrunn::sefgrunn_draft_write(room, draft, style, text, place)
}

// `sefgrunn_open` by a draft.
#[unsafe(no_mangle)]
pub extern "C" fn sefgrunn_draft_open(
    room: &mut [u8],
    draft: &mut [u64; 8],
    block: u32,
    place: &mut usize,
) -> u32
    ensures numbers { result ≤ 13 }
    ensures does { Sound room.old (draft_in draft.old) → Drafts (opens_in room.old (draft_in draft.old).length block) room.old room.new draft.old draft.new result place.new }
{
    sefgrunn::sefgrunn_draft_open(room, draft, block, place)
}

// `sefgrunn_close` by a draft.
#[unsafe(no_mangle)]
pub extern "C" fn sefgrunn_draft_close(
    room: &mut [u8],
    draft: &mut [u64; 8],
    block: u32,
    place: &mut usize,
) -> u32
    ensures numbers { result ≤ 13 }
    ensures does { Sound room.old (draft_in draft.old) → Drafts (closes_in room.old (draft_in draft.old).length block) room.old room.new draft.old draft.new result place.new }
{
    sefgrunn::sefgrunn_draft_close(room, draft, block, place)
}

// `sefgrunn_doc` by a draft.
#[unsafe(no_mangle)]
pub extern "C" fn sefgrunn_draft_doc(
    room: &mut [u8],
    draft: &mut [u64; 8],
    added: &[u8],
    place: &mut usize,
) -> u32
    ensures numbers { result ≤ 13 }
    ensures does { Sound room.old (draft_in draft.old) → Drafts (adds_doc room.old (draft_in draft.old).length added.now) room.old room.new draft.old draft.new result place.new }
{
    sefgrunn::sefgrunn_draft_doc(room, draft, added, place)
}

// `sefgrunn_em_doc` by a draft.
#[unsafe(no_mangle)]
pub extern "C" fn sefgrunn_draft_em_doc(
    room: &mut [u8],
    draft: &mut [u64; 8],
    added: &[u8],
    place: &mut usize,
) -> u32
    ensures numbers { result ≤ 13 }
    ensures does { Sound room.old (draft_in draft.old) → Drafts (adds_em_doc room.old (draft_in draft.old).length added.now) room.old room.new draft.old draft.new result place.new }
{
    sefgrunn::sefgrunn_draft_em_doc(room, draft, added, place)
}
