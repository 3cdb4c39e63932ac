// HTML and strict HTML (src/buffer/html.rs).

#![tactic(auto)]

ghost use Rattle.std.specs.Prelude.{◌≡◌, true, false, [], length};
ghost use Rattle.base.specs.Choice.{when◌then◌else◌ as choose};
ghost use Rattle.base.specs.Result.{◌>>=◌ as bind, measured};
ghost use Rattle.refusal.specs.Answers.{answered};
ghost use Rattle.room.specs.Room.{extended};
ghost use Rattle.room.specs.Lent.{text_of, wrote};
ghost use Rattle.records.specs.Records.{tokens};
ghost use Rattle.renderer.specs.Walk.{walk as records};
ghost use Rattle.renderer.specs.Rendered.{standing, filled, Inside};
ghost use Rattle.html_rules.specs.Html.{css as style_sheet, initial, turn, finish as finished, html};
ghost use Rattle.html_tags.specs.InnerParts.{closed};
ghost use Rattle.records.specs.declared.Style.TheVariants as style;

use document::{Accepted, MAX_OPEN, OpenBlocks};
use html_rules::Html;
use records::{Block, Kind, Records, Style};
use refusal::Refusal;
use room::Text;

// After the last record: the style is closed, and the style sheet follows. (A text and a style, and what is said of it after a call: as in `html_tags`.)
fn finish(t: &mut Text, st: &mut Style, sheet: &[u8])
    ensures text { text_of t.new ≡ wrote (λ size x. bind (closed size st.old x) (extended size sheet.now)) (text_of t.old) }
    ensures style { st.new ≡ style.Text }
{
    html_tags::change_style(t, st, Style::Text);
    t.put_all(sheet);
}

// The walk over an accepted document.
fn walk(
    document: &Accepted,
    sheet: &[u8],
    strict: bool,
    full: bool,
    room: &mut [u8],
) -> Result<usize, Refusal>
    ensures text { standing room.new result ≡ bind (records (turn (length room.old) strict full) (tokens 0 0 document.now) initial) (finished (length room.old) sheet.now) }
    ensures inside { Inside (length room.old) result }
{
    let mut t = Text::new(room);
    let mut lay = Html::default();
    let mut blocks = OpenBlocks::<MAX_OPEN>::new();
    'records: for r in Records::of(document.bytes()) {
        if t.is_full() {
            return Err(Refusal::NoRoom);
        }
        if r.kind.is_of(Block::Meta) {
            return Err(html_tags::meet_meta(&mut t, &mut lay.style, r.place));
        }
        match r.kind {
            Kind::Unknown => {}
            Kind::Start(b) => {
                let listed = blocks.is_innermost(Block::DefinitionList);
                html_tags::put_start(&mut t, &mut lay.style, b, listed);
                blocks.push(b);
                lay.skip.start(b);
            }
            Kind::End(b) => {
                blocks.pop();
                let listed = blocks.is_innermost(Block::DefinitionList);
                html_tags::put_end(&mut t, &mut lay.style, b, listed);
                lay.skip.end(b);
            }
            Kind::Text(st) => {
                if lay.skip.enabled() {
                    continue 'records;
                }
                html_tags::change_style(&mut t, &mut lay.style, st);
                let mut chunks = splitter_iter::split(r.body);
                // a line and then a chunk at a time: by chunks alone it took 1.7 to 2 times as long
                'chunks: loop {
                    chunks.cursor.at = html_lines::put_line(&mut t, &chunks, strict);
                    // at a body's end the splitter is not asked, as in `console::put_body`
                    if chunks.input.len() <= chunks.cursor.at {
                        break 'chunks;
                    }
                    let Some((piece, _)) = chunks.next() else {
                        break 'chunks;
                    };
                    if renderer::ends_body(piece, full) {
                        lay.skip.enable();
                        continue 'records;
                    }
                    html_tags::put_chunk(&mut t, chunks.input, piece, strict);
                }
            }
        }
    }
    finish(&mut t, &mut lay.style, sheet);
    renderer::finish(t)
}

// The style sheet, where one is asked for.
#[tactic(auto, unfolding(utf8::specs::Utf8::bytes, utf8::specs::Utf8::encode, html_rules::specs::Html::css, crate::proofs::Names::choose))]
fn style_sheet(css: bool) -> &'static [u8]
    ensures { result.now ≡ choose css style_sheet [] }
{
    if css {
        return b"\n<style>\ndiv.bpaf-doc {\n    padding: 14px;\n    background-color:var(--code-block-background-color);\n    font-family: \"Source Code Pro\", monospace;\n    margin-bottom: 0.75em;\n}\ndiv.bpaf-doc dt { margin-left: 1em; }\ndiv.bpaf-doc dd { margin-left: 3em; }\ndiv.bpaf-doc dl { margin-top: 0; padding-left: 1em; }\ndiv.bpaf-doc  { padding-left: 1em; }\n</style>";
    }
    b""
}

// Refusals 1 to 8, and then the walk. Three parameters and no struct of them: two functions would make it, and this one take it apart.
fn rendered(
    document: &[u8],
    strict: bool,
    full: bool,
    css: bool,
    room: &mut [u8],
) -> Result<usize, Refusal>
    ensures text { standing room.new result ≡ html (length room.old) strict full css document.now }
    ensures inside { Inside (length room.old) result }
{
    let accepted = Accepted::of(document)?;
    walk(&accepted, style_sheet(css), strict, full, room)
}

// HTML or strict HTML, and zeros after it. Each renderer has this line: one function for all would take the walk as a closure, and ask its promise
// by a `requires`.
fn render(
    document: &[u8],
    strict: bool,
    full: bool,
    css: bool,
    room: &mut [u8],
) -> Result<usize, Refusal>
    ensures answer { answered result ≡ measured (html (length room.old) strict full css document.now) }
    ensures room { room.new ≡ filled (length room.old) (html (length room.old) strict full css document.now) }
{
    renderer::cleared(rendered(document, strict, full, css, room), room)
}

// A document as HTML, with or without the style sheet.
pub fn render_html(
    document: &[u8],
    full: bool,
    css: bool,
    room: &mut [u8],
) -> Result<usize, Refusal>
    ensures answer { answered result ≡ measured (html (length room.old) false full css document.now) }
    ensures room { room.new ≡ filled (length room.old) (html (length room.old) false full css document.now) }
{
    render(document, false, full, css, room)
}

// The same with `&` escaped too. Two names, since the C interface has two.
pub fn render_html_strict(
    document: &[u8],
    full: bool,
    css: bool,
    room: &mut [u8],
) -> Result<usize, Refusal>
    ensures answer { answered result ≡ measured (html (length room.old) true full css document.now) }
    ensures room { room.new ≡ filled (length room.old) (html (length room.old) true full css document.now) }
{
    render(document, true, full, css, room)
}
