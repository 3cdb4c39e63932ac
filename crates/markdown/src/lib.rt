// Markdown (src/buffer/html.rs).

#![tactic(auto)]

ghost use Rattle.std.specs.Prelude.{◌≡◌, length};
ghost use Rattle.base.specs.Result.{◌>>=◌ as bind, measured};
ghost use Rattle.refusal.specs.Answers.{answered};
ghost use Rattle.records.specs.Records.{tokens};
ghost use Rattle.renderer.specs.Walk.{walk as records};
ghost use Rattle.renderer.specs.Rendered.{standing, filled, Inside};
ghost use Rattle.html_rules.specs.Markdown.{initial, turn, finish as finished, markdown};

use document::Accepted;
use html_rules::Markdown;
use records::{Block, Kind, Records, Style};
use refusal::Refusal;
use room::Text;

// The walk over an accepted document. One function: parted into this walk and that over a body it took 1.13 to 1.2 times as long.
fn walk(document: &Accepted, full: bool, room: &mut [u8]) -> Result<usize, Refusal>
    ensures text { standing room.new result ≡ bind (records (turn (length room.old) full) (tokens 0 0 document.now) initial) (finished (length room.old)) }
    ensures inside { Inside (length room.old) result }
{
    let mut t = Text::new(room);
    let mut lay = Markdown::default();
    // `while let`, since a term looks at the record after it: a `for` lends the iterator to the loop alone
    let mut records = Records::of(document.bytes());
    'records: while let Some(r) = records.next() {
        if t.is_full() {
            return Err(Refusal::NoRoom);
        }
        if r.kind.is_of(Block::Meta) {
            return Err(markdown_marks::meet_meta(&mut t, lay.style, r.place));
        }
        match r.kind {
            Kind::Unknown => {}
            Kind::Start(b) => {
                markdown_marks::met_term(&mut lay, records, b);
                markdown_marks::put_start(&mut t, &mut lay, b);
            }
            Kind::End(b) => markdown_marks::put_end(&mut t, &mut lay, b),
            Kind::Text(st) => {
                if lay.skip.enabled() {
                    continue 'records;
                }
                markdown_marks::change_to_markdown_style(&mut t, lay.style, st);
                lay.style = st;
                let mut chunks = splitter_iter::split(r.body);
                let tail = &document.bytes()[r.start..];
                // words and then a chunk at a time: by chunks alone it took 1.8 to 4 times as long
                'chunks: loop {
                    chunks.cursor.at = markdown_chunks::put_plain(&mut t, &chunks, tail, &lay);
                    let Some((piece, _)) = chunks.next() else {
                        break 'chunks;
                    };
                    if renderer::ends_body(piece, full) {
                        markdown_chunks::end_code(&mut t, &mut lay);
                        lay.skip.enable();
                        continue 'records;
                    }
                    markdown_chunks::put_chunk(&mut t, chunks.input, piece, &mut lay);
                }
                markdown_chunks::end_code(&mut t, &mut lay);
            }
        }
    }
    markdown_marks::change_to_markdown_style(&mut t, lay.style, Style::Text);
    renderer::finish(t)
}

// Refusals 1 to 8, and then the walk.
fn rendered(document: &[u8], full: bool, room: &mut [u8]) -> Result<usize, Refusal>
    ensures text { standing room.new result ≡ markdown (length room.old) full document.now }
    ensures inside { Inside (length room.old) result }
{
    let accepted = Accepted::of(document)?;
    walk(&accepted, full, room)
}

// A document as Markdown, and zeros after it. Each renderer has this line: one function for all would take the walk as a closure, and ask its promise
// by a `requires`.
pub fn render_markdown(document: &[u8], full: bool, room: &mut [u8]) -> Result<usize, Refusal>
    ensures answer { answered result ≡ measured (markdown (length room.old) full document.now) }
    ensures room { room.new ≡ filled (length room.old) (markdown (length room.old) full document.now) }
{
    renderer::cleared(rendered(document, full, room), room)
}
