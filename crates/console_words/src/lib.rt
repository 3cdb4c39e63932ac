// Words and spaces that follow on their line as they stand (src/buffer/console.rs): what the console does most, in one pass over their
// bytes, without the tests that only another chunk can pass.

#![tactic(auto)]

ghost use Rattle.std.specs.Prelude.{◌≡◌, length, take};
ghost use Rattle.console_rules.specs.Console.{with_column};
ghost use Rattle.console_chunks.specs.InnerShown.{text_in};
ghost use Rattle.console_words.specs.InnerAdvance.{LineAdvance, Some, Ahead, Moves};

use console_chunks::Page;
use console_rules::{Bytes, Columns, Settings};
use splitter::Code;
use splitter_iter::Splitter;

// Words and spaces as long as they fit on the line and into the room, run after run. A run has no more bytes than the line has columns left, so
// that none of its chunks folds, whichever the measure. Where its columns are as many as its bytes, no further run fits.
// `tail` as in `put_words`.
fn fill_line(page: &mut Page, chunks: &Splitter, tail: &[u8], set: Settings) -> usize
    requires { Some (text_in page.old) }
    ensures words { LineAdvance set (take (length chunks.now.input.now) tail.now) (text_in page.old) page.old.lay.column.0 chunks.now.cursor.at (text_in page.new) page.new.lay.column.0 result }
    ensures lay { page.new.lay ≡ with_column page.new.lay.column.0 page.old.lay }
{
    let end = chunks.input.len().min(tail.len());
    let mut at = chunks.cursor.at;
    // A loop by its place: how far a run goes is known only once it is copied. The free part is lent to `words::copy_run`: with `words::put_run`, which
    // tests at each run whether the text is full, the console takes 1 to 12 % longer.
    while at < end {
        let column = page.lay.column.0;
        if set.width <= column || tail[at] == b'\n' {
            break;
        }
        let len = page.len.0;
        let room = &mut *page.room;
        let run = words::copy_run(&mut room[len..], &tail[at..], end - at, set.width - column);
        page.len = Bytes(len + run.len);
        page.lay.column = Columns(column + run.width);
        at += run.len;
        if run.width == run.len {
            break;
        }
    }
    at
}

// Whether a word would follow on the line at once: something is written, nothing is due, no column is missing to the margin.
fn follows(page: &Page, margin: Columns, code: Code) -> bool
    ensures { Ahead page.now margin.0 code result }
{
    // Tried as one expression: the proof did not close by the search, which would take each of these facts out of a nested case.
    if page.is_empty() || page.is_full() || page.lay.newline || page.lay.blank || page.lay.gutter {
        return false;
    }
    code == Code::No && margin.0 <= page.lay.column.0
}

// Of the chunks that are left, the words and spaces that follow on the line; where they end. The chunks give from there what they gave before. It is
// left free how many of them are taken (none is one way), the room's bytes past the new length, and, where the text is longer than the room, every
// byte of the room and all of the page but how far its column and skip counter may move.
// `tail` is the document's bytes from the body's first on, so that the last bytes of the body go by a whole block too: the words are those of as many of
// these bytes as the body has.
pub fn put_words(
    page: &mut Page,
    margin: Columns,
    chunks: &Splitter,
    tail: &[u8],
    set: Settings,
) -> usize
    ensures { Moves set margin.0 (take (length chunks.now.input.now) tail.now) chunks.now.cursor.code page.old chunks.now.cursor.at page.new result }
{
    if !follows(&*page, margin, chunks.cursor.code) {
        return chunks.cursor.at;
    }
    fill_line(page, chunks, tail, set)
}
