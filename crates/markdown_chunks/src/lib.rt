// The chunks of Markdown (src/buffer/html.rs): lines in ticks and code lines, words, and words that go out as they stand. Functions of a text and of
// numbers and flags, as in `markdown_marks`, which says why.

#![tactic(auto)]

ghost use Rattle.std.specs.Prelude.{◌≡◌, false, length, take};
ghost use Rattle.room.specs.Lent.{text_of, with_bytes, wrote};
ghost use Rattle.splitter.specs.Answers.{chunk_of};
ghost use Rattle.splitter.specs.Split.{raw};
ghost use Rattle.html_rules.specs.Markdown.{code_ends, line_text, with_fenced, word_text};
ghost use Rattle.markdown_chunks.specs.InnerParts.{raw_rule, chunk_rule, fencing};
ghost use Rattle.markdown_chunks.specs.InnerAdvance.{Ahead, Moves};

use html_escape::Escape;
use html_rules::Markdown;
use room::Text;
use splitter::{CODE, Code, Cursor, Piece, TICKED_CODE};
use splitter_iter::Splitter;

// A line in ticks or a code line.
fn put_line(t: &mut Text, text: &[u8])
    ensures { text_of t.new ≡ with_bytes (line_text text.now) (text_of t.old) }
{
    t.put_all(b"  ");
    t.put_all(text);
    t.put(b'\n');
}

// A word.
fn put_word(t: &mut Text, text: &[u8], l: &Markdown)
    ensures { text_of t.new ≡ with_bytes (word_text l.now text.now) (text_of t.old) }
{
    if 0 < l.mono {
        html_escape::put_escaped(t, text, Escape::Mono);
    } else {
        t.put_all(text);
    }
}

// A text with its width. Before a code line code lines begin, where none are being written, and before a word they stop.
// The width says which of the three it is: the source's chunk has no other mark of a code line, and the rules read it so.
fn put_raw(t: &mut Text, text: &[u8], width: usize, l: &mut Markdown)
    ensures text { text_of t.new ≡ wrote (λ size. raw_rule size l.old text.now width) (text_of t.old) }
    ensures after { l.new ≡ fencing (raw text.now width) l.old }
{
    match width {
        TICKED_CODE => {
            html_marks::separate(t, b"\n");
            put_line(t, text);
        }
        CODE => {
            if !l.fenced {
                t.put_all(b"\n\n  ```text\n");
            }
            put_line(t, text);
            l.fenced = true;
        }
        _ => {
            if l.fenced {
                t.put_all(b"\n  ```\n");
            }
            put_word(t, text, l);
            l.fenced = false;
        }
    }
}

// A chunk that does not end the walk of its body. It has places and no text, since the C interface gives places (`next_chunk`).
pub fn put_chunk(t: &mut Text, body: &[u8], piece: Piece, l: &mut Markdown)
    ensures text { text_of t.new ≡ wrote (λ size. chunk_rule size l.old (chunk_of body.now piece)) (text_of t.old) }
    ensures after { l.new ≡ fencing (chunk_of body.now piece) l.old }
{
    match piece {
        Piece::Raw { width, .. } => put_raw(t, piece.text_of(body), width, l),
        Piece::Space(_) => put_raw(t, b" ", 1, l),
        Piece::Paragraph(_) => t.put_all(if l.listed { b"\n\n  " } else { b"\n\n" }),
        Piece::LineBreak(_) => t.put(b'\n'),
    }
}

// After the last chunk of a body: code lines end.
pub fn end_code(t: &mut Text, l: &mut Markdown)
    ensures text { text_of t.new ≡ with_bytes (code_ends l.old) (text_of t.old) }
    ensures after { l.new ≡ with_fenced false l.old }
{
    if l.fenced {
        t.put_all(b"  ```\n");
        l.fenced = false;
    }
}

// Whether words go out as they stand: outside ticks, Mono and code lines.
fn is_plain(l: &Markdown, code: Code) -> bool
    ensures { Ahead l.now code result }
{
    l.mono == 0 && !l.fenced && code == Code::No
}

// The words and spaces of the chunks that are left, where they go out as they stand, and where they end: the chunks that are left give from there
// what they gave before. `tail` is the document's bytes from the body's first on, so that the last bytes of the body go by a whole block too: the words are
// those of as many of these bytes as the body has.
pub fn put_plain(t: &mut Text, chunks: &Splitter, tail: &[u8], l: &Markdown) -> usize
    ensures { Moves l.now (take (length chunks.now.input.now) tail.now) chunks.now.cursor.code (text_of t.old) chunks.now.cursor.at (text_of t.new) result }
{
    let Cursor { at, code } = chunks.cursor;
    let end = chunks.input.len().min(tail.len());
    if end <= at || tail[at] == b'\n' || !is_plain(l, code) {
        return at;
    }
    at + words::put_run(t, &tail[at..], end - at, end - at).len
}
