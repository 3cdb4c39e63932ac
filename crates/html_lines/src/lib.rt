// Lines of HTML outside ticks (src/buffer/html.rs). The words and spaces of a line go out one after another, each byte of them escaped alone:
// together they are the line escaped, which is written in one pass, and in it runs of bytes that stand for themselves are copied.

#![tactic(auto)]

ghost use Rattle.std.specs.Prelude.{◌≡◌, ◌+◌, length, drop};
ghost use Rattle.room.specs.Lent.{text_of, with_bytes};
ghost use Rattle.splitter.specs.Split.{line};
ghost use Rattle.html_rules.specs.Html.{escaped};
ghost use Rattle.html_lines.specs.InnerLines.{plain_line};

use html_escape::Escape;
use room::Text;
use splitter::Code;
use splitter_iter::Splitter;

// A run of bytes that stand for themselves, if there is one: between two marks side by side there is none. Without the test HTML takes 1.03 to 1.07 of the
// time.
fn put_run(t: &mut Text, run: &[u8])
    ensures { text_of t.new ≡ with_bytes run.now (text_of t.old) }
{
    if !run.is_empty() {
        t.put_all(run);
    }
}

// The bytes of a body from a place up to the next line end, escaped; where in the body the line ends. The place goes on by a run and a byte at a time,
// which no `for` counts.
fn put_up_to_end(t: &mut Text, body: &[u8], at: usize, strict: bool) -> usize
    ensures text { text_of t.new ≡ with_bytes (escaped strict (line (drop at body.now))) (text_of t.old) }
    ensures place { result ≡ at + length (line (drop at body.now)) }
{
    let mut i = at;
    loop {
        let to = runs::run_end(body, i, b'\n', b'<', b'>', b'&');
        put_run(t, base::get(body, i, to));
        if body.len() <= to || body[to] == b'\n' {
            return to;
        }
        html_escape::put_escape(t, body[to], Escape::Html { strict });
        i = to + 1;
    }
}

// What is left of a line where the splitter stands outside ticks, and where it ends; in ticks nothing, since each line there is a chunk.
// `strict` and no Escape, as html_tags::put_chunk says.
pub fn put_line(t: &mut Text, chunks: &Splitter, strict: bool) -> usize
    ensures text { text_of t.new ≡ with_bytes (escaped strict (plain_line chunks.now.input.now chunks.now.cursor)) (text_of t.old) }
    ensures place { result ≡ chunks.now.cursor.at + length (plain_line chunks.now.input.now chunks.now.cursor) }
{
    match chunks.cursor.code {
        Code::No => put_up_to_end(t, chunks.input, chunks.cursor.at, strict),
        Code::First | Code::Rest => chunks.cursor.at,
    }
}
