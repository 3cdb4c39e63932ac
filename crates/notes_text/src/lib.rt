// The records of a text of the writers' notes: backticks pair, what stands between a pair is Literal, the rest Text.

#![tactic(auto)]

ghost use Rattle.std.specs.Prelude.{◌≡◌, ◌&&◌, ◌||◌, eqb};
ghost use Rattle.room.specs.Lent.{text_of, with_bytes};
ghost use Rattle.notes_rules.specs.Notes.{ticked, styled, style_of, text_records};
ghost use Rattle.notes_text.specs.InnerParts.{Tick, Free, Last, lead, Runs, KeepsLast, run_record};

use record_writer::{head_of, set_head};
use records::Style;
use room::Text;

// What is left of a text behind the bytes of one style, and whether a pair of backticks is open there.
#[derive(Clone, Copy)]
struct Run<'a> {
    rest: &'a [u8],
    within: bool,
}

// Whether a backtick stands in some bytes.
fn ticked(s: &[u8]) -> bool
    ensures { result ≡ ticked s.now }
{
    base::any(s, |b| b == b'`')
}

// How many bytes stand before the first backtick. Blocks of 64 without one are passed over whole, since 16 of their bytes are tested at a time
// (notes without a backtick take 0.8 to 0.97 of the time that two passes took, docs/DECISIONS.md).
fn next_tick(s: &[u8]) -> usize
    ensures { Tick s.now result }
{
    let (blocks, _) = s.as_chunks::<64>();
    let passed = blocks
        .iter()
        .position(|b| ticked(b))
        .unwrap_or(blocks.len());
    let from = passed * 64;
    let rest = &s[from..];
    from + rest.iter().position(|b| *b == b'`').unwrap_or(rest.len())
}

// Where the blocks of 64 end, counted from a text's end on, that hold no backtick: none stands from there on.
fn ticks_end(s: &[u8]) -> usize
    ensures { Free s.now result }
{
    let mut end = s.len();
    while let Some(block) = s[..end].last_chunk::<64>() {
        if ticked(block) {
            break;
        }
        end -= 64;
    }
    end
}

// How many bytes of a text stand behind its last backtick; all of them, where it has none. (That is tested first: few notes have one.)
fn after_last(s: &[u8]) -> usize
    ensures { Last s.now result }
{
    if !ticked(s) {
        return s.len();
    }
    let end = ticks_end(s);
    match s[..end].iter().rposition(|b| *b == b'`') {
        Some(i) => s.len() - i - 1,
        None => s.len(),
    }
}

// Whether a byte, behind which the rest of a text stands, is one of a pair of backticks: a pair is open, or another one follows, since the rest is longer
// than what stands behind the last one.
fn paired(byte: u8, rest: &[u8], within: bool, after: usize) -> bool
    requires { Last rest.now after }
    ensures { result ≡ (eqb byte 0x60 && (within || ticked rest.now)) }
{
    byte == b'`' && (within || after < rest.len())
}

// How many bytes stand before the first backtick: all, where no more are left than stand behind the last one.
fn run_length(s: &[u8], after: usize) -> usize
    requires { Last s.now after }
    ensures { Tick s.now result }
{
    if s.len() <= after {
        s.len()
    } else {
        next_tick(s)
    }
}

// What stands between a pair is Literal, the rest Text. (A pair is open or not, so a bool; the style is told of it here alone.)
fn style_of(literal: bool) -> Style
    ensures { result ≡ style_of literal }
{
    if literal { Style::Literal } else { Style::Text }
}

// The bytes of one style that stand first, and what follows them, where `after` bytes stand behind the last backtick. The loop goes from backtick to
// backtick, so that it is no `for` over the bytes.
fn put_run<'a>(t: &mut Text, s: &'a [u8], literal: bool, after: usize) -> Run<'a>
    requires { Last s.now after }
    ensures text { text_of t.new ≡ with_bytes (lead literal (styled literal s.now)) (text_of t.old) }
    ensures run { Runs s.now literal result }
    ensures last { KeepsLast s.now result.rest.now }
{
    let mut run = Run {
        rest: s,
        within: literal,
    };
    while let Some((first, rest)) = run.rest.split_first() {
        if paired(*first, rest, run.within, after) {
            run = Run {
                rest,
                within: !run.within,
            };
        } else {
            if run.within != literal {
                return run;
            }
            let n = run_length(rest, after) + 1;
            t.put_all(&run.rest[..n]);
            run.rest = &run.rest[n..];
        }
    }
    run
}

// Their record. Its head is written before its size is known, and set when it is. (No method of `Text`, for the reason at `joined::set_four`.)
fn put_record<'a>(t: &mut Text, s: &'a [u8], literal: bool, after: usize) -> Run<'a>
    requires { Last s.now after }
    ensures text { text_of t.new ≡ with_bytes (run_record literal (lead literal (styled literal s.now))) (text_of t.old) }
    ensures run { Runs s.now literal result }
    ensures last { KeepsLast s.now result.rest.now }
{
    let kind = style_of(literal).number();
    let start = t.len;
    t.put_all(&head_of(0, kind));
    let run = put_run(t, s, literal, after);
    if !t.is_full() {
        let room = &mut *t.room;
        set_head(room, start, t.len - start - 6, kind);
    }
    run
}

// The records of a part's text. The loop goes from run to run: where one ends is known when it is written.
pub fn put_text(t: &mut Text, s: &[u8])
    ensures { text_of t.new ≡ with_bytes (text_records s.now) (text_of t.old) }
{
    let after = after_last(s);
    let mut left = Run {
        rest: s,
        within: false,
    };
    while let Some((first, rest)) = left.rest.split_first() {
        if paired(*first, rest, left.within, after) {
            left = Run {
                rest,
                within: !left.within,
            };
        } else {
            left = put_record(t, left.rest, left.within, after);
        }
    }
}
