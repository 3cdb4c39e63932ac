// Where a run of bytes ends that goes out as it stands: at the first of four bytes. Blocks of bytes are tested at a time, by loops of a fixed
// number of turns without a way out, which a compiler turns into one test of all.

#![tactic(auto)]

ghost use Rattle.std.specs.Prelude.{◌≡◌, ◌+◌, ◌≤◌, ℕ, Bool, leb, length, take, drop};
ghost use Rattle.base.specs.Choice.{when◌then◌else◌};
ghost use Rattle.base.specs.Tests.{AnswersAs};
ghost use Rattle.splitter.specs.Split.{before};
ghost use Rattle.std.specs.List.{list_any};
ghost use Rattle.runs.specs.InnerRuns.{among, Reached};

// Whether a byte is one of four. No test hangs on another, so that the compiler makes them for 16 bytes at a time. (Four bytes and no test as a parameter,
// here and below: with one, and with `as_chunks::<16>()` and `for` in the place of `whole_blocks`, HTML runs 1.5 % more instructions.)
fn is_among(x: u8, a: u8, b: u8, c: u8, d: u8) -> bool
    ensures { result ≡ among a b c d x }
{
    (x == a) | (x == b) | (x == c) | (x == d)
}

// Whether one of four bytes stands among the 16 at a place.
fn marked(s: &[u8], at: usize, a: u8, b: u8, c: u8, d: u8) -> bool
    requires { at + 16 ≤ length s.now }
    ensures { result ≡ list_any (among a b c d) (take 16 (drop at s.now)) }
{
    base::any(&s[at..at + 16], |x| is_among(x, a, b, c, d))
}

// How far on from a place there are whole blocks of 16 bytes that hold none of the four. (A text and a place, since `run_end` answers a place in
// the text; of the rest it would be a sum. No `as_chunks`, for the reason at `is_among`.)
fn whole_blocks(s: &[u8], at: usize, a: u8, b: u8, c: u8, d: u8) -> usize
    requires { at ≤ length s.now }
    ensures { Reached (among a b c d) s.now at result }
{
    let mut i = at;
    while 16 <= s.len() - i && !marked(s, i, a, b, c, d) {
        i += 16;
    }
    i
}

// Where the first of four bytes stands from a place on; the end of all where none does. The first byte is tested alone, since often it is
// one of them.
pub fn run_end(s: &[u8], at: usize, a: u8, b: u8, c: u8, d: u8) -> usize
    ensures { result ≡ at + length (before (among a b c d) (drop at s.now)) }
{
    if s.len() <= at {
        return at;
    }
    if is_among(s[at], a, b, c, d) {
        return at;
    }
    let i = whole_blocks(s, at, a, b, c, d);
    let rest = &s[i..];
    let found = rest.iter().position(|x| is_among(*x, a, b, c, d));
    i + found.unwrap_or(rest.len())
}

// How many of 32 bytes stand before the first that passes a test. No branch hangs on a byte, and the least place stays: by `position` roff runs 57 to 66 %
// more instructions.
pub fn first_in_block<F: Fn(u8) -> bool>(block: &[u8; 32], test: F) -> usize
    requires { F.IsAlwaysCallable test }
    ensures { (p : ℕ → Bool) → AnswersAs F.post test p → result ≡ length (before p block.now) }
{
    let mut k: u8 = 32;
    for j in 0..32 {
        let place = if test(block[usize::from(j)]) { j } else { 32 };
        k = k.min(place);
    }
    usize::from(k)
}

// Where the first of four bytes stands among the 32 at a place, 32 where none does; 0 where there are not 32.
pub fn first_of(s: &[u8], at: usize, a: u8, b: u8, c: u8, d: u8) -> usize
    ensures { result ≡ when leb (at + 32) (length s.now) then length (before (among a b c d) (take 32 (drop at s.now))) else 0 }
{
    let rest = base::get_from(s, at);
    match rest.first_chunk::<32>() {
        Some(block) => first_in_block(block, |x| is_among(x, a, b, c, d)),
        None => 0,
    }
}
