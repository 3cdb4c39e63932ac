// How many characters of a text print: by blocks of 64 bytes where they are ASCII, else by characters.

#![tactic(auto)]

ghost use Rattle.std.specs.Prelude.{◌≡◌, ◌<◌, ◌≤◌, ◌+◌, false, length, drop, MatchOption};
ghost use Rattle.utf8.specs.Utf8.{utf8};
ghost use Rattle.white.specs.White.{printing_count};
ghost use Rattle.printing.specs.InnerParts.{ascii_prints, Went};

// A part at the head of a text that was counted: how many bytes it has, and how many of its characters print.
#[derive(Clone, Copy)]
struct Run {
    bytes: usize,
    prints: usize,
}

// Whether an ASCII byte prints: unless it is White_Space.
#[tactic(auto, using(white::proofs::WhiteBytes::one), unfolding(crate::specs::InnerParts::ascii_prints))]
fn ascii_prints(b: u8) -> bool
    ensures { result ≡ ascii_prints b }
{
    !white::is_ascii_white(b)
}

// The characters at the head of s until 64 bytes are passed or all. The loop goes by characters, of one byte to four, so that it is no `for` over the bytes.
// (No iterator of characters: it would be a type with a `next` to prove for two loops, this and `upper`'s, which both hand back the place where they stop.)
fn chars(s: &[u8]) -> Option<Run>
    requires { 0 < length s.now }
    ensures { MatchOption result (utf8 s.now ≡ false) (λ r. Went s.now r.bytes r.prints) }
{
    let e = s.len().min(64);
    let mut n: usize = 0;
    let mut i: usize = 0;
    while i < e {
        if s[i] < 0x80 {
            if ascii_prints(s[i]) {
                n += 1;
            }
            i += 1;
        } else {
            let (c, next) = utf8::decode(s, i)?;
            if !white::is_white(c) {
                n += 1;
            }
            i = next;
        }
    }
    Some(Run {
        bytes: i,
        prints: n,
    })
}

// The characters at the head of s, of 64 bytes or some more or of all, if characters stand there.
fn some(s: &[u8]) -> Option<Run>
    requires { 0 < length s.now }
    ensures { MatchOption result (utf8 s.now ≡ false) (λ r. Went s.now r.bytes r.prints) }
{
    if s.len() < 64 {
        return chars(s);
    }
    let block = &s[..64];
    if utf8::is_ascii(block) {
        let prints = usize::from(base::few(block, &ascii_prints));
        return Some(Run { bytes: 64, prints });
    }
    chars(s)
}

// How many characters of s print. The number is 0 where s is not UTF-8, and no None, since the rule `printing_count` says so. The loop goes by what `some`
// counts at once, which is 64 bytes of ASCII or some characters.
pub fn count(s: &[u8]) -> usize
    ensures { result ≡ printing_count s.now }
{
    let mut n: usize = 0;
    let mut rest = s;
    while !rest.is_empty() {
        let Some(run) = some(rest) else {
            return 0;
        };
        n += run.prints;
        rest = &rest[run.bytes..];
    }
    n
}
