// What all rules, proofs and crates share: parts of bytes, cut where the bytes end.

#![tactic(auto)]

ghost use Rattle.std.specs.Prelude.{◌≡◌, ◌≤◌, ℕ, Bool, length, take, drop};
ghost use Rattle.std.specs.List.{list_any, count_by};
ghost use Rattle.base.specs.Tests.{AnswersAs};
ghost use Rattle.base.specs.Bytes.{part, starts_with, overwritten};

// The bytes from a place on, as far as there are any: `get` of a range without an end.
pub fn get_from<'a>(s: &'a [u8], from: usize) -> &'a [u8]
    ensures { result.now ≡ drop from s.now }
{
    s.get(from..).unwrap_or_default()
}

// The bytes from a place up to another, as far as there are any: `get` of a range.
// Branches, since by `min` of the two ends HTML runs 3.8 % more instructions and Markdown 4.2 %.
pub fn get<'a>(s: &'a [u8], from: usize, to: usize) -> &'a [u8]
    ensures { result.now ≡ part s.now from to }
{
    if to <= from {
        &s[..0]
    } else if s.len() <= to {
        get_from(s, from)
    } else {
        &s[from..to]
    }
}

// `copy_from_slice` into a room from `at` on; a room that does not hold the bytes there stays as it was. Most are a few bytes, for which the library's
// `copy_from_slice` costs more than this loop: with it Markdown took a third more time. By `iter_mut().zip(bytes)` HTML runs 1.8 to 2.9 % more instructions.
pub fn copy_from_slice(room: &mut [u8], at: usize, bytes: &[u8])
    ensures { room.new ≡ overwritten room.old at bytes.now }
{
    if at <= room.len() && bytes.len() <= room.len() - at {
        for i in 0..bytes.len() {
            room[at + i] = bytes[i];
        }
    }
}

// Whether the bytes from `at` on start with some others. Most are a few bytes, for which the library's `starts_with` costs more than these tests where the
// place is known only there: with it the console takes 1.03 to 1.06 of the time.
pub fn starts_with(s: &[u8], at: usize, prefix: &[u8]) -> bool
    ensures { result ≡ starts_with prefix.now (drop at s.now) }
{
    let rest = get_from(s, at);
    prefix.len() <= rest.len() && prefix.iter().zip(rest).all(|(a, b)| *a == *b)
}

// Whether one of some bytes passes a test. Each is tested, so that the compiler makes it a test of 16 at a time: by `iter().any(..)` HTML and Markdown run
// 7 % more instructions on a page of options, and the console 5 %.
// (That a test may be called stands in each contract that takes one, also in `runs` and `utf8`: a type around it would be made anew at each call.)
pub fn any<F: Fn(u8) -> bool>(s: &[u8], test: F) -> bool
    requires { F.IsAlwaysCallable test }
    ensures { (p : ℕ → Bool) → AnswersAs F.post test p → result ≡ list_any p s.now }
{
    let mut found = false;
    for b in s {
        found |= test(*b);
    }
    found
}

// How many of the first 255 bytes pass a test, a number that a byte holds: a loop for `filter(..).count()`, for the reason at `count`.
pub fn few<F: Fn(u8) -> bool>(s: &[u8], test: &F) -> u8
    requires { F.IsAlwaysCallable test.now }
    ensures most { result ≤ length s.now }
    ensures number { (p : ℕ → Bool) → AnswersAs F.post test.now p → result ≡ count_by p (take 255 s.now) }
{
    let first = get(s, 0, 255);
    let mut n: u8 = 0;
    for b in first {
        if test(*b) {
            n += 1;
        }
    }
    n
}

// How many bytes pass a test: by blocks of 128, whose number a byte holds, so that the compiler counts 16 at a time. `filter(..).count()` counts into 64
// bits, of which it takes 2 at a time: 22 to 29 µs for 60 KB, where this takes 1.0 to 1.6.
pub fn count<F: Fn(u8) -> bool>(s: &[u8], test: F) -> usize
    requires { F.IsAlwaysCallable test }
    ensures { (p : ℕ → Bool) → AnswersAs F.post test p → result ≡ count_by p s.now }
{
    let (blocks, rest) = s.as_chunks::<128>();
    let mut n = usize::from(few(rest, &test));
    for block in blocks {
        n += usize::from(few(block, &test));
    }
    n
}
