// Well-formed UTF-8: whether bytes are, its characters and their number.

#![tactic(auto)]

ghost use Rattle.std.specs.Prelude.{◌≡◌, ◌≢◌, ℕ, ◌/◌, Bool, true, false, not, [], ◌∷◌, ◌<◌, ◌≤◌, ◌+◌, ◌-◌, ◌*◌, ◌^◌, ◌&&◌, ◌||◌};
ghost use Rattle.std.specs.Prelude.{length, take, drop, map, reverse, eqb, ltb, replicate, suc, get_or, bit_and, MatchOption, MatchBool};
ghost use Rattle.base.specs.Choice.{when◌then◌else◌, among};
ghost use Rattle.utf8.specs.Utf8.{◌to◌, utf8, characters, continues, begins, size_of, row_of, character_at};
ghost use Rattle.utf8.specs.InnerNeighbours.{asks, low, high, beside, follows};
ghost use Rattle.utf8.specs.InnerParts.{is_ascii, sound_at, Ascii, AsciiPart, Tested, Plain, Classes, Lanes, Any};
ghost use Rattle.std.specs.List.{prefix_len};
ghost use Rattle.std.specs.Simd.Lanes.{mask_l};

use std::simd::prelude::*;

// Whether s begins with a byte from lo to hi, and with `more` bytes from 0x80 to 0xBF after it.
fn begins(s: &[u8], lo: u8, hi: u8, more: usize) -> bool
    ensures { result ≡ begins (lo to hi ∷ replicate more (0x80 to 0xBF)) s.now }
{
    let [b, rest @ ..] = s else {
        return false;
    };
    lo <= *b && *b <= hi && (more == 0 || begins(rest, 0x80, 0xBF, more - 1))
}

// The least and the largest byte that may go on with a character after p.
// Two numbers, since with a `RangeInclusive` and its `contains` the check of text that is not ASCII runs 7.0 % more instructions.
fn range_after(p: u8) -> (u8, u8)
    ensures { result ≡ (low p, high p) }
{
    match p {
        0xE0 => (0xA0, 0xBF),
        0xED => (0x80, 0x9F),
        0xF0 => (0x90, 0xBF),
        0xF4 => (0x80, 0x8F),
        _ => (0x80, 0xBF),
    }
}

// Whether a character of a and the bytes after it stands there, where a announces one byte and `more` after that.
fn follows(a: u8, rest: &[u8], more: usize) -> bool
    requires { (row_of a).after ≡ low a to high a ∷ replicate more (0x80 to 0xBF) }
    ensures { when result then suc (suc more) else 0 ≡ size_of (a ∷ rest.now) }
{
    let (lo, hi) = range_after(a);
    begins(rest, lo, hi, more)
}

// How many bytes the character at the head of s has, if one stands there.
fn size(s: &[u8]) -> Option<usize>
    ensures { MatchOption result (size_of s.now ≡ 0) (λ k. (1 ≤ k) × (k ≡ size_of s.now)) }
{
    let [a, rest @ ..] = s else {
        return None;
    };
    match *a {
        0x00..=0x7F => Some(1),
        0xC2..=0xDF if follows(*a, rest, 0) => Some(2),
        0xE0..=0xEF if follows(*a, rest, 1) => Some(3),
        0xF0..=0xF4 if follows(*a, rest, 2) => Some(4),
        _ => None,
    }
}

// Whether each of some bytes is ASCII, for blocks of 64 as `printing` has them: by std's `is_ascii`, which goes by 8, the console runs 0.5 % more
// instructions and took 3 to 4 % more time. (`past_ascii` alone takes std's, for texts that are tested by themselves.)
pub fn is_ascii(s: &[u8]) -> bool
    ensures { result ≡ is_ascii s.now }
{
    !base::any(s, |b| 0x80 <= b)
}

// `Ascii s.now _` stands in the contracts of this, `wide` and `valid_from`: with a struct of the text and the place, and this as its method, a check runs 0.1 to
// 0.2 % more instructions on pages of options, and 1.0 % more on text that is not ASCII.
// Goes on from a by blocks of w bytes while they are ASCII, and returns where it stands. A loop by hand, since over `as_chunks` with w as a const parameter
// the check of text that is not ASCII runs 2.9 % more instructions.
fn past_ascii(s: &[u8], a: usize, w: usize) -> usize
    requires { (1 ≤ w) × Ascii s.now a }
    ensures { Ascii s.now result }
{
    let mut i: usize = a;
    while w <= s.len() - i && s[i..i + w].is_ascii() {
        i += w;
    }
    i
}

// Whether s is well-formed, by characters. No `for`: each turn takes off the character that it meets, whose size is known only there.
fn chars(s: &[u8]) -> bool
    ensures { result ≡ utf8 s.now }
{
    let mut rest = s;
    while let Some(k) = size(rest) {
        rest = &rest[k..];
    }
    rest.is_empty()
}

// The functions from here to `blocks` are well-formedness by each byte and the three before it, r, q and p: the same few steps for every byte, taken for 16 bytes
// at a time.

// Whether one of the three starts a character that the next byte has to go on with.
fn asks(r: u8, q: u8, p: u8) -> bool
    ensures { result ≡ asks r q p }
{
    0xC0 <= p || 0xE0 <= q || 0xF0 <= r
}

// Whether b lies elsewhere than from lo to hi.
fn outside(b: u8, lo: u8, hi: u8) -> bool
    ensures { result ≡ not (among lo hi b) }
{
    b < lo || hi < b
}

// Whether b may not stand after p, where no character before p goes on after it.
fn fault_after(p: u8, b: u8) -> bool
    ensures { result ≡ not (follows p b) }
{
    if p < 0xC0 {
        return !starts_character(b);
    }
    let (lo, hi) = range_after(p);
    outside(p, 0xC2, 0xF4) || outside(b, lo, hi)
}

// Whether c may not stand after b, where a stands before that and nothing before it.
fn third_fault(a: u8, b: u8, c: u8) -> bool
    ensures { result ≡ not (beside 0 a b c) }
{
    if 0xE0 <= a {
        return starts_character(b) || starts_character(c);
    }
    fault_after(b, c)
}

// Keiser and Lemire's three tables: a bit for each way in which a byte may not follow the one before it, that is left where all three have it. The first two
// are by the halves of the byte before, the third is by the upper half of the byte.
//   1  a character ends too early      2  a byte goes on where no character is open      4  three bytes for a code point below 0x800
//   8  past 0x10FFFF, or no first byte      16  a surrogate      32  two bytes for a code point below 0x80
//   64  four bytes for a code point below 0x10000, or no first byte      128  both go on with a character, which may be so where one is under way
const FIRST_HIGH: [u8; 16] = [2, 2, 2, 2, 2, 2, 2, 2, 128, 128, 128, 128, 33, 1, 21, 73];

const FIRST_LOW: [u8; 16] = [
    231, 163, 131, 131, 139, 203, 203, 203, 203, 203, 203, 203, 203, 219, 203, 203,
];

const SECOND_HIGH: [u8; 16] = [1, 1, 1, 1, 1, 1, 1, 1, 230, 174, 186, 186, 1, 1, 1, 1];

// The upper half of each byte.
fn high_halves(v: u8x16) -> u8x16
    ensures { result ≡ map (λ x. x / 16) v }
{
    v >> u8x16::splat(4)
}

// The lower half of each byte.
fn low_halves(v: u8x16) -> u8x16
    ensures { result ≡ map (λ x. bit_and x 15) v }
{
    v & u8x16::splat(15)
}

// The places of a table that some halves name.
fn look_up(table: [u8; 16], halves: u8x16) -> u8x16
    requires { (k : ℕ) → k < 16 → get_or halves k 0 < 16 }
    ensures { result ≡ map (λ x. get_or table x 0) halves }
{
    u8x16::from_array(table).swizzle_dyn(halves)
}

// What each byte of b is after the byte of p at its place.
fn classes(p: u8x16, b: u8x16) -> u8x16
    ensures { Classes p b result }
{
    look_up(FIRST_HIGH, high_halves(p))
        & look_up(FIRST_LOW, low_halves(p))
        & look_up(SECOND_HIGH, high_halves(b))
}

// 128 and more where a byte is not less than another.
fn from_on(v: u8x16, least: u8) -> u8x16
    requires { (128 ≤ least) }
    ensures { result ≡ map (λ x. x - (least - 128)) v }
{
    v.saturating_sub(u8x16::splat(least - 128))
}

// Of 16 bytes, 0 where a byte may stand after the three before it.
fn faults(s: &[u8], at: usize) -> u8x16
    requires { (3 ≤ at) × (at + 16 ≤ length s.now) }
    ensures { Lanes s.now at result }
{
    let b = u8x16::from_slice(&s[at..]);
    let p = u8x16::from_slice(&s[at - 1..]);
    let q = u8x16::from_slice(&s[at - 2..]);
    let r = u8x16::from_slice(&s[at - 3..]);
    let under_way = (from_on(q, 0xE0) | from_on(r, 0xF0)) & u8x16::splat(128);
    under_way ^ classes(p, b)
}

// Whether some lane is not 0.
fn any(v: u8x16) -> bool
    ensures { Any v result }
{
    v.simd_ne(u8x16::splat(0)).to_bitmask() != 0
}

// Whether one of 32 bytes may not stand after the three before it.
fn faulty(s: &[u8], at: usize) -> bool
    requires { (3 ≤ at) × (at + 32 ≤ length s.now) }
    ensures { Tested s.now at (at + 32) result }
{
    any(faults(s, at) | faults(s, at + 16))
}

// Whether a character is open before n.
fn cut_off(s: &[u8], n: usize) -> bool
    requires { (3 ≤ n) × (n ≤ length s.now) }
    ensures { result ≡ asks (get_or s.now (n - 3) 0) (get_or s.now (n - 2) 0) (get_or s.now (n - 1) 0) }
{
    asks(s[n - 3], s[n - 2], s[n - 1])
}

// Whether all lanes of two vectors are ASCII.
fn both_ascii(a: u8x16, b: u8x16) -> bool
    ensures { result ≡ true → (k : ℕ) → k < 16 → (get_or a k 0 < 0x80) × (get_or b k 0 < 0x80) }
{
    (a | b).simd_ge(u8x16::splat(0x80)).to_bitmask() == 0
}

// Whether 32 bytes from a place on are ASCII. By vectors, as `block_ascii` below: with std's `is_ascii` the check of text that is not ASCII runs 25 % more
// instructions.
fn pair_ascii(s: &[u8], a: usize) -> bool
    requires { a + 32 ≤ length s.now }
    ensures { result ≡ true → AsciiPart s.now a (a + 32) }
{
    both_ascii(u8x16::from_slice(&s[a..]), u8x16::from_slice(&s[a + 16..]))
}

// Whether 32 bytes of ASCII stand from a on, with no character open before them.
fn plain(s: &[u8], a: usize) -> bool
    requires { (3 ≤ a) × (a + 32 ≤ length s.now) }
    ensures { Plain s.now a result }
{
    pair_ascii(s, a) && !cut_off(s, a)
}

// 16 bytes from a place below 16 on end with as many that are 255 as the place says, after zeros.
const LAST: [u8; 32] = [
    0, 0, 0, 0, 0, 0, 0, 0, 0, 0, 0, 0, 0, 0, 0, 0, 255, 255, 255, 255, 255, 255, 255, 255, 255,
    255, 255, 255, 255, 255, 255, 255,
];

// The last n lanes of 16, after zeros.
fn last_lanes(v: u8x16, n: usize) -> u8x16
    requires { n < 16 }
    ensures { (k : ℕ) → k < 16 → get_or result k 0 ≡ when ltb (n + k) 16 then 0 else get_or v k 0 }
{
    let all: &[u8] = &LAST;
    v & u8x16::from_slice(&all[n..])
}

// Whether one of the last n bytes, fewer than 16, may not stand after the three before it: by the 16 that s ends with, of which the others do not count.
fn last_faulty(s: &[u8], n: usize) -> bool
    requires { (n < 16) × (19 ≤ length s.now) }
    ensures { Tested s.now (length s.now - n) (length s.now) result }
{
    any(last_lanes(faults(s, s.len() - 16), n))
}

// Whether the bytes from a place on stand after those before them, and the last leave no character open: by blocks of 32 bytes, then of 16, so that the loop
// steps by hand.
#[inline(never)]
fn blocks(s: &[u8], from: usize) -> bool
    requires { (3 ≤ from) × (from ≤ length s.now) × (19 ≤ length s.now) }
    ensures { result ≡ sound_at s.now from }
{
    let n = s.len();
    let mut i = from;
    while 32 <= n - i {
        if !plain(s, i) && faulty(s, i) {
            return false;
        }
        i += 32;
    }
    if 16 <= n - i {
        if any(faults(s, i)) {
            return false;
        }
        i += 16;
    }
    !last_faulty(s, n - i) && !cut_off(s, n)
}

// Whether each of the first three bytes may stand after those before it: the tests of blocks look back on three.
fn begins_well(s: &[u8]) -> bool
    requires { 3 ≤ length s.now }
    ensures { utf8 s.now ≡ (result && sound_at s.now 3) }
{
    !fault_after(0, s[0]) && !fault_after(s[0], s[1]) && !third_fault(s[0], s[1], s[2])
}

// Whether s, of which all before `from` is ASCII, is well-formed.
fn wide(s: &[u8], from: usize) -> bool
    requires { (35 ≤ length s.now) × Ascii s.now from }
    ensures { result ≡ utf8 s.now }
{
    if 3 <= from {
        return blocks(s, from);
    }
    begins_well(s) && blocks(s, 3)
}

// Whether s, of which all before `from` is ASCII, is well-formed. `valid` calls it twice, so that the compiler puts `valid` into its callers and not this
// into `valid`: most texts are short and ASCII. (Where `valid` was this one call, the check of a page of options, which went by `valid` then, ran 17.5 % more
// instructions.)
fn valid_from(s: &[u8], from: usize) -> bool
    requires { Ascii s.now from }
    ensures { result ≡ utf8 s.now }
{
    if s.len() < 35 {
        return chars(&s[from..]);
    }
    let i = past_ascii(s, past_ascii(s, past_ascii(s, from, 64), 8), 1);
    if i == s.len() {
        return true;
    }
    wide(s, i)
}

// Whether s is well-formed UTF-8. Not std's `from_utf8`, which goes by characters: with it the check of text that is not ASCII runs 83 % more instructions.
pub fn valid(s: &[u8]) -> bool
    ensures { result ≡ utf8 s.now }
{
    if 64 <= s.len() {
        return valid_from(s, 0);
    }
    let i = past_ascii(s, past_ascii(s, 0, 8), 1);
    if i == s.len() {
        return true;
    }
    valid_from(s, i)
}

// Whether all lanes of a vector are ASCII.
fn all_ascii(v: u8x16) -> bool
    ensures { result ≡ true → (k : ℕ) → k < 16 → get_or v k 0 < 0x80 }
{
    v.simd_ge(u8x16::splat(0x80)).to_bitmask() == 0
}

// Whether 16 bytes from a place on are ASCII. Not by std's `is_ascii`, which stores where the bytes are, for a function that it may have to call: with it, by
// eight bytes, the check of a page of options runs 16 % more instructions.
fn block_ascii(s: &[u8], a: usize) -> bool
    requires { a + 16 ≤ length s.now }
    ensures { result ≡ true → AsciiPart s.now a (a + 16) }
{
    all_ascii(u8x16::from_slice(&s[a..]))
}

// Goes on from a place by blocks of 16 while they are ASCII and more than 16 bytes are left, and returns where it stands.
fn past_blocks(s: &[u8], from: usize) -> usize
    requires { from ≤ length s.now }
    ensures { (result ≤ length s.now) × AsciiPart s.now from result }
{
    let mut i = from;
    while 16 < s.len() - i && block_ascii(s, i) {
        i += 16;
    }
    i
}

// The same by 32 bytes at a time, as long as there are so many.
fn past_pairs(s: &[u8], from: usize) -> usize
    requires { from ≤ length s.now }
    ensures { (from ≤ result) × (result ≤ length s.now) × AsciiPart s.now from result }
{
    let mut i = from;
    while 32 <= s.len() - i && pair_ascii(s, i) {
        i += 32;
    }
    i
}

// Whether the last n bytes of s are found to be ASCII by blocks of 16, the last of which may begin before them, so that no loop over single bytes is
// needed. False tells nothing: s may have fewer than 16 bytes or fewer than n, a byte before the n may not be ASCII, or the n may be 64 or more.
fn quickly_ascii(s: &[u8], n: usize) -> bool
    ensures { result ≡ true → Ascii (drop (length s.now - n) s.now) n }
{
    let end = s.len();
    if end < 16 {
        return false;
    }
    // a call of its own: with one for both lengths the check of a page of options runs 1.5 % more instructions
    if n <= 16 {
        return block_ascii(s, end - 16);
    }
    n < 64 && n <= end && end - past_blocks(s, end - n) <= 16 && block_ascii(s, end - 16)
}

// Whether the last n bytes of s, or all where it has fewer, are well-formed, as `valid` answers for those bytes alone. The bytes before them serve the test of
// short texts: by `valid` the check of a page of options takes 1.1 to 1.5 of the time. A number of bytes and no place: with a place, from which the length is
// to be told again, the check of a page of options runs 8 % more instructions.
pub fn valid_last(s: &[u8], n: usize) -> bool
    ensures { result ≡ utf8 (drop (length s.now - n) s.now) }
{
    if quickly_ascii(s, n) {
        return true;
    }
    let from = s.len().saturating_sub(n);
    if from < 3 || s.len() < 19 || cut_off(s, from) {
        return valid_from(&s[from..], 0);
    }
    blocks(s, past_pairs(s, from))
}

// Whether a byte starts a character: it is none of 0x80 to 0xBF.
pub fn starts_character(b: u8) -> bool
    ensures { result ≡ not (continues b) }
{
    b >> 6 != 2
}

// How many bytes of s start a character. No `filter(..).count()`: `base::count` lets the compiler count 16 bytes at a time, in 1.0 to 1.6 of 22 to 29 µs.
pub fn count(s: &[u8]) -> usize
    ensures { result ≡ characters s.now }
{
    base::count(s, starts_character)
}

// The bits of the lanes that are one of two bytes.
fn places_of(v: u8x16, a: u8, b: u8) -> u64
    ensures { result ≡ mask_l (map (λ x. eqb x a || eqb x b) v) }
{
    (v.simd_eq(u8x16::splat(a)) | v.simd_eq(u8x16::splat(b))).to_bitmask()
}

// The bits of the lanes that start a character.
fn starts_of(v: u8x16) -> u64
    ensures { result ≡ mask_l (map (λ x. not (continues x)) v) }
{
    (v & u8x16::splat(0xC0))
        .simd_ne(u8x16::splat(0x80))
        .to_bitmask()
}

// How many bytes stand at the front of a block, and how many of them start a character.
#[derive(Clone, Copy)]
pub struct Part {
    pub len: usize,
    pub width: usize,
}

// The first of some lanes up to one of two bytes, at most `most`. No loop and no branch hangs on a byte.
fn front_of(v: u8x16, a: u8, b: u8, most: usize) -> Part
    ensures len { result.len ≡ prefix_len (λ x. not (eqb x a || eqb x b)) (take most v) }
    ensures width { result.width ≡ characters (take result.len v) }
{
    let found = places_of(v, a, b);
    let first = if found == 0 {
        16
    } else {
        found.trailing_zeros() as usize
    };
    let len = first.min(most);
    let width = (starts_of(v) % (1 << len as u32)).count_ones() as usize;
    Part { len, width }
}

// The first of 16 bytes up to one of two bytes, at most `most`.
pub fn front(block: &[u8; 16], a: u8, b: u8, most: usize) -> Part
    ensures len { result.len ≡ prefix_len (λ x. not (eqb x a || eqb x b)) (take most block.now) }
    ensures width { result.width ≡ characters (take result.len block.now) }
{
    front_of(u8x16::from_array(*block), a, b, most)
}

// The last of 16 bytes from the end back to a byte, which is none of them.
pub fn back(block: &[u8; 16], a: u8) -> Part
    ensures len { result.len ≡ prefix_len (λ x. not (eqb x a || eqb x a)) (reverse block.now) }
    ensures width { result.width ≡ characters (take result.len (reverse block.now)) }
{
    front_of(u8x16::from_array(*block).reverse(), a, a, 16)
}

// How many of the first n of 16 bytes start a character.
pub fn count_front(block: &[u8; 16], n: usize) -> usize
    ensures { result ≡ characters (take n block.now) }
{
    let k = n.min(16);
    let starts = starts_of(u8x16::from_array(*block));
    (starts % (1 << k as u32)).count_ones() as usize
}

// How many of n bytes from a place on start a character: of a few by the block that begins there, if s goes on as far.
pub fn count_from(s: &[u8], from: usize, n: usize) -> usize
    ensures { result ≡ characters (take n (drop from s.now)) }
{
    let text = base::get_from(s, from);
    if n <= 16 {
        if let Some(block) = text.first_chunk::<16>() {
            return count_front(block, n);
        }
    }
    count(&text[..n.min(text.len())])
}

// A code point so far, with the payload of a byte more.
fn with(c: u32, b: u8) -> u32
    requires { (c < 2 ^ 21) × (0x80 ≤ b) }
    ensures { result ≡ c * 64 + (b - 0x80) }
{
    c * 64 + (u32::from(b) - 0x80)
}

// The character whose bytes stand at `at`. By `size` and a `fold` of `with` the check of text that is not ASCII runs 8.0 % more instructions, since the
// compiler then no longer puts `size` into `chars`. (A number and no `char`: the rules and `white::is_white` speak of numbers; `upper` alone asks for more.)
pub fn decode(s: &[u8], at: usize) -> Option<(u32, usize)>
    ensures { result ≡ character_at s.now at }
{
    if s.len() <= at {
        return None;
    }
    let a = s[at];
    let rest = &s[at + 1..];
    match a {
        0x00..=0x7F => Some((u32::from(a), at + 1)),
        0xC2..=0xDF if follows(a, rest, 0) => {
            Some((with(u32::from(a - 0xC0), s[at + 1]), at + 2))
        }
        0xE0..=0xEF if follows(a, rest, 1) => {
            let c = with(u32::from(a - 0xE0), s[at + 1]);
            Some((with(c, s[at + 2]), at + 3))
        }
        0xF0..=0xF4 if follows(a, rest, 2) => {
            let c = with(with(u32::from(a - 0xF0), s[at + 1]), s[at + 2]);
            Some((with(c, s[at + 3]), at + 4))
        }
        _ => None,
    }
}
