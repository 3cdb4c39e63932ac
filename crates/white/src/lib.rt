// White_Space: its characters, and the White_Space at the end of a text.

#![tactic(auto)]

ghost use Rattle.std.specs.Prelude.{◌≡◌, [], ◌∷◌, ◌<◌, ◌≤◌, ◌+◌, ◌-◌, length, take, MatchOption};
ghost use Rattle.white.specs.White.{white, trim};
ghost use Rattle.white.specs.InnerParts.{white_bytes, white_size};

// Whether a byte is a White_Space character by itself. (`u8::is_ascii_whitespace` is another set: it lacks 0x0B.)
#[tactic(auto, using(crate::proofs::WhiteBytes::one))]
pub fn is_ascii_white(c: u8) -> bool
    ensures { result ≡ white_bytes (c ∷ []) }
{
    matches!(c, 0x20 | 0x09..=0x0D)
}

// How many bytes the White_Space character at the end of s has, if one stands there.
#[tactic(auto, using(crate::proofs::AtEnd::ends, crate::proofs::Ends::size_1, crate::proofs::Ends::got1))]
fn white_size(s: &[u8]) -> Option<usize>
    ensures { MatchOption result (white_size s.now ≡ 0) (λ k. (1 ≤ k) × (k ≡ white_size s.now)) }
{
    match s {
        [.., c] if is_ascii_white(*c) => Some(1),
        [.., 0xC2, 0x85 | 0xA0] => Some(2),
        [.., 0xE2, 0x80, 0x80..=0x8A | 0xA8 | 0xA9 | 0xAF] => Some(3),
        [.., 0xE2, 0x81, 0x9F] | [.., 0xE1, 0x9A, 0x80] | [.., 0xE3, 0x80, 0x80] => Some(3),
        _ => None,
    }
}

// How many bytes of s are left without the White_Space at its end.
// No `str::trim_end`: s is any bytes, and a `str` would ask for a test of all of it at each trim.
pub fn trim_end(s: &[u8]) -> usize
    ensures { result ≡ length (trim s.now) }
{
    let mut text = s;
    while let Some(k) = white_size(text) {
        text = &text[..text.len() - k];
    }
    text.len()
}

// Whether c has the property White_Space. (A number and no `char`, for the reason at `utf8::decode`, so that `char::is_whitespace` does not serve.)
pub fn is_white(c: u32) -> bool
    ensures { result ≡ white c }
{
    // one `matches!` leaves the proof no name for what its two halves rule out
    match c {
        0x09..=0x0D | 0x20 | 0x85 | 0xA0 | 0x1680 | 0x2000..=0x200A => true,
        0x2028 | 0x2029 | 0x202F | 0x205F | 0x3000 => true,
        _ => false,
    }
}
