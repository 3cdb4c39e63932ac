// An answer beside the one that a list says, for the programs that compare.

#![tactic(auto)]

ghost use Rattle.std.specs.Prelude.{◌≡◌, ℕ, get_or};
ghost use Rattle.compared.specs.InnerCompared.{holds, holds_by, is_refusal, is_verdict, asked, is_rendered};

use refusal::Refusal;

// The byte at a place, or another one past the end.
pub fn byte_or(bytes: &[u8], at: usize, other: u8) -> u8
    ensures { result ≡ get_or bytes.now at other }
{
    bytes.get(at).copied().unwrap_or(other)
}

// Whether a room holds a text, and at each place past its end what `other` gives there.
pub fn holds_by<F: Fn(usize) -> u8>(room: &[u8], text: &[u8], other: F) -> bool
    requires { F.IsAlwaysCallable other }
    ensures { (byte : ℕ → ℕ) → ((i b : ℕ) → F.post other i b → b ≡ byte i) → result ≡ holds_by byte room.now text.now }
{
    text.len() <= room.len()
        && room
            .iter()
            .enumerate()
            .all(|(i, b)| *b == byte_or(text, i, other(i)))
}

// Whether a room holds a text and then zeros.
#[tactic(auto, unfolding(crate::specs::InnerCompared::holds))]
fn holds(room: &[u8], text: &[u8]) -> bool
    ensures { result ≡ holds room.now text.now }
{
    holds_by(room, text, |_| 0)
}

// A wanted refusal. (Numbers and no `Refusal`: a list may hold a number that no refusal has.)
#[derive(Clone, Copy)]
pub struct Refused {
    pub number: usize,
    pub place: usize,
}

// Whether a refusal is the wanted one.
#[tactic(auto, unfolding(crate::specs::InnerCompared::is_refusal))]
pub fn is_refusal(a: Refusal, wanted: Refused) -> bool
    ensures { result ≡ is_refusal a wanted }
{
    // `as`, since Rust has no From between the two
    a.number() as usize == wanted.number && a.place() == wanted.place
}

// Whether the check answers as wanted: a length, which is 0, or a refusal.
#[tactic(auto, unfolding(crate::specs::InnerCompared::is_verdict))]
pub fn is_verdict(checked: Result<(), Refusal>, wanted: Result<usize, Refused>) -> bool
    ensures { result ≡ is_verdict checked wanted }
{
    match (checked, wanted) {
        (Ok(()), Ok(n)) => n == 0,
        (Err(a), Err(w)) => is_refusal(a, w),
        _ => false,
    }
}

// Whether a renderer answers as wanted, a text or a refusal, and its room then holds that text, or nothing.
#[tactic(auto, unfolding(crate::specs::InnerCompared::is_rendered))]
pub fn is_rendered(
    rendered: Result<usize, Refusal>,
    room: &[u8],
    wanted: Result<&[u8], Refused>,
) -> bool
    ensures { result ≡ is_rendered rendered room.now (asked wanted.entry) }
{
    match (rendered, wanted) {
        (Ok(n), Ok(text)) => text.len() == n && holds(room, text),
        (Err(a), Err(w)) => is_refusal(a, w) && holds(room, b""),
        _ => false,
    }
}
