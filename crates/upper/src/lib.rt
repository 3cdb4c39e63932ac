// Upper case by the Unicode Character Database: the characters of a text, each looked up in a table (`str::to_uppercase`).
// Not std's `char::to_uppercase`: that is Unicode 18.0.0, and the rules have the table of 17.0.0.

#![tactic(auto)]

ghost use Rattle.std.specs.Prelude.{◌≡◌, ◌≤◌, ◌+◌, length};
ghost use Rattle.utf8.specs.Utf8.{encode, encode_all, character_at};
ghost use Rattle.upper.specs.Upper.{maps_to};
ghost use Rattle.upper.specs.InnerParts.{characters_of, Wrote, UppercasedAt};

mod table;

use table::TABLE;

// The characters that one maps to.
#[derive(Clone, Copy)]
pub enum Mapped {
    One(char),
    Two(char, char),
    Three(char, char, char),
}

// Some of a text in upper case, its first `len` bytes, and the place up to which it was read: no slice, since the bytes go with it (no heap, a rule of the
// project). No iterator of characters, which is as fast: `manpage` escapes bytes, and would have to encode each character first.
#[derive(Clone, Copy)]
pub struct Uppercased {
    pub bytes: [u8; 64],
    pub len: usize,
    pub next: usize,
}

// What a character maps to: its entry of the table, or itself. ASCII by itself, which needs no search.
fn maps_to(c: char) -> Mapped
    ensures { characters_of result ≡ maps_to c }
{
    if c.is_ascii() {
        return Mapped::One(c.to_ascii_uppercase());
    }
    match TABLE.binary_search_by_key(&c, |&(from, _)| from) {
        Ok(k) => TABLE[k].1,
        Err(_) => Mapped::One(c),
    }
}

// The bytes of a character go after the first `len` bytes of a buffer. (No `room::Text`: these bytes are free, and a full room would be an answer that never
// comes.) ASCII by itself: by `encode_utf8` and a copy a text of ASCII letters took 2.6 times as long. `c.is_ascii()` is asked first: by the byte's own
// `is_ascii` after `u8::try_from` such a text took 1.46 times as long.
fn put(out: &mut [u8], len: usize, c: char) -> usize
    requires { len + 4 ≤ length out.old }
    ensures { Wrote out.old out.new len 4 (encode c) result }
{
    if c.is_ascii()
        && let Ok(b) = u8::try_from(c)
    {
        out[len] = b;
        return len + 1;
    }
    let mut four: [u8; 4] = [0; 4];
    let bytes = c.encode_utf8(&mut four).as_bytes();
    base::copy_from_slice(out, len, bytes);
    len + bytes.len()
}

// The bytes of the characters that one maps to: at most three of at most four.
fn put_all(out: &mut [u8], len: usize, m: Mapped) -> usize
    requires { len + 12 ≤ length out.old }
    ensures { Wrote out.old out.new len 12 (encode_all (characters_of m)) result }
{
    match m {
        Mapped::One(a) => put(out, len, a),
        Mapped::Two(a, b) => {
            let n = put(out, len, a);
            put(out, n, b)
        }
        Mapped::Three(a, b, c) => {
            let n = put(out, len, a);
            let k = put(out, n, b);
            put(out, k, c)
        }
    }
}

// The character whose bytes stand at a place of a text, and the place after it.
fn read(text: &[u8], at: usize) -> Option<(char, usize)>
    ensures { result ≡ character_at text.now at }
{
    let (code, next) = utf8::decode(text, at)?;
    Some((char::from_u32(code)?, next))
}

// The text from a place on in upper case, as much of it as surely fits. It ends early only where no character stands. What stays free: how far one call
// comes, and the bytes past `len`. The loop goes by how full the buffer is, which no iterator says.
pub fn to_uppercase(text: &[u8], at: usize) -> Uppercased
    ensures size { result.len ≤ length result.bytes }
    ensures text { UppercasedAt text.now at result }
{
    let mut bytes: [u8; 64] = [0; 64];
    let mut len: usize = 0;
    let mut next = at;
    while len <= 52 {
        let Some((c, after)) = read(text, next) else {
            return Uppercased { bytes, len, next };
        };
        len = put_all(&mut bytes, len, maps_to(c));
        next = after;
    }
    Uppercased { bytes, len, next }
}
