// Escape bytes by roff's rules, into a lent room (src/buffer/manpage/escape.rs).
ghost use Rattle.std.specs.Prelude.{◌≡◌, [], ◌∷◌, not, ◌&&◌, ◌+◌, ◌≤◌, min, length, take};
ghost use Rattle.base.specs.Bytes.{part};
ghost use Rattle.room.specs.Lent.{text_of, with_bytes};
ghost use Rattle.splitter.specs.Split.{before};
ghost use Rattle.roff_escape.specs.Escape.{guard, backslash, replaced, special_byte, spaces_byte, escape_byte, starts_line};
ghost use Rattle.roff_escape.specs.InnerParts.{text_mode, plain, Copies, roff_of, with_escaped};

use crate::roff::Roff;
use room::Text;

// Escaping rules.
#[derive(Clone, Copy, PartialEq, Eq)]
pub enum Escape {
    // a line end first, unless a line starts here already
    UnescapedAtNewline,
    // spaces and line ends escaped: arguments of control lines
    Spaces,
    // bytes that roff considers special escaped
    Special,
    // as Special, and a line end becomes a space
    SpecialNoNewline,
    // as it is
    Unescaped,
}

// How many bytes of text are copied at a time.
const BLOCK: usize = 32;

impl Escape {
    // Whether the byte after this one counts as the first of a line.
    pub fn starts_line(self, c: u8) -> bool
        ensures { result ≡ starts_line self c }
    {
        match self {
            Escape::SpecialNoNewline => false,
            _ => c == b'\n',
        }
    }
}

// A full stop and an apostrophe are guarded at the start of a line.
fn put_guard(t: &mut Text, start: bool, c: u8)
    ensures { text_of t.new ≡ with_bytes (guard start c) (text_of t.old) }
{
    if !start {
        return;
    }
    match c {
        b'.' | b'\'' => t.put_all(b"\\&"),
        _ => {}
    }
}

fn put_backslash(t: &mut Text, c: u8)
    ensures { text_of t.new ≡ with_bytes (backslash c) (text_of t.old) }
{
    match c {
        b'\\' | b'-' => t.put(b'\\'),
        _ => {}
    }
}

// An apostrophe becomes APOSTROPHE, and a line end the byte given for it.
fn put_replaced(t: &mut Text, ends: u8, c: u8)
    ensures { text_of t.new ≡ with_bytes (replaced ends c) (text_of t.old) }
{
    match c {
        b'\'' => t.put_all(b"\\*(Aq"),
        b'\n' => t.put(ends),
        _ => t.put(c),
    }
}

// A byte of text.
fn put_special(t: &mut Text, ends: u8, start: bool, c: u8)
    ensures { text_of t.new ≡ with_bytes (special_byte ends start c) (text_of t.old) }
{
    put_guard(t, start, c);
    put_backslash(t, c);
    put_replaced(t, ends, c);
}

// A byte of a control line's argument.
fn put_space(t: &mut Text, c: u8)
    ensures { text_of t.new ≡ with_bytes (spaces_byte c) (text_of t.old) }
{
    match c {
        b' ' | b'\n' => t.put_all(b"\\ "),
        _ => t.put(c),
    }
}

// A byte in a mode.
fn put_byte(t: &mut Text, mode: Escape, start: bool, c: u8)
    ensures { text_of t.new ≡ with_bytes (escape_byte mode start c) (text_of t.old) }
{
    match mode {
        Escape::UnescapedAtNewline => t.put(c),
        Escape::Spaces => put_space(t, c),
        Escape::Special => put_special(t, b'\n', start, c),
        Escape::SpecialNoNewline => put_special(t, b' ', start, c),
        Escape::Unescaped => t.put(c),
    }
}

impl<'a, 'b> Roff<'a, 'b> {
    // A byte in a mode.
    pub fn put_byte(&mut self, mode: Escape, c: u8)
        ensures { roff_of self.new ≡ with_escaped mode (c ∷ []) (roff_of self.old) }
    {
        let text = &mut *self.text;
        put_byte(text, mode, self.fresh, c);
        self.fresh = mode.starts_line(c);
    }

    // 'for &c in payload.as_bytes()': some bytes in a mode.
    pub fn escape_bytes(&mut self, mode: Escape, bytes: &[u8])
        ensures { roff_of self.new ≡ with_escaped mode bytes.now (roff_of self.old) }
    {
        for &c in bytes {
            self.put_byte(mode, c);
        }
    }
}

// A byte that text leaves as it is, save at the start of a line. No test hangs on another, so that the compiler makes them for 16 bytes at a time.
fn is_plain(c: u8) -> bool
    ensures { result ≡ plain c }
{
    !((c == b'\n') | (c == b'\'') | (c == b'-') | (c == b'\\'))
}

// Whether a byte of text stays as it is: a plain one, not at the start of a line.
fn plain_here(fresh: bool, c: u8) -> bool
    ensures { result ≡ (not fresh && plain c) }
{
    !fresh && is_plain(c)
}

// Copies a block, of which those before the first that is not plain are taken, and at most so many; says how many. A local block stands between,
// since the compiler cannot tell that the two places do not overlap: without it roff takes 1.30 to 1.50 of the time. What stands in the room past the
// text is free.
fn copy_block(t: &mut Text, bytes: &[u8; BLOCK], most: usize) -> usize
    requires { t.old.len + 32 ≤ length t.old.room.now }
    ensures plain { result ≡ min most (length (before (λ c. not (plain c)) bytes.now)) }
    ensures text { text_of t.new ≡ with_bytes (take result bytes.now) (text_of t.old) }
{
    let block = *bytes;
    let room = &mut *t.room;
    base::copy_from_slice(room, t.len, &block);
    let k = most.min(runs::first_in_block(&block, |c| !is_plain(c)));
    t.len += k;
    k
}

// Copies the plain bytes that some begin with; says how many.
fn copy_bytes(t: &mut Text, bytes: &[u8]) -> usize
    ensures plain { result ≡ length (before (λ c. not (plain c)) bytes.now) }
    ensures text { text_of t.new ≡ with_bytes (take result bytes.now) (text_of t.old) }
{
    let found = bytes.iter().position(|c| !is_plain(*c));
    let k = found.unwrap_or(bytes.len());
    t.put_all(&bytes[..k]);
    k
}

// Copies the plain bytes from a place up to another; says where it stopped. Whole blocks are copied, also where the run ends within one, and past `stop`.
// No `for` over the blocks of a record's body, with its last bytes one by one: pages of options took 1.3 of the time. So the text comes with what follows
// it, here and below.
fn copy_plain(t: &mut Text, bytes: &[u8], at: usize, stop: usize) -> usize
    requires { stop ≤ length bytes.now }
    ensures { Copies (take stop bytes.now) at (text_of t.old) (text_of t.new) result }
{
    let mut i = at;
    while i < stop {
        // no `saturating_sub`, with which the copy tests the room again: pages of options took up to 1.06 of the time
        if t.room.len() < t.len || t.room.len() - t.len < BLOCK {
            return i + copy_bytes(t, &bytes[i..stop]);
        }
        let Some(block) = bytes[i..].first_chunk::<BLOCK>() else {
            return i + copy_bytes(t, &bytes[i..stop]);
        };
        let k = copy_block(t, block, stop - i);
        i += k;
        if k < BLOCK {
            return i;
        }
    }
    i
}

// A byte of text, where line ends are stripped or not. Most that are not plain are hyphens. Not by `put_byte` in the mode of text, with which pages of
// options took 1.04 of the time.
fn put_text_byte(t: &mut Text, strip: bool, start: bool, c: u8)
    ensures { text_of t.new ≡ with_bytes (escape_byte (text_mode strip) start c) (text_of t.old) }
{
    if c == b'-' {
        t.put_all(b"\\-");
        return;
    }
    // the other two that are escaped within a line, each in one write
    if c == b'\\' {
        t.put_all(b"\\\\");
        return;
    }
    if !start && c == b'\'' {
        t.put_all(b"\\*(Aq");
        return;
    }
    let ends = if strip { b' ' } else { b'\n' };
    put_special(t, ends, start, c);
}

impl<'a, 'b> Roff<'a, 'b> {
    // A byte of text.
    fn put_text_byte(&mut self, c: u8)
        ensures { roff_of self.new ≡ with_escaped (text_mode self.old.strip) (c ∷ []) (roff_of self.old) }
    {
        let text = &mut *self.text;
        put_text_byte(text, self.strip, self.fresh, c);
        self.fresh = !self.strip && c == b'\n';
    }

    // The bytes of a text from a place up to another, as `escape_bytes` writes them; most are plain, and those are copied by runs. The steps
    // are runs, so no `for`.
    pub fn escape_text(&mut self, bytes: &[u8], from: usize, to: usize)
        ensures { roff_of self.new ≡ with_escaped (text_mode self.old.strip) (part bytes.now from to) (roff_of self.old) }
    {
        let stop = to.min(bytes.len());
        let mut i = from;
        while i < stop {
            if plain_here(self.fresh, bytes[i]) {
                let text = &mut *self.text;
                i = copy_plain(text, bytes, i, stop);
                if stop <= i {
                    return;
                }
            }
            self.put_text_byte(bytes[i]);
            i += 1;
        }
    }
}
