// The labelled buffer (src/buffer/manpage/monoid.rs). It is not stored: 'roff bytes are written as they arise', so that a piece goes through
// `escape` as it is pushed. What stands for the buffer is the text, and whether a line starts after it.
ghost use Rattle.std.specs.Prelude.{◌≡◌, [], ◌∷◌};
ghost use Rattle.roff_escape.specs.Escape.{unescaped, line_start};
ghost use Rattle.roff_escape.specs.Monoid.{piece};
ghost use Rattle.roff_escape.specs.InnerParts.{as_it_is, roff_of, with_line, pushed};

use crate::escape::Escape;
use crate::roff::Roff;

impl Escape {
    // The modes in which every byte stays as it is.
    fn as_it_is(self) -> bool
        ensures { result ≡ as_it_is self }
    {
        matches!(self, Escape::UnescapedAtNewline | Escape::Unescaped)
    }
}

// Whether a line starts after bytes that stay as they are.
fn ends_line(start: bool, bytes: &[u8]) -> bool
    ensures { result ≡ line_start unescaped start bytes.now }
{
    match bytes.last() {
        Some(&c) => c == b'\n',
        None => start,
    }
}

impl<'a, 'b> Roff<'a, 'b> {
    // A line end before what starts a line of its own.
    fn new_line(&mut self, mode: Escape)
        ensures { roff_of self.new ≡ with_line mode (roff_of self.old) }
    {
        if self.fresh || mode != Escape::UnescapedAtNewline {
            return;
        }
        let text = &mut *self.text;
        text.put(b'\n');
        self.fresh = true;
    }

    // `FreeMonoid::push_str`, escaped at once. Bytes that stay as they are go out in one write, which for a mark that is written out in the code is one
    // test and one or two stores.
    pub fn push(&mut self, mode: Escape, bytes: &[u8])
        ensures { roff_of self.new ≡ pushed (piece mode bytes.now ∷ []) (roff_of self.old) }
    {
        self.new_line(mode);
        if mode.as_it_is() {
            let text = &mut *self.text;
            text.put_all(bytes);
            self.fresh = ends_line(self.fresh, bytes);
            return;
        }
        self.escape_bytes(mode, bytes);
    }
}
