// Roff document composer (src/buffer/manpage/roff.rs).
ghost use Rattle.std.specs.Prelude.{◌≡◌, [], ◌∷◌};
ghost use Rattle.base.specs.Bytes.{part};
ghost use Rattle.room.specs.Lent.{text_of, with_bytes};
ghost use Rattle.roff_escape.specs.Escape.{unescaped, preamble};
ghost use Rattle.roff_escape.specs.Monoid.{piece};
ghost use Rattle.roff_escape.specs.Composer.{font_escape, linebreak, control0, plaintext, text};
ghost use Rattle.roff_escape.specs.InnerParts.{roff_of, pushed, stripped, control_name};

use crate::escape::Escape;
use room::Text;

// `Roff`: the text and whether a line starts after it, which stand for its payload, and `strip_newlines`. The text is lent, since of one that is held
// within two structs Rattle does not tell what its room is when they end; with a room and a length here in its place, what writes a byte in `escape`
// would be of a `Roff` and not of a text alone, and `room`'s functions would be called where its methods are.
#[derive(Drop)]
pub struct Roff<'a, 'b> {
    pub text: &'a mut Text<'b>,
    pub fresh: bool,
    pub strip: bool,
}

// Font selector.
#[derive(Clone, Copy)]
pub enum Font {
    Roman,
    Bold,
    Italic,
}

impl Font {
    // Its letter in its escape.
    fn letter(self) -> u8
        ensures { font_escape self ≡ 0x5C ∷ 0x66 ∷ result ∷ [] }
    {
        match self {
            Font::Roman => b'R',
            Font::Bold => b'B',
            Font::Italic => b'I',
        }
    }
}

// The preamble, which `Roff::render` puts first; no part of it goes through `escape`, so that a line starts after it.
pub fn put_preamble(t: &mut Text)
    ensures { text_of t.new ≡ with_bytes preamble (text_of t.old) }
{
    t.put_all(b".ie \\n(.g .ds Aq \\(aq\n.el .ds Aq '\n");
}

impl<'a, 'b> Roff<'a, 'b> {
    // Setter for `strip`.
    pub fn strip_newlines(&mut self, state: bool)
        ensures { roff_of self.new ≡ stripped state (roff_of self.old) }
    {
        self.strip = state;
    }

    // What a control line begins with.
    pub fn control_name(&mut self, name: &[u8])
        ensures { roff_of self.new ≡ pushed (control_name name.now) (roff_of self.old) }
    {
        self.push(Escape::UnescapedAtNewline, b".");
        self.push(Escape::Unescaped, name);
    }

    // A line break in the source of the page.
    pub fn roff_linebreak(&mut self)
        ensures { roff_of self.new ≡ pushed linebreak (roff_of self.old) }
    {
        self.push(Escape::UnescapedAtNewline, b"");
    }

    // A control line without arguments.
    pub fn control0(&mut self, name: &[u8])
        ensures { roff_of self.new ≡ pushed (control0 name.now) (roff_of self.old) }
    {
        self.control_name(name);
        self.roff_linebreak();
    }

    // `Font::escape`, pushed.
    fn put_font(&mut self, font: Font)
        ensures { roff_of self.new ≡ pushed (piece unescaped (font_escape font) ∷ []) (roff_of self.old) }
    {
        let mark: [u8; 3] = [b'\\', b'f', font.letter()];
        self.push(Escape::Unescaped, &mark);
    }

    // The bytes of a text from a place up to another, with special bytes escaped.
    fn plaintext(&mut self, bytes: &[u8], from: usize, to: usize)
        ensures { roff_of self.new ≡ pushed (plaintext self.old.strip (part bytes.now from to) ∷ []) (roff_of self.old) }
    {
        self.escape_text(bytes, from, to);
    }

    // The bytes of a text from a place up to another, in a font. More of the text is read than goes out, in blocks: so it comes whole. With a record's
    // body alone, whose last bytes go one by one, pages of options took 1.3 of the time; with the text from its place on and a length, 1.0 to 1.1.
    pub fn text(&mut self, font: Font, bytes: &[u8], from: usize, to: usize)
        ensures { roff_of self.new ≡ pushed (text self.old.strip font (part bytes.now from to)) (roff_of self.old) }
    {
        self.put_font(font);
        self.plaintext(bytes, from, to);
        self.push(Escape::Unescaped, b"\\fP");
    }
}
