// Lines of the list of samples that `try_samples` runs, whose first lines tell its form: their numbers and texts, and what they add to a
// document.

#![tactic(auto)]

ghost use Rattle.std.specs.Prelude.{◌≡◌, ◌<◌, ◌≤◌, ◌∷◌, length};
ghost use Rattle.std.specs.Iterator.{YieldsFirst, item_count};
ghost use Rattle.room.specs.Lent.{text_of as text_in, with_bytes};
ghost use Rattle.splitter.specs.Answers.{chunk_of};
ghost use Rattle.splitter.specs.Split.{raw};
ghost use Rattle.compared.specs.InnerCompared.{same};
ghost use Rattle.sample_lines.specs.InnerLines.{number_in, two_numbers, hex_digit, written, is_chunk, tally_of};

use compared::byte_or;
use room::Text;
use splitter::Piece;

mod documents;

pub use documents::add;

// How many answers were compared, and how many of them differ.
#[derive(Clone, Copy, Default)]
pub struct Tally {
    pub compared: u64,
    pub differ: u64,
}

impl Tally {
    // One answer more.
    #[tactic(auto, unfolding(crate::specs::InnerLines::tally_of, crate::proofs::Names::choose))]
    pub fn add(&mut self, same: bool)
        ensures { self.new ≡ tally_of self.old same }
    {
        self.compared = self.compared.wrapping_add(1);
        if !same {
            self.differ = self.differ.wrapping_add(1);
        }
    }
}

// The number that some bytes begin with, and what follows it; 0 where there is no digit: as an Option it would be given a 0 at each of its uses.
pub fn split_number<'a>(bytes: &'a [u8]) -> (usize, &'a [u8])
    ensures { ((result.0, result.1.now) ≡ number_in bytes.now) × (result.0 ≤ 10_000_255) }
{
    let mut value: usize = 0;
    let mut rest = bytes;
    while let Some((b, others)) = rest.split_first() {
        if !b.is_ascii_digit() || 1_000_000 < value {
            break;
        }
        value = value * 10 + usize::from(*b - b'0');
        rest = others;
    }
    (value, rest)
}

// The number of a line, after its letter and a space.
pub fn number(line: &[u8]) -> usize
    ensures { (result ≡ (two_numbers line.now).0) × (result ≤ 10_000_255) }
{
    split_number(base::get_from(line, 2)).0
}

// The two numbers of a line, one space apart, after its letter and a space.
pub fn two_numbers(line: &[u8]) -> (usize, usize)
    ensures { (result ≡ two_numbers line.now) × (result.0 ≤ 10_000_255) × (result.1 ≤ 10_000_255) }
{
    let (first, rest) = split_number(base::get_from(line, 2));
    let (second, _) = split_number(base::get_from(rest, 1));
    (first, second)
}

// What a hexadecimal digit stands for; any other byte for 0. (No `char::to_digit`: it takes small letters too, which stand for 0 here.)
#[tactic(auto, unfolding(crate::specs::InnerLines::hex_digit, crate::proofs::Names::choose))]
fn hex_digit(b: u8) -> u8
    ensures { (result ≡ hex_digit b) × (result < 16) }
{
    match b {
        b'0'..=b'9' => b - b'0',
        b'A'..=b'F' => b - b'A' + 10,
        _ => 0,
    }
}

// The byte that a part of a line begins with, and the part after it: a backslash and two hexadecimal digits are one byte, any other byte is
// itself.
fn first_written<'a>(byte: u8, rest: &'a [u8]) -> (u8, &'a [u8])
    ensures { written 0 (byte ∷ rest.now) ≡ result.0 ∷ written 0 result.1.now }
{
    let left = rest.len();
    if byte == b'\\' && 2 <= left {
        let byte = hex_digit(rest[0]) * 16 + hex_digit(rest[1]);
        return (byte, base::get_from(rest, 2));
    }
    (byte, rest)
}

// The bytes that a part of a line stands for.
#[derive(Clone, Copy)]
struct Written<'a>(&'a [u8]);

impl<'a> Iterator for Written<'a> {
    type Item = u8;

    ghost next_gives = { YieldsFirst (λ t. written 0 t.0.now) };

    ghost remaining = { item_count (λ t. written 0 t.0.now) };

    #[tactic(auto, using(crate::proofs::Lines::written_empty))]
    fn next(&mut self) -> Option<u8> {
        let (first, others) = self.0.split_first()?;
        let (byte, rest) = first_written(*first, others);
        self.0 = rest;
        Some(byte)
    }
}

// Adds the text that some bytes stand for.
pub fn put_text(t: &mut Text, bytes: &[u8])
    ensures { text_in t.new ≡ with_bytes (written 0 bytes.now) (text_in t.old) }
{
    for b in Written(bytes) {
        t.put(b);
    }
}

// How many bytes the text has that some stand for.
#[tactic(auto, using(crate::proofs::Lines::length_written))]
fn text_size(bytes: &[u8]) -> usize
    ensures { result ≡ length (written 0 bytes.now) }
{
    Written(bytes).count()
}

// Whether a text is the one that some bytes stand for.
// (A loop: `Iterator::eq` promises of each of its two iterators what it gave, and no lemma of std makes two lists of that.)
fn is_text(text: &[u8], bytes: &[u8]) -> bool
    ensures { result ≡ same text.now (written 0 bytes.now) }
{
    let mut rest = text;
    for b in Written(bytes) {
        let Some((first, others)) = rest.split_first() else {
            return false;
        };
        if *first != b {
            return false;
        }
        rest = others;
    }
    rest.is_empty()
}

// Whether a text with its width is the chunk of a line `~`.
#[tactic(auto, unfolding(crate::specs::InnerLines::is_chunk))]
fn is_raw(line: &[u8], text: &[u8], width: usize) -> bool
    ensures { result ≡ is_chunk line.now (raw text.now width) }
{
    let (number, rest) = split_number(base::get_from(line, 2));
    byte_or(line, 0, 0) == b'~' && width == number && is_text(text, base::get_from(rest, 1))
}

// Whether a chunk of a body is the one of a line: `~` with the width and the text, `P`, a paragraph, or `B`, a line break.
#[tactic(auto, unfolding(crate::specs::InnerLines::is_chunk))]
pub fn is_chunk(line: &[u8], body: &[u8], piece: Piece) -> bool
    ensures { result ≡ is_chunk line.now (chunk_of body.now piece) }
{
    match piece {
        Piece::Raw { from, to, width } => is_raw(line, base::get(body, from, to), width),
        Piece::Space(_) => is_raw(line, b" ", 1),
        Piece::Paragraph(_) => byte_or(line, 0, 0) == b'P',
        Piece::LineBreak(_) => byte_or(line, 0, 0) == b'B',
    }
}
