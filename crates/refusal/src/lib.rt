// The refusals: one case for each number.

#![tactic(auto)]

ghost use Rattle.std.specs.Prelude.{◌≡◌, Some};
ghost use Rattle.refusal.specs.Numbers.{refusal_number, refusal_place, refusal_text};

use std::error::Error;
use std::fmt;

// A refusal, in the order of its number, with its place. 12 is not used again.
#[derive(Clone, Copy, Debug, PartialEq, Eq)]
pub enum Refusal {
    TooLong,
    CutShort(usize),
    UnknownKind(usize),
    BlockWithBody(usize),
    NotUtf8(usize),
    WrongEnd(usize),
    TooDeep(usize),
    LeftOpen(usize),
    TooWide,
    BeyondMargin(usize),
    NoForm(usize),
    NoRoom,
    BundleKind(usize),
    BundleCutShort(usize),
    BundleTooLong,
    NoJoinedText,
    WrongShare(usize),
    NotesNotUtf8,
    WrongHeight,
    NoPage,
    NotAList,
    NotAscending,
}

impl Refusal {
    // The number that 01 and 02 give it. (A match and no cast: a case that holds a place has no number for `as`.)
    pub fn number(self) -> u32
        ensures { result ≡ refusal_number self }
    {
        match self {
            Refusal::TooLong => 1,
            Refusal::CutShort(_) => 2,
            Refusal::UnknownKind(_) => 3,
            Refusal::BlockWithBody(_) => 4,
            Refusal::NotUtf8(_) => 5,
            Refusal::WrongEnd(_) => 6,
            Refusal::TooDeep(_) => 7,
            Refusal::LeftOpen(_) => 8,
            Refusal::TooWide => 9,
            Refusal::BeyondMargin(_) => 10,
            Refusal::NoForm(_) => 11,
            Refusal::NoRoom => 13,
            Refusal::BundleKind(_) => 14,
            Refusal::BundleCutShort(_) => 15,
            Refusal::BundleTooLong => 16,
            Refusal::NoJoinedText => 17,
            Refusal::WrongShare(_) => 18,
            Refusal::NotesNotUtf8 => 19,
            Refusal::WrongHeight => 20,
            Refusal::NoPage => 21,
            Refusal::NotAList => 22,
            Refusal::NotAscending => 23,
        }
    }

    // Its place, 0 where it carries none: no Option, since 01 gives each refusal a number and a place, and C gets both.
    pub fn place(self) -> usize
        ensures { result ≡ refusal_place self }
    {
        match self {
            Refusal::CutShort(p)
            | Refusal::UnknownKind(p)
            | Refusal::BlockWithBody(p)
            | Refusal::NotUtf8(p)
            | Refusal::WrongEnd(p)
            | Refusal::TooDeep(p)
            | Refusal::LeftOpen(p)
            | Refusal::BeyondMargin(p)
            | Refusal::NoForm(p)
            | Refusal::BundleKind(p)
            | Refusal::BundleCutShort(p)
            | Refusal::WrongShare(p) => p,
            _ => 0,
        }
    }
}

// `refused 6 at 0`: the number, then the place.
impl fmt::Display for Refusal {
    ghost output = { λ a. Some (refusal_text a) };

    fn fmt<W: fmt::Write>(&self, f: &mut fmt::Formatter<W>) -> fmt::Result {
        let number = self.number();
        let place = self.place();
        write!(f, "refused {number} at {place}")
    }
}

impl Error for Refusal {}
