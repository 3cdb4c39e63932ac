// The figures of a bundle of documents.

#![tactic(auto)]

ghost use Rattle.std.specs.Prelude.{◌≡◌, [], ◌∷◌, ◌≤◌, ◌+◌, length};
ghost use Rattle.console_rules.specs.Console.{console};
ghost use Rattle.figures.specs.Bundle.{shelf, full_text, figures};
ghost use Rattle.refusal.specs.Answers.{answered};
ghost use Rattle.figures.specs.InnerParts.{printed_of, plus, nothing, Few, Bounded, from};

use records::Records;
use refusal::Refusal;

// 'over 65,536 bytes'
const MAX_BUNDLE: usize = 65_536;

// 'a room of 65,536': an array, since no heap is used here
const ROOM: usize = 65_536;

// Bodies seen, those with a text, the others, and the printing characters of the texts.
#[derive(Clone, Copy, Default)]
pub struct Figures {
    pub documents: usize,
    pub accepted: usize,
    pub refused: usize,
    pub characters: usize,
}

// How many characters the text of a document prints that is written in a room, or its refusal.
fn count_text(document: &[u8], room: &mut [u8]) -> Result<usize, Refusal>
    ensures result_value { answered result ≡ printed_of (console shelf (length room.old) document.now) }
    ensures few { Few (length room.old) result }
{
    let n = console::monochrome(document, true, room)?;
    Ok(printing::count(&room[0..n]))
}

impl Figures {
    // One document more. Its text takes at most 54 bytes for each of the document's and 1 (02, point 10): no more of the room is lent, so that a small
    // document does not pay for clearing all of it.
    fn add(&mut self, document: &[u8], room: &mut [u8; ROOM])
        requires { (length document.now ≤ 65_536) × (self.old.documents ≤ 65_536) × Bounded self.old }
        ensures value { self.new ≡ plus self.old (document.now ∷ []) }
        ensures bounded { (self.new.documents ≡ self.old.documents + 1) × Bounded self.new }
    {
        self.documents += 1;
        let most = ROOM.min(54 * document.len() + 1);
        match count_text(document, &mut room[..most]) {
            Ok(n) => {
                self.accepted += 1;
                self.characters += n;
            }
            Err(_) => self.refused += 1,
        }
    }
}

// 'kind 0x0300': the kind of a bundle's records, each of which holds a document. A number, since `records::Kind` has the kinds of a document's records, and
// this is none of them.
const DOCUMENT: usize = 0x0300;

// The figures of a bundle, document by document: 15, then 14, at each record. Of a record that is cut short `Records` gives what is there: it is tested first
// that it lies whole.
fn count_all(bundle: &[u8], room: &mut [u8; ROOM]) -> Result<Figures, Refusal>
    requires { length bundle.now ≤ 65_536 }
    ensures { answered result ≡ from bundle.now 0 nothing }
{
    let mut f = Figures::default();
    for r in Records::of(bundle) {
        if !records::fits_at(bundle, r.place) {
            return Err(Refusal::BundleCutShort(r.place));
        }
        if records::raw_at(bundle, r.place).code != DOCUMENT {
            return Err(Refusal::BundleKind(r.place));
        }
        f.add(r.body, room);
    }
    Ok(f)
}

// The figures of a bundle, or its refusal: 16 first.
pub fn figures_of(bundle: &[u8]) -> Result<Figures, Refusal>
    ensures { answered result ≡ figures bundle.now }
{
    if MAX_BUNDLE < bundle.len() {
        return Err(Refusal::BundleTooLong);
    }
    count_all(bundle, &mut [0; ROOM])
}
