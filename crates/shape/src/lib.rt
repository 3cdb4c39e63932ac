// The house shape of a document.

#![tactic(auto)]

ghost use Rattle.std.specs.Prelude.{◌≡◌, ◌≤◌};
ghost use Rattle.refusal.specs.Answers.{answered};
ghost use Rattle.shape.specs.Shape.{other, inline};
ghost use Rattle.shape.specs.Answers.{TheAnswer};
ghost use Rattle.records.specs.Listed.{left};
ghost use Rattle.shape.specs.InnerSteps.{depth, Balanced, Walked};
ghost use Rattle.shape.specs.InnerSteps as want;

use records::{Block, Kind, Records};
use refusal::Refusal;

// The place of the first record that is out of place.
#[derive(Clone, Copy, Debug, PartialEq, Eq)]
struct OutOfPlace {
    place: usize,
}

// Whether a block stands around parts and is no body.
fn is_other(b: Block) -> bool
    ensures { result ≡ other b }
{
    !matches!(b, Block::DefinitionList | Block::ItemTerm | Block::ItemBody)
}

// Whether a block may stand in a term.
pub fn is_inline(b: Block) -> bool
    ensures { result ≡ inline b }
{
    matches!(b, Block::TermRef | Block::Mono | Block::InlineBlock)
}

// The three functions below go over the records of one content, in a loop, up to the end record of the block around it, or the document's end: what calls
// goes on there. Lists and what they hold are checked by calls: `parts` calls `pairs` for a list, and that calls `inlines` for a term and `parts` for a
// body. Other blocks need no call: they hold what stands around them, so that `inner`, the number of those that are open, is all that is kept of them. At
// most 32 blocks are open, and around each call one more is, so that calls nest at most 33 deep.
// `inlines` is no case of `parts`: it calls neither of the two, and so stands outside of their cycle.
// `while let` in `parts` and `pairs`: a `for` would hold the iterator, which their bodies hand on. In `inlines` (tried with `records.by_ref()`): std's promise
// of `next` through a reference does not say that the reference stays the same, so that what is left in `records` after the loop is not known.
// `Balanced` stands in the three contracts: a type with it as its invariant would be `Records` once more, with a `next` of its own.

// What a term holds.
fn inlines(records: &mut Records) -> Result<(), OutOfPlace>
    requires { Balanced (left records.old) }
    ensures { Walked want.inlines (left records.old) (left records.new) result }
{
    let mut inner: usize = 0;
    while let Some(r) = records.next() {
        match r.kind {
            Kind::Text(_) => {}
            Kind::Start(b) if is_inline(b) => inner += 1,
            Kind::End(_) if inner == 0 => return Ok(()),
            Kind::End(_) => inner -= 1,
            _ => return Err(OutOfPlace { place: r.place }),
        }
    }
    Ok(())
}

// Parts: a list's pairs are checked by `pairs`.
#[cycle(pairs_parts)]
fn parts(records: &mut Records) -> Result<(), OutOfPlace>
    requires { Balanced (left records.old) }
    ensures { Walked want.parts (left records.old) (left records.new) result }
{
    let mut inner: usize = 0;
    while let Some(r) = records.next() {
        match r.kind {
            Kind::Text(_) => {}
            Kind::Start(b) if is_other(b) => inner += 1,
            Kind::Start(b) if b == Block::DefinitionList => pairs(records)?,
            Kind::End(_) if inner == 0 => return Ok(()),
            Kind::End(_) => inner -= 1,
            _ => return Err(OutOfPlace { place: r.place }),
        }
    }
    Ok(())
}

// Pairs of a term and a body: a body's parts are checked by `parts`.
#[cycle(pairs_parts)]
fn pairs(records: &mut Records) -> Result<(), OutOfPlace>
    requires { (1 ≤ depth (left records.old)) × Balanced (left records.old) }
    ensures { Walked want.pairs (left records.old) (left records.new) result }
{
    while let Some(term) = records.next() {
        if let Kind::End(_) = term.kind {
            return Ok(());
        }
        if term.kind != Kind::Start(Block::ItemTerm) {
            return Err(OutOfPlace { place: term.place });
        }
        inlines(records)?;
        let Some(body) = records.next() else {
            return Ok(());
        };
        if body.kind != Kind::Start(Block::ItemBody) {
            return Err(OutOfPlace { place: body.place });
        }
        parts(records)?;
    }
    Ok(())
}

// Whether a document has the house shape: none, or the place of the first record that is out of place. In an accepted document an end record ends the
// innermost open block, so that `parts`, `pairs` and `inlines` need not ask which.
pub fn house_shape(document: &[u8]) -> Result<Option<usize>, Refusal>
    ensures { TheAnswer document.now (answered result) }
{
    document::check(document)?;
    Ok(parts(&mut Records::of(document)).err().map(|out| out.place))
}
