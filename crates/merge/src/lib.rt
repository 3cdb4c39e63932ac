// One option list from two products.

#![tactic(auto)]

ghost use Rattle.std.specs.Prelude.{length};
ghost use Rattle.renderer.specs.Rendered.{standing, Inside};
ghost use Rattle.merge_rules.specs.Merge.{TheMerge};
ghost use Rattle.merge.specs.Answers.{Answer};
ghost use Rattle.merge.specs.InnerSteps.{Sides, Added, Written, Sound};
ghost use Rattle.room.specs.Lent.{text_of};

use document::MAX_BYTES;
use merge_items::Items;
use merge_sides::Side;
use refusal::Refusal;
use room::Text;
use std::cmp::Ordering;

// The merged list of two lists. A step compares the terms of both next items and goes on in the side whose item it wrote, or in both sides where the
// terms are the same. (No `for`: no step is one item of one side, over which an iterator would go.)
fn put_merged(
    first: &[u8],
    second: &[u8],
    key: &mut [u8; MAX_BYTES],
    other: &mut [u8; MAX_BYTES],
    t: &mut Text,
)
    requires { Sides first.now second.now }
    ensures { Added first.now second.now (text_of t.old) (text_of t.new) }
{
    let mut a = Items::of(first, &mut key[..]);
    let mut b = Items::of(second, &mut other[..]);
    t.put_all(&first[..6]);
    while !a.is_done() {
        if b.is_done() {
            t.put_all(a.rest());
            return;
        }
        let order = merge_items::compare(a.term(), b.term());
        match order {
            Ordering::Less => {
                t.put_all(a.item());
                a.advance();
            }
            Ordering::Equal => {
                t.put_all(a.item()); // the first side's item
                a.advance();
                b.advance();
            }
            Ordering::Greater => {
                t.put_all(b.item());
                b.advance();
            }
        }
    }
    t.put_all(b.rest());
}

// The merged list in a room, each side's key in an array of its own: a length past the room says that it is longer than that.
fn merge_lists(
    first: &[u8],
    second: &[u8],
    room: &mut [u8],
    key: &mut [u8; MAX_BYTES],
    other: &mut [u8; MAX_BYTES],
) -> usize
    requires { Sides first.now second.now }
    ensures { Written first.now second.now room.old room.new result }
{
    let mut t = Text::new(room);
    put_merged(first, second, key, other, &mut t);
    t.finish()
}

// Refusals 1 to 8 of both sides, first side first, then 22 of either side, and 23 after that. (The checks alone, and no `document::Accepted`: `side_of`
// and `Items` promise for bytes that the check refuses too, so that nothing here would take the type.)
fn refused_sides(first: &[u8], second: &[u8]) -> Result<(), Refusal>
    ensures { Sound first.now second.now result }
{
    document::check(first)?;
    document::check(second)?;
    match (merge_sides::side_of(first), merge_sides::side_of(second)) {
        (Side::NotAList, _) | (_, Side::NotAList) => Err(Refusal::NotAList),
        (Side::NotAscending, _) | (_, Side::NotAscending) => Err(Refusal::NotAscending),
        (Side::Ascending, Side::Ascending) => Ok(()),
    }
}

// The merged list in a room, or why there is none.
fn merged(first: &[u8], second: &[u8], room: &mut [u8]) -> Result<usize, Refusal>
    ensures text { TheMerge room.old first.now second.now (standing room.new result) }
    ensures inside { Inside (length room.old) result }
{
    refused_sides(first, second)?;
    // two arrays as large as a document, since there is no heap
    let mut key: [u8; MAX_BYTES] = [0; MAX_BYTES];
    let mut other: [u8; MAX_BYTES] = [0; MAX_BYTES];
    let len = merge_lists(first, second, room, &mut key, &mut other);
    if MAX_BYTES < len {
        return Err(Refusal::NoRoom);
    }
    renderer::answer(room, len)
}

// One option list from two, and zeros after it.
pub fn merge(first: &[u8], second: &[u8], room: &mut [u8]) -> Result<usize, Refusal>
    ensures { Answer room.old first.now second.now result room.new }
{
    renderer::cleared(merged(first, second, room), room)
}
