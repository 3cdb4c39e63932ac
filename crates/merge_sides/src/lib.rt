// A side of the merge: whether it is a list, and whether its terms ascend.

#![tactic(auto)]

ghost use Rattle.std.specs.Prelude.{◌≡◌, ◌≤◌, length};
ghost use Rattle.records.specs.Records.{tokens_from};
ghost use Rattle.shape.specs.Shape.{parts, inlines, kinds};
ghost use Rattle.merge_rules.specs.Merge.{Filled, IsList};
ghost use Rattle.merge_sides.specs.InnerSteps.{framed, Stands, Asked, Climbs, Tells, SideIs, plain, all_plain};
ghost use Rattle.document.specs.Document.{max_bytes};

use document::MAX_BYTES;
use merge_items::{Items, Place};
use records::{Kind, Records};
use std::mem::swap;

// A document as a side: no list of items, a list whose terms do not ascend, or one whose terms do.
#[derive(Clone, Copy, Debug, PartialEq, Eq)]
pub enum Side {
    NotAList,
    NotAscending,
    Ascending,
}

// Whether the terms of a list ascend: that of each item and that of the next one, which are read into the two keys in turn. (A loop by places, as in
// the merge: where the next item begins is known when one was read.)
fn in_order<'a>(
    document: &'a [u8],
    key: &'a mut [u8; MAX_BYTES],
    other: &'a mut [u8; MAX_BYTES],
) -> bool
    requires { Asked document.now }
    ensures { Climbs document.now result }
{
    let mut here = Items::of(document, &mut key[..]);
    let mut after = Items::of(document, &mut other[..]);
    while !here.is_done() {
        after.read(here.next);
        if after.is_done() {
            return true;
        }
        let order = merge_items::compare(here.term(), after.term());
        if !order.is_lt() {
            return false;
        }
        swap(&mut here, &mut after);
    }
    true
}

// Whether a record may stand in a term.
fn is_plain(kind: Kind) -> bool
    ensures { result ≡ plain kind }
{
    match kind {
        Kind::Text(_) => true,
        Kind::Start(b) | Kind::End(b) => shape::is_inline(b),
        Kind::Unknown => false,
    }
}

fn all_plain(content: &[u8]) -> bool
    ensures { result ≡ all_plain (kinds (tokens_from content.now 0)) }
{
    Records::of(content).all(|r| is_plain(r.kind))
}

// Whether some bytes are what a body holds. (No `matches!` on Ok(None): of its other arm the proof is not told that a place was found.)
// The bound on the length is asked by this function and the callers up to `is_list`. Not `document::Accepted`: what an item holds is checked here first, and
// `side_of` promises for all bytes up to the bound, whether the check accepts them or not.
fn fills_body(content: &[u8]) -> bool
    requires { length content.now ≤ max_bytes }
    ensures { Tells (Filled parts content.now) result }
{
    match shape::house_shape(content) {
        Ok(shape) => shape.is_none(),
        Err(_) => false,
    }
}

// Whether some bytes are what a term holds.
fn fills_term(content: &[u8]) -> bool
    requires { length content.now ≤ max_bytes }
    ensures { Tells (Filled inlines content.now) result }
{
    all_plain(content) && fills_body(content)
}

// Whether the records around what an item holds stand there: its term's start at `at`, its term's end and its body's start, its body's end.
fn is_framed(document: &[u8], at: usize, p: Place) -> bool
    requires { (at ≤ length document.now) × (p.stop ≤ length document.now) }
    ensures { result ≡ framed document.now at p.stop p.next }
{
    at + 6 <= p.stop
        && p.stop + 18 <= p.next
        && base::starts_with(document, at, b"\0\0\0\0\x04\x01")
        && base::starts_with(document, p.stop, b"\0\0\0\0\x04\x02\0\0\0\0\x05\x01")
        && base::starts_with(document, p.next - 6, b"\0\0\0\0\x05\x02")
}

// Whether an item stands at a place, with its term's end record and its own end where they were found.
fn stands(document: &[u8], at: usize, p: Place) -> bool
    requires { (length document.now ≤ max_bytes) × (at ≤ length document.now) × (p.stop ≤ length document.now) × (p.next ≤ length document.now) }
    ensures { Tells (Stands document.now at p.stop p.next) result }
{
    is_framed(document, at, p)
        && fills_term(&document[at + 6..p.stop])
        && fills_body(&document[p.stop + 12..p.next - 6])
}

// Whether a document is one list of items, whatever their order. (By places: the next item is known when one was found whole.)
fn is_list(document: &[u8]) -> bool
    requires { length document.now ≤ max_bytes }
    ensures { Tells (IsList document.now) result }
{
    if document.len() < 12 || !base::starts_with(document, 0, b"\0\0\0\0\x06\x01") {
        return false;
    }
    let last = document.len() - 6;
    let mut at: usize = 6;
    while at < last {
        let Some(p) = merge_items::item_at(document, at) else {
            return false;
        };
        if last < p.next || !stands(document, at, p) {
            return false;
        }
        at = p.next;
    }
    base::starts_with(document, last, b"\0\0\0\0\x06\x02")
}

// What a document is as a side. Nothing is said of more bytes than a document has.
pub fn side_of(document: &[u8]) -> Side
    ensures { length document.now ≤ max_bytes → SideIs document.now result }
{
    if MAX_BYTES < document.len() || !is_list(document) {
        return Side::NotAList;
    }
    // two arrays as large as a document, since there is no heap
    let mut key: [u8; MAX_BYTES] = [0; MAX_BYTES];
    let mut other: [u8; MAX_BYTES] = [0; MAX_BYTES];
    if !in_order(document, &mut key, &mut other) {
        return Side::NotAscending;
    }
    Side::Ascending
}
