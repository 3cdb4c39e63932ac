// The items of a side: where they end, their terms' texts, and two texts beside each other.

#![tactic(auto)]

ghost use Rattle.std.specs.Prelude.{◌≡◌, ◌+◌, ◌-◌, ◌^◌, ◌<◌, leb, length, take, drop};
ghost use Rattle.base.specs.Bytes.{part};
ghost use Rattle.records.specs.Records.{tokens_from};
ghost use Rattle.room.specs.Lent.{text_of, with_bytes};
ghost use Rattle.merge_rules.specs.Merge.{compared};
ghost use Rattle.merge_rules.specs.InnerEnds.{deeper};
ghost use Rattle.merge_items.specs.InnerSteps.{text_to, Closes, Found, Begun, Read};

use records::{Kind, Records};
use room::Text;
use std::cmp::Ordering;

// Of an item: where its term's end record stands, and where the item ends.
#[derive(Clone, Copy)]
pub struct Place {
    pub stop: usize,
    pub next: usize,
}

// The items of a side, by the next one: where it starts, where it ends, and its term's text, joined in a lent key. A term is joined once, so that
// no step of the merge goes over its records again.
#[derive(Drop)]
pub struct Items<'a> {
    pub document: &'a [u8],
    pub at: usize,
    pub next: usize,
    pub key: Text<'a>,
}

// The blocks open in a block after a record, unless it ends there. (Not `buffer_doc::counted`, which passes over an end where none is open.)
fn open_after(kind: Kind, depth: usize) -> Option<usize>
    requires { depth + 1 < 2 ^ 64 }
    ensures { result ≡ deeper kind depth }
{
    match kind {
        Kind::Text(_) | Kind::Unknown => Some(depth),
        Kind::Start(_) => Some(depth + 1),
        Kind::End(_) => depth.checked_sub(1),
    }
}

// Where the block ends whose content stands from a place on, if it does.
fn end_of(document: &[u8], from: usize) -> Option<usize>
    ensures { Closes document.now from result }
{
    let mut depth: usize = 0;
    for r in Records::from_place(document, from) {
        let Some(d) = open_after(r.kind, depth) else {
            return Some(r.place);
        };
        depth = d;
    }
    None
}

// The item at a place of a document, if one stands there.
pub fn item_at(document: &[u8], at: usize) -> Option<Place>
    ensures { Found document.now at result }
{
    if document.len() < at {
        return None;
    }
    let stop = end_of(document, at + 6)?;
    let last = end_of(document, stop + 12)?;
    Some(Place {
        stop,
        next: last + 6,
    })
}

// The text of the records from a place on up to another, after what stands in a key. (Tried with `take_while`: missing is a lemma on what a step of a loop
// over that adapter leaves of the records.)
fn key_of(document: &[u8], from: usize, stop: usize, key: &mut Text)
    ensures { text_of key.new ≡ with_bytes (text_to stop (tokens_from document.now from)) (text_of key.old) }
{
    for r in Records::from_place(document, from) {
        if stop <= r.place {
            return;
        }
        key.put_all(r.body);
    }
}

impl<'a> Items<'a> {
    // Those of a list, whose first one starts behind the list's start.
    pub fn of(document: &'a [u8], key: &'a mut [u8]) -> Items<'a>
        ensures { Begun document.now key.entry.ghost_name (length key.old) result }
    {
        let mut items = Items {
            document,
            at: 6,
            next: 6,
            key: Text::new(key),
        };
        items.read(6);
        items
    }

    // The item at a place of the document is the next one, if one stands there. (No Option is answered: a side's item stays for the turns in which the other
    // side's is taken. None is kept either: `item` and `term`, asked only where `is_done` is false, would need an answer for None beside it.)
    pub fn read(&mut self, at: usize)
        ensures { Read at self.old self.new }
    {
        self.at = at;
        self.next = at;
        self.key.len = 0;
        if let Some(p) = item_at(self.document, at) {
            self.next = p.next;
            key_of(self.document, at + 6, p.stop, &mut self.key);
        }
    }

    // The one behind the next item is the next one.
    pub fn advance(&mut self)
        ensures { Read self.old.next self.old self.new }
    {
        let next = self.next;
        self.read(next);
    }

    // Whether the list's end record stands where the next item would.
    pub fn is_done(&self) -> bool
        ensures { result ≡ leb (length self.now.document.now - 6) self.now.at }
    {
        self.document.len().saturating_sub(6) <= self.at
    }

    // The next item's records.
    pub fn item(&self) -> &[u8]
        ensures { result.now ≡ part self.now.document.now self.now.at self.now.next }
    {
        base::get(self.document, self.at, self.next)
    }

    // Its term's text.
    pub fn term(&self) -> &[u8]
        ensures { result.now ≡ take self.now.key.len self.now.key.room.now }
    {
        base::get(self.key.room, 0, self.key.len)
    }

    // All records from it on, with the list's end.
    pub fn rest(&self) -> &[u8]
        ensures { result.now ≡ drop self.now.at self.now.document.now }
    {
        base::get_from(self.document, self.at)
    }
}

// One text beside another, by their bytes. (Std's order of two slices; the function says what it is by the rules, for both callers.)
pub fn compare(a: &[u8], b: &[u8]) -> Ordering
    ensures { result ≡ compared a.now b.now }
{
    a.cmp(b)
}
