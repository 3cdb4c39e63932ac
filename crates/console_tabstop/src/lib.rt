// What the console looks up in the records before and beside its walk (src/buffer/console.rs): the tabstop, and the adjacent gap.

#![tactic(auto)]

ghost use Rattle.std.specs.Prelude.{◌≡◌, false, ◌+◌, ◌-◌, ◌≤◌, ◌<◌, ◌^◌, length, take, drop};
ghost use Rattle.records.specs.Records.{index, is_text, kind_of, tokens, tokens_from};
ghost use Rattle.records.specs.declared.Block.TheVariants as block;
ghost use Rattle.console_rules.specs.Console.{term_start, term_end, term, terms, settles, tabstop, settled_from, settled_at, tabstop_in, settled_in};
ghost use Rattle.console_rules.specs.Console.{empty_block, gap_ahead, max_tab};
ghost use Rattle.console_tabstop.specs.Answers.{tabstop_of, settled_of};
ghost use Rattle.console_tabstop.specs.InnerCounted.{terms_of, Passed};
ghost use Rattle.console_tabstop.specs.InnerAhead.{Ahead, Known};

use console_rules::{Columns, MAX_TAB, MAX_TABSTOP};
use records::{Block, Kind, Raw, Records};
use refusal::Refusal;

// Whether the start and the end of a Block come first.
pub fn empty_block(document: &[u8], at: usize) -> bool
    ensures { result ≡ empty_block (tokens_from document.now at) }
{
    let mut records = Records::from_place(document, at);
    let (Some(a), Some(b)) = (records.next(), records.next()) else {
        return false;
    };
    a.kind == Kind::Start(Block::Block) && b.kind == Kind::End(Block::Block)
}

// Kinds as numbers, since only lengths and these kinds are looked for: by a `for` over `Records` in the search for the tabstop the console takes 1.04 to 1.15
// of the time, and by one in `section_end` up to 1.05.
const SECTION4_END: usize = 0x0203;

const TERM_START: usize = 0x0104;

const TERM_END: usize = 0x0204;

// Where the records after the next end of a Section4 begin, or the document's end: no record follows where there is no such end.
fn section_end(document: &[u8], at: usize) -> usize
    ensures { Ahead document.now at result }
{
    let mut i = at;
    while i < document.len() {
        let r = records::raw_at(document, i);
        if r.code == SECTION4_END {
            return r.next;
        }
        i = r.next;
    }
    document.len()
}

// The same, where it was `known` before: it is looked for only where the place known has been passed.
pub fn look_ahead(document: &[u8], next: usize, known: usize) -> usize
    ensures { Known document.now next known → Ahead document.now next result }
{
    if known <= next {
        return section_end(document, next);
    }
    known
}

// Whether an adjacent gap lies ahead of a block's start, with the next record at `next`: an empty Block where the records after the next end of a
// Section4 begin. Only a Section4 asks. That place is kept in `known`: each record is read once for it, however many starts stand before it.
// `known` begins as 0 and is no Option: where it is not past `next`, the place is looked for in any case.
// No struct of the document and `known`: what holds of `known` names `next` too, so that it would stay in each contract.
pub fn gap_ahead(document: &[u8], next: usize, b: Block, known: &mut usize) -> bool
    ensures knows { Known document.now next known.old → Known document.now next known.new }
    ensures gap { Known document.now next known.old → index b ≡ 3 → result ≡ gap_ahead (tokens_from document.now next) }
{
    match b {
        Block::Section4 => {
            let at = look_ahead(document, next, *known);
            *known = at;
            empty_block(document, at)
        }
        _ => false,
    }
}

// The tabstop.

// The widest term so far, whether a term is being counted, and its characters so far.
// A flag and a number and no Option, as the rules have them: an ItemTerm's end reads the number whether or not a term is being counted.
#[derive(Clone, Copy, Default)]
struct Terms {
    widest: usize,
    counting: bool,
    counted: usize,
}

// Whether a record's kind is that of a text.
fn is_text(code: usize) -> bool
    ensures { result ≡ is_text (kind_of code) }
{
    code <= 0x0005 && 0 < code
}

impl Terms {
    // 'a nested term's start sets the count back to 0'
    fn start(&mut self)
        ensures { terms_of self.new ≡ term_start block.ItemTerm (terms_of self.old) }
    {
        self.counting = true;
        self.counted = 0;
    }

    // 'its end stops the count', and the widest of at most 24 characters is kept.
    fn end(&mut self)
        ensures { terms_of self.new ≡ term_end block.ItemTerm (terms_of self.old) }
    {
        self.counting = false;
        if self.widest < self.counted && self.counted <= MAX_TAB {
            self.widest = self.counted;
        }
    }

    // The count after a record. Most kinds change nothing, and none is taken apart further than this needs.
    fn on(&mut self, r: Raw, document: &[u8])
        requires { (r.start ≤ r.next) × (self.old.counted + (r.next - r.start) < 2 ^ 64) }
        ensures { terms_of self.new ≡ term (kind_of r.code) (take (r.next - r.start) (drop r.start document.now)) (terms_of self.old) }
    {
        match r.code {
            TERM_START => self.start(),
            TERM_END => self.end(),
            _ if self.counting && is_text(r.code) => {
                self.counted += utf8::count_from(document, r.start, r.next - r.start);
            }
            _ => {}
        }
    }

    // Whether a record is an ItemTerm's end whose count is 24: no term that counts is wider.
    fn settles(&self, code: usize) -> bool
        ensures { result ≡ settles (kind_of code) (terms_of self.now) }
    {
        code == TERM_END && self.counted == MAX_TAB
    }
}

// The tabstop, and the start of the record that settles it, or the document's length.
// The length and no Option: the request for the tabstop asks for it, and the C interface hands that number out.
#[derive(Clone, Copy)]
pub struct Tabstop {
    pub columns: Columns,
    pub at: usize,
}

// The search for the tabstop from a record on, where so much was counted before: it stops at the record that settles it.
// Each search writes its two answers out: where a record settles it, `widest` need not be 24 yet, so that one method of `Terms` would not give both.
fn find_from(document: &[u8], from: usize, first: Terms) -> Tabstop
    requires { (first.widest ≤ 24) × (first.counted ≤ from) × (from ≤ length document.now) }
    ensures tabstop { (result.columns.0 ≡ (terms (tokens_from document.now from) (terms_of first)).widest + 4) × (result.columns.0 ≤ max_tab + 4) }
    ensures settled { result.at ≡ settled_from (length document.now) (tokens_from document.now from) (terms_of first) }
{
    let mut t = first;
    let mut i = from;
    while i < document.len() {
        let r = records::raw_at(document, i);
        if t.settles(r.code) {
            return Tabstop {
                columns: Columns(MAX_TABSTOP),
                at: i,
            };
        }
        t.on(r, document);
        i = r.next;
    }
    Tabstop {
        columns: Columns(t.widest + 4),
        at: document.len(),
    }
}

// Where the next start or end of an ItemTerm stands from a place on, or the first record that is cut short, or the document's end: outside a term no other
// record changes the count.
fn next_term(document: &[u8], from: usize) -> usize
    ensures { Passed document.now from result }
{
    let mut at = from;
    while at < document.len() {
        if !records::fits_at(document, at) {
            return at;
        }
        let r = records::whole_raw_at(document, at);
        if r.code == TERM_START || r.code == TERM_END {
            return at;
        }
        at = r.next;
    }
    at
}

// The search in a whole document. A record that is cut short, which an accepted document has none of, is left to `find_from`: so that here no place is
// compared with the document's end before the next record can be read. With one loop for both the console takes up to 1.05 of the time.
// Bytes and no `Accepted`, of which `find_from` would not be needed: `tabstop_of` is public, and promises the tabstop of any document.
fn find_tabstop(document: &[u8]) -> Tabstop
    ensures tabstop { (result.columns.0 ≡ tabstop (tokens 0 0 document.now)) × (result.columns.0 ≤ max_tab + 4) }
    ensures settled { result.at ≡ settled_at (length document.now) (tokens 0 0 document.now) }
{
    let mut t = Terms::default();
    let mut at: usize = 0;
    while at < document.len() {
        if !t.counting {
            at = next_term(document, at);
        }
        if !records::fits_at(document, at) {
            return find_from(document, at, t);
        }
        let r = records::whole_raw_at(document, at);
        if t.settles(r.code) {
            return Tabstop {
                columns: Columns(MAX_TABSTOP),
                at,
            };
        }
        t.on(r, document);
        at = r.next;
    }
    Tabstop {
        columns: Columns(t.widest + 4),
        at: document.len(),
    }
}

// The tabstop of a document.
pub fn tabstop_of(document: &[u8]) -> Columns
    ensures { (result.0 ≡ tabstop (tokens 0 0 document.now)) × (result.0 ≤ max_tab + 4) }
{
    find_tabstop(document).columns
}

// Refusals 1 to 8, then the search.
pub fn search_tabstop(document: &[u8]) -> Result<Tabstop, Refusal>
    ensures tabstop { tabstop_of result ≡ tabstop_in document.now }
    ensures settled { settled_of result ≡ settled_in document.now }
{
    document::check(document)?;
    Ok(find_tabstop(document))
}
