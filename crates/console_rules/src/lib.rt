// The types that the console's rules share with its code.

#![tactic(auto)]

use skip::Skip;

// The characters of the widest term that counts for the tabstop: the source's `MAX_TAB`.
pub const MAX_TAB: usize = 24;

// The largest tabstop: 'MAX_TAB + 4'.
pub const MAX_TABSTOP: usize = MAX_TAB + 4;

// 'At most .. width 0 to 10,000'
pub const MAX_WIDTH: usize = 10_000;

// How many columns a chunk may miss to its margin; where it misses more, refusal 10. (A number, as MAX_TABSTOP is: each is compared at one place with
// the number in a `Columns`, where the derived order would be one contract more to the same `<`.)
pub const MAX_MISSING: usize = 50;

// What a chunk counts for in the fold test: its bytes, as in the source, or the characters that it holds.
#[derive(Clone, Copy)]
pub enum Measure {
    Bytes,
    Characters,
}

// What the console is asked for: the width, '`full`' and the measure, as one record.
#[derive(Clone, Copy)]
pub struct Settings {
    pub width: usize,
    pub full: bool,
    pub measure: Measure,
}

// Columns used, and bytes used. No methods: no function stands in this crate; `console_chunks` has `plus`, `missing_to` and `folds_at`.
#[derive(Clone, Copy, Default, PartialEq, Eq, PartialOrd, Ord)]
pub struct Columns(pub usize);

#[derive(Clone, Copy, Default, PartialEq, Eq, PartialOrd, Ord)]
pub struct Bytes(pub usize);

// What the console keeps from one chunk to the next, beside the text and the margins.
#[derive(Clone, Copy, Default)]
pub struct Lay {
    pub column: Columns,
    // text is skipped while this is over 0
    pub skip: Skip,
    // flags and no enum: the source has a field for each, the rules name them, and `newline` may be set beside `blank`
    // a line end, a blank line, a gap of two columns before an item's body is due: the source's `pending_newline`, `pending_blank_line`,
    // `pending_margin`
    pub newline: bool,
    pub blank: bool,
    pub gutter: bool,
    // the next end of a Section4 has an adjacent gap; the Block after it is being passed over: the source's `adjacent_skip`
    pub gap: bool,
    pub passing: bool,
}
