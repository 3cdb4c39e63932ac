// The types that the rules of HTML and Markdown share with their code.

#![tactic(auto)]

use records::Style;
use skip::Skip;

// What HTML keeps from one record to the next, beside the text and the open blocks: the open style, and the skip counter.
#[derive(Clone, Copy, Default)]
pub struct Html {
    pub style: Style,
    pub skip: Skip,
}

// What Markdown keeps from one record to the next, beside the text.
#[derive(Clone, Copy, Default)]
pub struct Markdown {
    pub style: Style,
    pub skip: Skip,
    // the last start of a Section4 or ItemTerm was followed at once by an ItemTerm's end: the source's `empty_term`
    pub bare: bool,
    // how many Mono blocks are open
    pub mono: usize,
    // a DefinitionList was opened and none closed since
    pub listed: bool,
    // code lines are being written
    pub fenced: bool,
    // a Header was met
    pub titled: bool,
}
