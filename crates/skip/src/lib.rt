// The skip counter (src/buffer.rs, `Skip`).

#![tactic(auto)]

ghost use Rattle.std.specs.Prelude.{◌≡◌};
ghost use Rattle.records.specs.declared.Block.TheVariants as block;
ghost use Rattle.skip.specs.Counter.{hides, skip_paragraph, skip_start, skip_end};
ghost use Rattle.skip.specs.Answers.{new_if_fits};

use records::Block;
use std::marker::Model;

// Rules and contracts see it as its number.
#[derive(Clone, Copy)]
pub struct Skip {
    depth: usize,
}

impl Model for Skip {
    ghost use Rattle.std.specs.Prelude.{ℕ};

    ghost Value = { ℕ };

    ghost view = { λ s. s.depth };

    ghost inverse = { λ n. record { depth = n } };
}

// Nothing is hidden. By hand, since a derived one speaks of the private field, and `html_rules` has the counter in structs with a Default.
impl Default for Skip {
    ghost is_default = { λ s. s ≡ 0 };

    fn default() -> Skip {
        Skip { depth: 0 }
    }
}

impl From<usize> for Skip {
    ghost from_gives = { λ n s. s ≡ n };

    fn from(depth: usize) -> Skip {
        Skip { depth }
    }
}

impl From<Skip> for usize {
    ghost from_gives = { λ s n. n ≡ s };

    fn from(s: Skip) -> usize {
        s.depth
    }
}

impl Skip {
    // Nothing is hidden.
    pub fn new() -> Skip
        ensures { result ≡ 0 }
    {
        Skip::default()
    }

    // Whether text is hidden.
    pub fn enabled(&self) -> bool
        ensures { result ≡ hides self.now }
    {
        self.depth > 0
    }

    // By value: a paragraph with `full` off.
    pub fn started(self) -> Skip
        ensures { result ≡ skip_paragraph self }
    {
        Skip { depth: 1 }
    }

    // The start of an InlineBlock.
    pub fn pushed(self) -> Skip
        ensures { result ≡ new_if_fits self (skip_start block.InlineBlock self) }
    {
        if self.depth > 0 {
            let depth = self.depth.saturating_add(1);
            return Skip { depth };
        }
        self
    }

    // The end of an InlineBlock.
    pub fn popped(self) -> Skip
        ensures { result ≡ skip_end block.InlineBlock self }
    {
        let depth = self.depth.saturating_sub(1);
        Skip { depth }
    }

    // Lent, as in the source: each is one assignment.
    pub fn enable(&mut self)
        ensures { self.new ≡ skip_paragraph self.old }
    {
        *self = self.started();
    }

    pub fn push(&mut self)
        ensures { self.new ≡ new_if_fits self.old (skip_start block.InlineBlock self.old) }
    {
        *self = self.pushed();
    }

    pub fn pop(&mut self)
        ensures { self.new ≡ skip_end block.InlineBlock self.old }
    {
        *self = self.popped();
    }

    // The start of a block. It and `end` are two, as `push` and `pop` in the source are: one function would have to be told which of the two to call.
    pub fn start(&mut self, b: Block)
        ensures { self.new ≡ new_if_fits self.old (skip_start b self.old) }
    {
        if b == Block::InlineBlock {
            self.push();
        }
    }

    // The end of a block.
    pub fn end(&mut self, b: Block)
        ensures { self.new ≡ skip_end b self.old }
    {
        if b == Block::InlineBlock {
            self.pop();
        }
    }
}
