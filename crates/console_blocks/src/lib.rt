// What the console does at the starts and ends of blocks (src/buffer/console.rs): backticks, flags, margins.

#![tactic(auto)]

ghost use Rattle.std.specs.Prelude.{◌≡◌, List, [], ℕ, ◌+◌, ◌≤◌, ◌<◌, ◌^◌, length, take};
ghost use Rattle.base.specs.Stack.{top, pushed, popped};
ghost use Rattle.console_rules.specs.Console.{tick, started as started_by, ended as ended_by};
ghost use Rattle.console_chunks.specs.InnerShown.{page_of, ruled, Fits64};
ghost use Rattle.console_blocks.specs.InnerDepth.{Shallow, Startable, Moved};

use console_chunks::Page;
use console_rules::{Bytes, Columns};
use records::Block;
use std::marker::Model;

// The margins that the open blocks pushed, the innermost last. Any number of slots will do; the console takes as many as blocks may be open.
// (Not the kit's `arrayvec::ArrayVec`: tried; the wrong program of must-fail/margins_that_were_popped, which reads what no longer counts, could not be
// written with it, and each wrong program is to stay. An own stack for both would be the array and the number alone: what is pushed and asked of the top
// differs.)
#[derive(Drop)]
pub struct Margins<const N: usize> {
    // fixed memory, of which the first `count` are in use: no heap, a rule of the project; numbers, as the rules' margins are
    columns: [usize; N],
    count: usize,
}

impl<const N: usize> Model for Margins<N> {
    ghost use Rattle.std.specs.Prelude.{List, ℕ, ◌≤◌, take};

    ghost Value = { List ℕ };

    ghost view = { λ s. take s.count s.columns };

    ghost invariant = { λ s. s.count ≤ N };
}

impl<const N: usize> Margins<N> {
    pub fn new() -> Margins<N>
        ensures { result ≡ [] }
    {
        Margins {
            columns: [0; N],
            count: 0,
        }
    }

    // Those of a list, whatever they are; of more than there are slots for, the first ones.
    pub fn of(kept: &[usize]) -> Margins<N>
        ensures { result ≡ take N kept.now }
    {
        let mut columns = [0; N];
        let count = kept.len().min(N);
        for i in 0..count {
            columns[i] = kept[i];
        }
        Margins { columns, count }
    }

    // The innermost; none is 0.
    pub fn top(&self) -> Columns
        ensures { result.0 ≡ top self.now }
    {
        Columns(self.columns[..self.count].last().copied().unwrap_or(0))
    }

    // A margin so far inside the innermost one, where there is a slot for it. The rules' numbers have no bound: the promise is theirs where the
    // code can hold the margin.
    pub fn push(&mut self, more: Columns)
        ensures pushes { length self.old < N → Fits64 (top self.old + more.0) → self.new ≡ pushed (top self.old + more.0) self.old }
        ensures counts { length self.new ≤ length self.old + 1 }
        ensures deeper { (n k : ℕ) → Shallow n self.old → n + more.0 ≤ k → Shallow k self.new }
    {
        let margin = console_chunks::plus(self.top(), more);
        if self.count < N {
            self.columns[self.count] = margin.0;
            self.count += 1;
        }
    }

    // 'every end pops one if there is one'
    pub fn pop(&mut self)
        ensures { self.new ≡ popped self.old }
    {
        self.count = self.count.saturating_sub(1);
    }
}

// A backtick, at once.
// `Moved` stands here and at the next two functions: it relates the lay before and after a call, which no invariant of one value says.
fn put_tick(page: &mut Page)
    ensures result_after { Fits64 (page.old.lay.column.0 + 1) → (kept : List ℕ) → page_of page.new kept ≡ ruled tick (page_of page.old kept) }
    ensures moved { Moved page.old.lay page.new.lay }
{
    page.len = Bytes(room::put(page.room, page.len.0, b'`'));
    page.lay.column = console_chunks::plus(page.lay.column, Columns(1));
}

// The start of a block, where `gap` says whether an adjacent gap lies ahead. The rules' numbers have no bound: the promise is theirs where there is a
// slot for one margin more and the code can hold the numbers; at every record of an accepted document it is so.
// The margins go beside the page: chunks are written at a margin that is handed over, whatever margins are kept.
pub fn started<const N: usize>(
    page: &mut Page,
    margins: &mut Margins<N>,
    b: Block,
    tab: Columns,
    gap: bool,
)
    ensures page_after { Startable N margins.old page.old.lay tab.0 → page_of page.new margins.new ≡ ruled (λ n. started_by n tab.0 b gap) (page_of page.old margins.old) }
    ensures counts { length margins.new ≤ length margins.old + 1 }
    ensures moved { Moved page.old.lay page.new.lay }
    ensures deeper { (n : ℕ) → Shallow n margins.old → Shallow (n + (tab.0 + 4)) margins.new }
{
    match b {
        Block::Header | Block::Section2 => {
            page.lay.newline = true;
            margins.push(Columns(0));
        }
        Block::Section3 => {
            page.lay.newline = true;
            margins.push(Columns(2));
        }
        Block::Section4 => {
            page.lay.newline = true;
            if gap {
                page.lay.gap = true;
                margins.push(Columns(4));
            } else {
                margins.push(Columns(2));
            }
        }
        Block::ItemTerm => {
            page.lay.newline = true;
            margins.push(Columns(4));
        }
        Block::ItemBody => {
            page.lay.gutter = true;
            margins.push(console_chunks::plus(tab, Columns(2)));
        }
        Block::Block => margins.push(Columns(0)),
        Block::InlineBlock => page.lay.skip.push(),
        Block::TermRef => put_tick(page),
        Block::DefinitionList | Block::Meta | Block::Mono => {}
    }
}

// The end of a block. It asks of the column what the start asks.
pub fn ended<const N: usize>(page: &mut Page, margins: &mut Margins<N>, b: Block)
    ensures page_after { Fits64 (page.old.lay.column.0 + 1) → page_of page.new margins.new ≡ ruled (λ n. ended_by n b) (page_of page.old margins.old) }
    ensures pops { margins.new ≡ popped margins.old }
    ensures moved { Moved page.old.lay page.new.lay }
{
    margins.pop();
    match b {
        Block::Section4 => {
            page.lay.passing = page.lay.gap;
            page.lay.gap = false;
        }
        Block::ItemBody => page.lay.gutter = false,
        Block::Block => {
            if page.lay.passing {
                page.lay.gap = false;
                page.lay.passing = false;
            } else {
                page.lay.blank = true;
            }
        }
        Block::InlineBlock => page.lay.skip.pop(),
        Block::TermRef => put_tick(page),
        _ => {}
    }
}
