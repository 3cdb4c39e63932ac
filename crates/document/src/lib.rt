// The check of a stored document: refusals 1 to 8.

#![tactic(auto)]

ghost use Rattle.std.specs.Prelude.{◌≡◌, [], ◌+◌, ◌<◌, ◌≤◌, ◌&&◌, leb, eqb, length, OnOk, OnErr, IfOk, MatchResult, min, take, map, set};
ghost use Rattle.base.specs.Result.{gives};
ghost use Rattle.base.specs.Stack.{top, pushed, popped};
ghost use Rattle.refusal.specs.Answers.{answered};
ghost use Rattle.records.specs.Records.{index};
ghost use Rattle.document.specs.Document.{opens, closes, open_blocks, check, max_bytes, max_open};
ghost use Rattle.document.specs.Answers.{verdict_of, checked, Counted};

use records::{Block, Kind};
use refusal::Refusal;
use std::marker::Model;

// 'At most 32,768 bytes'
pub const MAX_BYTES: usize = 32_768;

// 'At most .. 32 open blocks'
pub const MAX_OPEN: usize = 32;

// The blocks that are open, the innermost last, in fixed memory (no heap, a rule of the project), of which the first `depth` count. Any number of slots will
// do; a check takes as many as blocks may be open.
// (Not the kit's `arrayvec::ArrayVec`: tried, it proves, but its `pop` overwrites what goes, two instructions at each block's end: 1.1 % of the check of a
// page of options.)
#[derive(Drop)]
pub struct OpenBlocks<const N: usize> {
    blocks: [Block; N],
    depth: usize,
}

impl<const N: usize> Model for OpenBlocks<N> {
    ghost use Rattle.std.specs.Prelude.{List, ℕ, ◌≤◌, ◌≡◌, map, take, length};
    ghost use Rattle.records.specs.Records.{index};

    ghost Value = { List ℕ };

    ghost view = { λ s. take s.depth (map index s.blocks) };

    ghost invariant = { λ s. (s.depth ≤ N) × (length s.blocks ≡ N) };
}

impl<const N: usize> OpenBlocks<N> {
    pub fn new() -> OpenBlocks<N>
        ensures { result ≡ [] }
    {
        OpenBlocks {
            blocks: [Block::Header; N],
            depth: 0,
        }
    }

    // How many are open. (As the length of what counts, and `pop` asks it: at a body that uses the field alone the kit's borrow checker ends with the error
    // that it was not told which modules hold the type `records::Block`.)
    pub fn depth(&self) -> usize
        ensures { (result ≡ length self.now) × (result ≤ N) }
    {
        self.blocks[..self.depth].len()
    }

    // Whether the innermost is this one.
    pub fn is_innermost(&self, b: Block) -> bool
        ensures { result ≡ (leb 1 (length self.now) && eqb (top self.now) (index b)) }
    {
        self.blocks[..self.depth].last() == Some(&b)
    }

    // One more, where there is a slot for it; else they stay as they are.
    pub fn push(&mut self, b: Block)
        ensures one_more { length self.old < N → self.new ≡ pushed (index b) self.old }
        ensures full { N ≤ length self.old → self.new ≡ self.old }
    {
        if self.depth < N {
            self.blocks[self.depth] = b;
            self.depth += 1;
        }
    }

    // Without the innermost, if there is one.
    pub fn pop(&mut self)
        ensures { self.new ≡ popped self.old }
    {
        self.depth = self.depth().saturating_sub(1);
    }

    // Refusal 7: a block's start. With fewer slots than 32 it is refused where none is left.
    pub fn open(&mut self, b: Block, at: usize) -> Result<(), Refusal>
        ensures opened { max_open ≤ N → verdict_of result self.new ≡ opens at (index b) self.old }
        ensures one_more { OnOk result (self.new ≡ pushed (index b) self.old) }
        ensures kept { OnErr result (self.new ≡ self.old) }
    {
        if MAX_OPEN.min(N) <= self.depth() {
            return Err(Refusal::TooDeep(at));
        }
        self.push(b);
        Ok(())
    }

    // Refusal 6: a block's end.
    pub fn close(&mut self, b: Block, at: usize) -> Result<(), Refusal>
        ensures closed { verdict_of result self.new ≡ closes at (index b) self.old }
        ensures kept { OnErr result (self.new ≡ self.old) }
    {
        if !self.is_innermost(b) {
            return Err(Refusal::WrongEnd(at));
        }
        self.pop();
        Ok(())
    }
}

// Refusal 7 of a block's start, with the blocks that are open in the first `depth` slots, or in all where it says more: how many are open after it. (This and
// `close_block` do what `OpenBlocks::open` and `close` do, for who keeps the slots and the count apart: with those, so with one struct of the array and
// the count, the count stays in memory, and the check of a page of options runs 6 % more instructions.)
pub fn open_block(
    blocks: &mut [Block; MAX_OPEN],
    depth: usize,
    b: Block,
    at: usize,
) -> Result<usize, Refusal>
    ensures counted { Counted (opens at (index b) (take depth (map index blocks.old))) blocks.new result }
    ensures written { MatchResult result (λ d. (d ≡ depth + 1) × (blocks.new ≡ set blocks.old depth b)) (λ r. blocks.new ≡ blocks.old) }
    ensures long { length blocks.new ≡ max_open }
{
    if MAX_OPEN <= depth {
        return Err(Refusal::TooDeep(at));
    }
    blocks[depth] = b;
    Ok(depth + 1)
}

// Refusal 6 of a block's end, where no more count than there are slots.
fn close_top(
    blocks: &[Block; MAX_OPEN],
    depth: usize,
    b: Block,
    at: usize,
) -> Result<usize, Refusal>
    requires { depth ≤ max_open }
    ensures counted { Counted (closes at (index b) (take depth (map index blocks.now))) blocks.now result }
    ensures fewer { IfOk result (λ d. d + 1 ≡ depth) }
{
    if depth == 0 || blocks[depth - 1] != b {
        return Err(Refusal::WrongEnd(at));
    }
    Ok(depth - 1)
}

// Refusal 6 of a block's end, in the same way as `open_block`. (The check of a document, which knows that no more count than there are slots, calls
// `close_top`: by this, so by the lesser of two numbers, the check of a page of options runs 4 % more instructions.)
pub fn close_block(
    blocks: &[Block; MAX_OPEN],
    depth: usize,
    b: Block,
    at: usize,
) -> Result<usize, Refusal>
    ensures counted { Counted (closes at (index b) (take depth (map index blocks.now))) blocks.now result }
    ensures fewer { IfOk result (λ d. d + 1 ≡ min depth max_open) }
{
    close_top(blocks, depth.min(MAX_OPEN), b, at)
}

// Refusals 2 to 7 of a document, in one pass, and its blocks that are left open. No `for` over `Records`, which tests again what `fits_at` has tested: with
// that the check of a page of options took 1.45 of the time. A text is tested with what stands before it: its own kind and length, six bytes, are ASCII where
// it is short, and so it is tested in one piece. After a block's start or end the next record stands where its body would start, since it has none: so the
// place does not wait for the length that was read. No function of its own for refusals 3 to 7 of a record: with one, whose result is passed on by `?`, the
// check of a page of options runs 3 % more instructions.
pub fn open_blocks(document: &[u8]) -> Result<OpenBlocks<MAX_OPEN>, Refusal>
    ensures { answered result ≡ open_blocks document.now }
{
    let mut blocks: [Block; MAX_OPEN] = [Block::Header; MAX_OPEN];
    let mut depth: usize = 0;
    let mut at: usize = 0;
    while at < document.len() {
        if !records::fits_at(document, at) {
            return Err(Refusal::CutShort(at));
        }
        let h = records::whole_at(document, at);
        let size = h.next - h.start;
        match h.kind {
            Kind::Unknown => return Err(Refusal::UnknownKind(at)),
            Kind::Text(_) if !utf8::valid_last(&document[..h.next], size) => {
                return Err(Refusal::NotUtf8(at));
            }
            Kind::Text(_) => at = h.next,
            Kind::Start(b) if size == 0 => {
                depth = open_block(&mut blocks, depth, b, at)?;
                at = h.start;
            }
            Kind::End(b) if size == 0 => {
                depth = close_top(&blocks, depth, b, at)?;
                at = h.start;
            }
            Kind::Start(_) | Kind::End(_) => return Err(Refusal::BlockWithBody(at)),
        }
    }
    Ok(OpenBlocks { blocks, depth })
}

// Refusals 1 to 8 of a document.
pub fn check(document: &[u8]) -> Result<(), Refusal>
    ensures { verdict_of result [] ≡ check document.now }
{
    if MAX_BYTES < document.len() {
        return Err(Refusal::TooLong);
    }
    let blocks = open_blocks(document)?;
    if blocks.depth() != 0 {
        return Err(Refusal::LeftOpen(document.len()));
    }
    Ok(())
}

// A document that the check accepts. Who walks over one takes this, and asks nothing of the bytes.
#[derive(Drop)]
pub struct Accepted<'a> {
    bytes: &'a [u8],
}

impl<'a> Model for Accepted<'a> {
    ghost use Rattle.std.specs.Prelude.{List, [], ℕ, ◌≡◌};
    ghost use Rattle.base.specs.Result.{gives};
    ghost use Rattle.document.specs.Document.{check};

    ghost Value = { List ℕ };

    ghost view = { λ s. s.bytes.now };

    ghost invariant = { λ s. check s.bytes.now ≡ gives [] };
}

impl<'a> Accepted<'a> {
    // The document, or why it is refused.
    pub fn of(document: &'a [u8]) -> Result<Accepted<'a>, Refusal>
        ensures { answered result ≡ checked document.now }
    {
        check(document)?;
        Ok(Accepted { bytes: document })
    }

    // Its bytes.
    pub fn bytes(&self) -> &'a [u8]
        ensures same { result.now ≡ self.now }
        ensures accepted { check result.now ≡ gives [] }
        ensures short { length result.now ≤ max_bytes }
    {
        self.bytes
    }
}
