// The splitter as in the source (src/buffer/splitter.rs): an iterator that holds a body and its tick state, over the step of the crate `splitter`. It
// also holds the place in the body where it stands, so that places of chunks count in the whole body.

#![tactic(auto)]

ghost use Rattle.std.specs.Prelude.{◌≡◌, length};
ghost use Rattle.std.specs.Iterator.{item_count};
ghost use Rattle.splitter.specs.Split.{split as split_of};
ghost use Rattle.splitter.specs.Answers.{start};
ghost use Rattle.splitter_iter.specs.InnerStruct.{splitter as splitter_at, left, Steps};

use splitter::{Cursor, Piece};

// A body, and the place in it up to which chunks were taken.
#[derive(Clone, Copy)]
pub struct Splitter<'a> {
    pub input: &'a [u8],
    pub cursor: Cursor,
}

// The splitter before a body's first chunk: all of the body's chunks are left.
pub fn split<'a>(input: &'a [u8]) -> Splitter<'a>
    ensures { (result ≡ splitter_at input.entry start) × (left result ≡ split_of input.now) }
{
    Splitter {
        input,
        cursor: Cursor::default(),
    }
}

// Each chunk that is left, with the cursor after it.
impl<'a> Iterator for Splitter<'a> {
    type Item = (Piece, Cursor);

    ghost next_gives = { Steps };

    ghost remaining = { item_count left };

    // the hint: splitter::step_at says why
    #[inline(always)]
    fn next(&mut self) -> Option<(Piece, Cursor)> {
        let (piece, after) = splitter::step_at(self.input, self.cursor)?;
        self.cursor = after;
        Some((piece, after))
    }
}

// How many chunks a body has.
pub fn count_chunks(body: &[u8]) -> usize
    ensures { result ≡ length (split_of body.now) }
{
    split(body).count()
}
