// How much room to lend to the console.

#![tactic(auto)]

ghost use Rattle.std.specs.Prelude.{◌≡◌, ◌≤◌, length};
ghost use Rattle.console_bound.specs.Bound.{bound, room_bound};
ghost use Rattle.console_bound.specs.Answers.{Enough};
ghost use Rattle.refusal.specs.Answers.{answered};

use document::Accepted;
use records::{Block, Records};
use refusal::Refusal;

// The bound, counted in one pass over the records of a document that the check accepts.
fn bound_of(document: &Accepted) -> usize
    ensures { result ≡ bound document.now }
{
    let mut bytes: usize = 0;
    let mut refs: usize = 0;
    for r in Records::of(document.bytes()) {
        bytes += r.body.len();
        refs += usize::from(r.kind.is_of(Block::TermRef));
    }
    54 * bytes + refs + 1
}

// How much room to lend: 54 times the bytes of the document's text, plus the number of TermRef starts and ends, plus 1; or refusals 1 to 8.
pub fn room_bound(document: &[u8]) -> Result<usize, Refusal>
    ensures answer { answered result ≡ room_bound document.now }
    ensures enough { Enough document.now (answered result) }
{
    let accepted = Accepted::of(document)?;
    Ok(bound_of(&accepted))
}
