// A list of cases run, and what is counted of them.
ghost use Rattle.std.specs.Prelude.{◌≡◌, IfOk};
ghost use Rattle.std.specs.Fn.{FnReturnsAt};
ghost use Rattle.recorded.specs.InnerTally.{nothing_run, differed, tallied, Replays};

use crate::CALLS;
use crate::input::ListError;
use std::io::Read;

// How many cases are run of a list.
pub const LIMIT: u64 = 1_000_000;

// How many cases differ, and which is the first of them, counted from 1.
#[derive(Clone, Copy)]
pub struct Differences {
    pub count: u64,
    pub first: u64,
}

// How many calls there were by their number, how many cases, and whether some differ.
#[derive(Clone, Copy)]
pub struct Tally {
    pub counts: [u64; CALLS],
    pub cases: u64,
    pub differences: Option<Differences>,
}

// One more differs, the case with this number: the first that does is kept.
fn differed(before: Option<Differences>, number: u64) -> Differences
    ensures { result ≡ differed number before }
{
    match before {
        None => Differences {
            count: 1,
            first: number,
        },
        Some(d) => Differences {
            count: d.count.saturating_add(1),
            ..d
        },
    }
}

impl Tally {
    // No case was run. (No derived Default: it promises of the array that each element is a default, and `search` does not make `replicate` of that.)
    pub fn new() -> Self
        ensures { result ≡ nothing_run }
    {
        Tally {
            counts: [0; CALLS],
            cases: 0,
            differences: None,
        }
    }

    // One case more, and whether its call answered as it says.
    #[tactic(auto, unfolding(crate::specs::InnerTally::tallied, crate::proofs::Names::choose))]
    pub fn add(&mut self, case: &[u8], same: bool)
        ensures { self.new ≡ tallied self.old case.now same }
    {
        crate::count(&mut self.counts, case);
        self.cases = self.cases.saturating_add(1);
        if !same {
            self.differences = Some(differed(self.differences, self.cases));
        }
    }
}

// Reads the cases of a list, one after the other into a buffer, and runs each.
pub fn replay_all<R: Read, F: Fn(&[u8]) -> bool>(
    reader: &mut R,
    buffer: &mut [u8],
    agrees: F,
) -> Result<Tally, ListError>
    requires { F.IsAlwaysCallable agrees }
    ensures { IfOk result (Replays (R.remaining reader.old) (R.remaining reader.new) (FnReturnsAt F.Fn agrees)) }
{
    let mut tally = Tally::new();
    'cases: for _ in 0..LIMIT {
        let Some(n) = crate::input::next_case(reader, buffer)? else {
            return Ok(tally);
        };
        let case = &buffer[..n];
        let same = agrees(case);
        tally.add(case, same);
    }
    Ok(tally)
}
