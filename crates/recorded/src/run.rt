// A list of cases run, and the line with the counts written.
ghost use Rattle.std.specs.Prelude.{OnOk};
ghost use Rattle.std.specs.Fn.{FnReturnsAt};
ghost use Rattle.recorded.specs.InnerTally.{Replays};
ghost use Rattle.recorded.specs.Told.{Told};

use crate::operation::Operation;
use crate::{output, tally};
use std::io;
use std::io::{Read, Write};

// Reads a list, runs each of its cases, and writes the line with the counts. A read or a write that fails is the answer.
// (An array: no heap is used, as in the library.)
pub fn run<R: Read, W: Write, F: Fn(&[u8]) -> bool>(
    reader: &mut R,
    writer: &mut W,
    names: &[(Operation, &[u8])],
    agrees: F,
) -> io::Result<()>
    requires { F.IsAlwaysCallable agrees }
    ensures { OnOk result (Told (Replays (R.remaining reader.old) (R.remaining reader.new) (FnReturnsAt F.Fn agrees)) names.now (W.contents writer.old) (W.contents writer.new)) }
{
    let mut space = [0u8; 65536];
    let replayed = tally::replay_all(reader, &mut space, agrees);
    output::print_replayed(writer, names, replayed)
}
