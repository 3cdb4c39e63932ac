// The line with the counts, on standard output or another writer.
ghost use Rattle.std.specs.Prelude.{◌≡◌, ◌++◌, IfOk, OnOk, Err, decimal};
ghost use Rattle.std.specs.List.{flat_map};
ghost use Rattle.std.specs.Io.KnownBytes.{Appends};
ghost use Rattle.recorded.specs.Spoken.{differences_line, count_text, tally_line, faulty_line};

use crate::CALLS;
use crate::input::ListError;
use crate::operation::Operation;
use crate::tally::{Differences, Tally};
use std::io;
use std::io::Write;

// Writes a name and a count.
pub fn print_count<W: Write>(writer: &mut W, name: &[u8], n: u64) -> io::Result<()>
    ensures { OnOk result (Appends (W.contents writer.old) (W.contents writer.new) (name.now ++ decimal n)) }
{
    writer.write_all(name)?;
    write!(writer, "{n}")
}

// Writes how many cases differ, and which is the first of them, counted from 1.
pub fn print_differences<W: Write>(
    writer: &mut W,
    differences: Option<Differences>,
) -> io::Result<()>
    ensures { OnOk result (Appends (W.contents writer.old) (W.contents writer.new) (differences_line differences)) }
{
    let Some(Differences { count, first }) = differences else {
        return writer.write_all(b"differences 0\n");
    };
    writeln!(writer, "differences {count}, the first is case {first}")
}

// Writes some names, each with how many calls there were of what it stands for.
fn print_counts<W: Write>(
    writer: &mut W,
    names: &[(Operation, &[u8])],
    counts: &[u64; CALLS],
) -> io::Result<()>
    ensures { OnOk result (Appends (W.contents writer.old) (W.contents writer.new) (flat_map (count_text counts.now) names.now)) }
{
    for name in names {
        // `as`, the conversion that an enum has to its number
        print_count(writer, name.1, counts[name.0 as usize])?;
    }
    Ok(())
}

// Writes the line with the counts, or that the list is faulty. Where a read failed, it fails likewise.
pub fn print_replayed<W: Write>(
    writer: &mut W,
    names: &[(Operation, &[u8])],
    replayed: Result<Tally, ListError>,
) -> io::Result<()>
    ensures line { IfOk replayed (λ t. OnOk result (Appends (W.contents writer.old) (W.contents writer.new) (tally_line names.now t))) }
    ensures faulty { replayed ≡ Err ListError.Faulty → OnOk result (Appends (W.contents writer.old) (W.contents writer.new) faulty_line) }
    ensures failed { (e : _) → replayed ≡ Err (ListError.Io e) → result ≡ Err e }
{
    match replayed {
        Ok(tally) => {
            print_counts(writer, names, &tally.counts)?;
            writer.write_all(b"; ")?;
            print_differences(writer, tally.differences)
        }
        Err(ListError::Faulty) => writer.write_all(b"the list is faulty\n"),
        Err(ListError::Io(e)) => Err(e),
    }
}
