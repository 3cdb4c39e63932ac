// What is written, to standard output or another writer.
use sample_lines::Tally;
use std::io;
use std::io::Write;

// Writes the number of a line whose answer differs.
pub(crate) fn report<W: Write>(writer: &mut W, line: u64) -> io::Result<()> {
    writeln!(writer, "line {line} differs")
}

// Writes how many answers were compared, and how many of them differ.
pub(crate) fn print_tally<W: Write>(writer: &mut W, tally: Tally) -> io::Result<()> {
    let Tally { compared, differ } = tally;
    writeln!(writer, "{compared} answers compared, {differ} differ")
}
