// Reads a document from standard input and prints its full console text for width 100, or one refusal line.
#![tactic(auto)]

use refusal::Refusal;
use std::io;
use std::io::Write;

// Prints the answer. An `Err` says that not all of it was written.
fn print_answer<W: Write>(
    writer: &mut W,
    answer: Result<usize, Refusal>,
    room: &[u8],
) -> io::Result<()> {
    match answer {
        Ok(n) => writer.write_all(base::get(room, 0, n)),
        Err(a) => program::print_refusal(writer, a),
    }
}

// The text of a document in a room of 65,536 bytes.
// (An array: no heap is used, as in the library.)
fn show(rt: &HostRuntime, document: &[u8]) -> io::Result<()> {
    let mut room = [0u8; 65536];
    let answer = console::monochrome(document, true, &mut room);
    if print_answer(&mut rt.stdout(), answer, &room).is_err() {
        return program::complain(
            &mut rt.stderr(),
            b"help_text: writing to standard output failed\n",
        );
    }
    Ok(())
}

// One byte more than a document may have is read, so that a longer one is refused.
// (`help_figures` has a main of the same form, and says why there are two.)
fn main(rt: HostRuntime) -> io::Result<()> {
    let mut space = [0u8; 32769];
    let Ok(n) = program::read_input(&mut rt.stdin(), &mut space) else {
        return program::complain(
            &mut rt.stderr(),
            b"help_text: reading standard input failed\n",
        );
    };
    show(&rt, &space[..n])
}
