// Reads a bundle from standard input and prints its figures as one line, or one refusal line.
#![tactic(auto)]

use figures::Figures;
use refusal::Refusal;
use std::io;
use std::io::Write;

// `documents 2 accepted 1 refused 1 characters 2` and a line end.
fn print_figures<W: Write>(writer: &mut W, figures: Figures) -> io::Result<()> {
    let Figures {
        documents,
        accepted,
        refused,
        characters,
    } = figures;
    writeln!(
        writer,
        "documents {documents} accepted {accepted} refused {refused} characters {characters}"
    )
}

// Prints the answer. An `Err` says that not all of it was written.
fn print_answer<W: Write>(writer: &mut W, answer: Result<Figures, Refusal>) -> io::Result<()> {
    match answer {
        Ok(f) => print_figures(writer, f),
        Err(a) => program::print_refusal(writer, a),
    }
}

fn show(rt: &HostRuntime, bundle: &[u8]) -> io::Result<()> {
    if print_answer(&mut rt.stdout(), figures::figures_of(bundle)).is_err() {
        return program::complain(
            &mut rt.stderr(),
            b"help_figures: writing to standard output failed\n",
        );
    }
    Ok(())
}

// One byte more than a bundle may have is read, so that a longer one is refused. `help_text` has a main of the same form: one function of both
// would take a reader, a writer, the buffer, two messages and what is shown, with a contract that tells which of these came about: more than a main.
// (An array: no heap is used, as in the library.)
fn main(rt: HostRuntime) -> io::Result<()> {
    let mut space = [0u8; 65537];
    let Ok(n) = program::read_input(&mut rt.stdin(), &mut space) else {
        return program::complain(
            &mut rt.stderr(),
            b"help_figures: reading standard input failed\n",
        );
    };
    show(&rt, &space[..n])
}
