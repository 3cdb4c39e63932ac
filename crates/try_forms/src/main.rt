// Functions that hand back a part of a slice or lend a struct, run: some texts without a prefix, how many chunks some bodies have, and a skip
// counter's number after a paragraph, an InlineBlock's start and its end.
#![tactic(auto)]

use skip::Skip;
use std::io;
use std::io::Write;

// Writes each of some numbers on a line.
fn print_numbers<W: Write>(writer: &mut W, numbers: &[usize]) -> io::Result<()> {
    for n in numbers {
        writeln!(writer, "{n}")?;
    }
    Ok(())
}

// The text after two hyphens, all of it if they aren't there.
fn name<W: Write>(writer: &mut W, text: &[u8]) -> io::Result<()> {
    writer.write_all(splitter::strip_prefix(text, b"--"))
}

// A skip counter's number after a change.
fn changed<F: FnOnce(&mut Skip)>(n: usize, change: F) -> usize
    requires { F.IsAlwaysCallable change }
{
    let mut skip = Skip::from(n);
    change(&mut skip);
    usize::from(skip)
}

// A write that fails ends the program with its error.
fn main(rt: HostRuntime) -> io::Result<()> {
    let mut writer = rt.stdout();
    name(&mut writer, b"--port\n")?;
    name(&mut writer, b"-p\n")?;
    name(&mut writer, b"\n")?;
    print_numbers(
        &mut writer,
        &[
            splitter_iter::count_chunks(b""),
            splitter_iter::count_chunks(b"a b"),
            splitter_iter::count_chunks(b"a\n b\n\n"),
            splitter_iter::count_chunks(b"\n\n```\n\nx\n```\n"),
            changed(3, |s| s.enable()),
            changed(0, |s| s.push()),
            changed(3, |s| s.push()),
            changed(0, |s| s.pop()),
            changed(3, |s| s.pop()),
        ],
    )
}
