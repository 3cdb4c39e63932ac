// What the programs share: standard input read whole, what is said of a failure, and the refusal line.
#![tactic(auto)]

ghost use Rattle.std.specs.Prelude.{IfOk, OnOk};
ghost use Rattle.std.specs.Io.KnownBytes.{Appends};
ghost use Rattle.program.specs.Spoken.{ReadsInput, refusal_line};

use refusal::Refusal;
use std::io;
use std::io::{Read, Write};

// Reads until the buffer is full or the input ends, in pieces of any size, and says how many bytes were read. An `Err` is a read that failed.
pub fn read_input<R: Read>(reader: &mut R, buffer: &mut [u8]) -> io::Result<usize>
    ensures { IfOk result (ReadsInput (R.remaining reader.old) (R.remaining reader.new) buffer.new) }
{
    // A counter, since `read` tells a length; no method of `Read` stops both at a full buffer and at the input's end.
    let mut done: usize = 0;
    while done < buffer.len() {
        let n = reader.read(&mut buffer[done..])?;
        if n == 0 {
            return Ok(done);
        }
        done += n;
    }
    Ok(done)
}

// What is said of a failure, in bytes. It may fail too.
// (`write_all`, with what it promises of these bytes; `print_refusal` is one call too.)
pub fn complain<W: Write>(writer: &mut W, message: &[u8]) -> io::Result<()>
    ensures { OnOk result (Appends (W.contents writer.old) (W.contents writer.new) message.now) }
{
    writer.write_all(message)
}

// `refused 6 at 0` and a line end: the number, then the place.
pub fn print_refusal<W: Write>(writer: &mut W, a: Refusal) -> io::Result<()>
    ensures { OnOk result (Appends (W.contents writer.old) (W.contents writer.new) (refusal_line a)) }
{
    writeln!(writer, "{a}")
}
