// Reads a list of cases, from standard input or another reader.
ghost use Rattle.std.specs.Prelude.{IfOk};
ghost use Rattle.recorded.specs.Spoken.{ReadsCase};

use std::io;
use std::io::Read;

// Why no case was read: a read failed, or the list is faulty.
#[derive(Debug, Drop)]
pub enum ListError {
    Io(io::Error),
    Faulty,
}

impl From<io::Error> for ListError {
    fn from(e: io::Error) -> Self {
        ListError::Io(e)
    }
}

// Reads the next case into a buffer, and says how many bytes it has, or that the list ends here.
pub fn next_case<R: Read>(reader: &mut R, buffer: &mut [u8]) -> Result<Option<usize>, ListError>
    ensures { IfOk result (ReadsCase (R.remaining reader.old) (R.remaining reader.new) buffer.new) }
{
    let mut short = [0u8; 1];
    if program::read_input(reader, &mut short)? == 0 {
        return Ok(None);
    }
    let mut n = usize::from(short[0]);
    if n == 255 {
        let mut four = [0u8; 4];
        if program::read_input(reader, &mut four)? < 4 {
            return Err(ListError::Faulty);
        }
        // No `u32::from_le_bytes`: the number is one by the rule of `records::four`, and a cast would follow.
        n = records::four(&four, 0);
    }
    if buffer.len() < n {
        return Err(ListError::Faulty);
    }
    if program::read_input(reader, &mut buffer[..n])? < n {
        return Err(ListError::Faulty);
    }
    Ok(Some(n))
}
