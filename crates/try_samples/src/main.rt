// Runs the samples of 01 and the examples of its refusal table. They stand in a list on standard input, whose first lines tell its
// form. Prints the number of each line with an answer that differs, and one line with the counts.
#![tactic(auto)]

use compared::{Refused, byte_or};
use room::Text;
use sample_lines::Tally;
use splitter::Cursor;
use std::io;
use std::io::Write;

mod output;

// Where the list stands, and where its answers that differ are written.
#[derive(Drop)]
struct State<'a, W> {
    writer: &'a mut W,
    line: u64,
    // the document so far, and the cursor after the chunks of it that were compared
    document: Text<'a>,
    cursor: Cursor,
    // what a call is given, and what is wanted of it: a refusal, or the first bytes of `text`, so many
    width: usize,
    room: usize,
    wanted: Result<usize, Refused>,
    text: &'a mut [u8],
    tally: Tally,
}

impl<'a, W: Write> State<'a, W> {
    // Before the first line.
    fn new(writer: &'a mut W, document: &'a mut [u8], text: &'a mut [u8]) -> State<'a, W> {
        State {
            writer,
            line: 0,
            document: Text::new(document),
            cursor: Cursor::default(),
            width: 100,
            room: 512,
            wanted: Ok(0),
            text,
            tally: Tally::default(),
        }
    }

    // One answer was compared. Writes the number of the line where it differs.
    fn count(&mut self, same: bool) -> io::Result<()> {
        self.tally.add(same);
        if !same {
            output::report(&mut *self.writer, self.line)?;
        }
        Ok(())
    }

    // Whether the call of a letter answers as wanted.
    fn agrees(&self, letter: u8) -> bool {
        let document = written(&self.document);
        sample_calls::agrees_in(
            letter,
            self.width,
            self.room,
            document,
            self.wanted,
            &*self.text,
        )
    }

    // The line `>`: a call for each letter.
    fn compare_calls(&mut self, line: &[u8]) -> io::Result<()> {
        for letter in base::get_from(line, 2) {
            let same = self.agrees(*letter);
            self.count(same)?;
        }
        Ok(())
    }

    // The line `@`: where the next chunk begins.
    fn compare_place(&mut self, line: &[u8]) -> io::Result<()> {
        let Some((piece, _)) = splitter::step_at(written(&self.document), self.cursor) else {
            return self.count(false);
        };
        let same = piece.place_of() == sample_lines::number(line);
        self.count(same)
    }

    // The lines `~`, `P` and `B`, a chunk, and `.`, which says that there is no further one.
    fn compare_chunk(&mut self, line: &[u8]) -> io::Result<()> {
        let body = written(&self.document);
        let Some((piece, next)) = splitter::step_at(body, self.cursor) else {
            return self.count(byte_or(line, 0, 0) == b'.');
        };
        let same = sample_lines::is_chunk(line, body, piece);
        self.cursor = next;
        self.count(same)
    }

    // The line `!`: the wanted refusal and its place.
    fn want_refusal(&mut self, line: &[u8]) {
        let (number, place) = sample_lines::two_numbers(line);
        self.wanted = Err(Refused { number, place });
    }

    // The line `D`: an empty document.
    // (The length is set, as `merge_items` does with its key: a method of `Text` would be this one assignment.)
    fn empty(&mut self) {
        self.document.len = 0;
        self.cursor = Cursor::default();
    }

    // The line `=`: the wanted text.
    fn want_text(&mut self, line: &[u8]) {
        let text = &mut *self.text;
        self.wanted = Ok(sample_calls::put_wanted(text, line));
    }

    // A line that changes the document or what a call is given. One with a letter that has no meaning counts as an answer that differs.
    fn prepare(&mut self, line: &[u8]) -> io::Result<()> {
        match byte_or(line, 0, 0) {
            b'D' => self.empty(),
            b'T' | b'E' | b'L' | b'M' | b'I' | b'(' | b')' | b'+' | b'Z' => {
                sample_lines::add(line, &mut self.document);
            }
            b'w' => self.width = sample_lines::number(line),
            b'r' => self.room = sample_lines::number(line),
            b'!' => self.want_refusal(line),
            b'=' => self.want_text(line),
            _ => return self.count(false),
        }
        Ok(())
    }

    // Does what a line says.
    fn obey(&mut self, line: &[u8]) -> io::Result<()> {
        match byte_or(line, 0, 0) {
            0 | b'#' => Ok(()),
            b'>' => self.compare_calls(line),
            b'@' => self.compare_place(line),
            b'~' | b'P' | b'B' | b'.' => self.compare_chunk(line),
            _ => self.prepare(line),
        }
    }
}

// The bytes that a text has.
// (No method of `Text`: but for this program `merge_items` alone, which knows that its key fits, reads a text that is not finished.)
fn written<'b>(t: &'b Text) -> &'b [u8] {
    base::get(&*t.room, 0, t.len)
}

// Runs a list, and says what was counted.
fn run<W: Write>(
    writer: &mut W,
    list: &[u8],
    document: &mut [u8],
    text: &mut [u8],
) -> io::Result<Tally> {
    let mut state = State::new(writer, document, text);
    for ended in list.split_inclusive(|b| *b == b'\n') {
        // What follows the last line end is no line.
        let Some(line) = ended.strip_suffix(b"\n") else {
            break;
        };
        state.line = state.line.wrapping_add(1);
        state.obey(line)?;
    }
    Ok(state.tally)
}

// Reads the list from standard input, 65,536 bytes at most, and runs it. A write that fails ends the program with its error. The arrays have
// a size, as the library's have: no heap is used. (`help_figures` says why each program has a main of its own.)
fn main(rt: HostRuntime) -> io::Result<()> {
    let mut list = [0u8; 65536];
    let Ok(n) = program::read_input(&mut rt.stdin(), &mut list) else {
        return program::complain(
            &mut rt.stderr(),
            b"try_samples: reading standard input failed\n",
        );
    };
    let mut document = [0u8; 33000];
    let mut text = [0u8; 512];
    let mut writer = rt.stdout();
    let tally = run(&mut writer, &list[..n], &mut document, &mut text)?;
    output::print_tally(&mut writer, tally)
}
