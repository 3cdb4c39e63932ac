// Runs of words and spaces that go into a room as they stand, copied in the pass that looks for the end of their line.

#![tactic(auto)]

ghost use Rattle.std.specs.Prelude.{◌≡◌, true, false, ◌≤◌, length, take};
ghost use Rattle.utf8.specs.Utf8.{characters};
ghost use Rattle.room.specs.Lent.{text_of, with_bytes};
ghost use Rattle.splitter.specs.Split.{is_line_end_or_space};
ghost use Rattle.words.specs.InnerCopies.{NoLineEnd, LastBlock, Copying, Stopped, AfterSpace, Whole, Copies, Follows};

use room::Text;
use utf8::Part;

// How many bytes a run has, and its width.
#[derive(Clone, Copy)]
pub struct Run {
    pub len: usize,
    pub width: usize,
}

// Whether a byte ends a word.
fn ends_word(x: u8) -> bool
    ensures { result ≡ is_line_end_or_space x }
{
    x == b'\n' || x == b' '
}

// The three functions below take a block of 16 bytes, and the compiler makes a few instructions of each. With the copy of byte after byte
// alone, `copy_bytes`, the console takes 1.07 to 1.38 of the time, and Markdown 1.01 to 1.55.

// Whether a line end stands among 16 bytes.
fn has_line_end(block: &[u8; 16]) -> bool
    ensures none { result ≡ false → NoLineEnd block.now 0 16 }
    ensures one { result ≡ true → NoLineEnd block.now 0 16 → ⊥ }
{
    base::any(block, |x| x == b'\n')
}

// How many of 16 bytes start a character.
fn count(block: &[u8; 16]) -> u8
    ensures { result ≡ characters block.now }
{
    base::few(block, &utf8::starts_character)
}

// Copies 16 bytes to the first 16 that are free.
fn copy_block(free: &mut [u8], block: &[u8; 16])
    requires { 16 ≤ length free.old }
    ensures { take 16 free.new ≡ block.now }
{
    if let Some(to) = free.first_chunk_mut::<16>() {
        *to = *block;
    }
}

// Copies whole blocks of 16 bytes, up to one with a line end in it.
// By places: of what a slice ends as whose blocks `as_chunks_mut` lends, its contract says nothing. A block is counted before it is copied, since it would be
// read again after the copy.
fn copy_blocks(free: &mut [u8], text: &[u8]) -> Run
    requires { length text.now ≤ length free.old }
    ensures copying { Copying text.now free.old free.new result.len result.width }
    ensures last { LastBlock text.now result.len }
{
    let mut len = 0;
    let mut width: usize = 0;
    while let Some(block) = text[len..].first_chunk::<16>() {
        if has_line_end(block) {
            break;
        }
        width += usize::from(count(block));
        copy_block(&mut free[len..], block);
        len += 16;
    }
    Run { len, width }
}

// Copies bytes one by one, up to a line end.
fn copy_bytes(free: &mut [u8], text: &[u8]) -> Run
    requires { length text.now ≤ length free.old }
    ensures copying { Copying text.now free.old free.new result.len result.width }
    ensures stopped { Stopped text.now result.len }
{
    let mut width: usize = 0;
    for (len, &x) in text.iter().enumerate() {
        if x == b'\n' {
            return Run { len, width };
        }
        free[len] = x;
        width += usize::from(utf8::starts_character(x));
    }
    Run {
        len: text.len(),
        width,
    }
}

// Copies n bytes, up to a line end, none of which lies past a block of 16: by that one block where text and free part both go on for 16 bytes, whatever
// follows the n bytes there. Free bytes past the n may be written too.
fn copy_last(free: &mut [u8], text: &[u8], n: usize) -> Run
    requires { (n ≤ length text.now) × (n ≤ length free.old) × LastBlock (take n text.now) 0 }
    ensures copying { Copying (take n text.now) free.old free.new result.len result.width }
    ensures stopped { Stopped (take n text.now) result.len }
{
    match text.first_chunk::<16>() {
        Some(block) if 16 <= free.len() => {
            let part = utf8::front(block, b'\n', b'\n', n);
            copy_block(free, block);
            Run {
                len: part.len,
                width: part.width,
            }
        }
        _ => copy_bytes(&mut free[..n], &text[..n]),
    }
}

// The bytes of a line after its last space: how many, and their characters. All of them where it has none.
// The last 16 are taken as one block first, since few words are longer; where no space stands among them, the line is taken byte by byte.
fn after_space(line: &[u8]) -> Part
    ensures { AfterSpace line.now result.len result.width }
{
    if let Some(block) = line.last_chunk::<16>() {
        let part = utf8::back(block, b' ');
        if part.len < 16 {
            return part;
        }
    }
    let from = match line.iter().rposition(|x| *x == b' ') {
        Some(i) => i + 1,
        None => 0,
    };
    Part {
        len: line.len() - from,
        width: utf8::count(&line[from..]),
    }
}

// A run without the word that it cuts in two, if it does: back to the last space.
fn whole_words(text: &[u8], run: Run) -> Run
    requires { (run.len ≤ length text.now) × (characters (take run.len text.now) ≡ run.width) × NoLineEnd text.now 0 run.len }
    ensures { Whole text.now run.len result.len result.width }
{
    if text.len() <= run.len || ends_word(text[run.len]) {
        return run;
    }
    let part = after_space(&text[..run.len]);
    Run {
        len: run.len - part.len,
        width: run.width - part.width,
    }
}

// Copies the words and spaces at the start of a text, outside ticks, into what is free of a room: as many as end by a line end, within `most`
// bytes and within the room. The text is the bytes before `end`; those from there on are what follows it, so that the last bytes go by a whole block too.
// Free bytes past the run may be written too. Both slices are cut to one length for `copy_blocks`, which the compiler then tests once for each block: the
// console takes 0.97 to 1.02 of the time by that and by the order there, Markdown 0.95 to 1.01.
pub fn copy_run(free: &mut [u8], text: &[u8], end: usize, most: usize) -> Run
    ensures { Copies (take end text.now) most free.old free.new result.len result.width }
{
    let line = &text[..end.min(text.len())];
    let n = most.min(free.len()).min(line.len());
    let blocks = copy_blocks(&mut free[..n], &text[..n]);
    let last = copy_last(&mut free[blocks.len..], &text[blocks.len..], n - blocks.len);
    let run = Run {
        len: blocks.len + last.len,
        width: blocks.width + last.width,
    };
    whole_words(line, run)
}

// The same after what is written in a room; where the room is too small already, none.
// The fields of the text are used here: what is copied past the run is no write of it, so no method writes it.
pub fn put_run(t: &mut Text, text: &[u8], end: usize, most: usize) -> Run
    ensures puts { text_of t.new ≡ with_bytes (take result.len text.now) (text_of t.old) }
    ensures run { Follows (take end text.now) most (text_of t.old) result.len result.width }
{
    if t.is_full() {
        return Run { len: 0, width: 0 };
    }
    let len = t.len;
    let room = &mut *t.room;
    let run = copy_run(&mut room[len..], text, end, most);
    t.len = len + run.len;
    run
}
