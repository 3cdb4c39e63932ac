// How the console writes chunks (src/buffer/console.rs): what is due before a chunk, the fold, the margin, and the pieces of a body.

#![tactic(auto)]

ghost use Rattle.std.specs.Prelude.{◌≡◌, ℕ, ◌+◌, ◌-◌, ◌^◌, ◌<◌, ◌≤◌, true, false, ◌||◌, List, length};
ghost use Rattle.base.specs.Result.{gives, refused};
ghost use Rattle.base.specs.Bytes.{ends_with};
ghost use Rattle.room.specs.Room.{seen};
ghost use Rattle.room.specs.Lent.{Given, lent_empty, is_empty};
ghost use Rattle.white.specs.White.{trim};
ghost use Rattle.splitter.specs.Split.{paragraph};
ghost use Rattle.renderer.specs.Walk.{with_out};
ghost use Rattle.splitter.specs.Split.{is_space};
ghost use Rattle.console_rules.specs.Console.{blank_lay, measure_of, folds, line_end, due_line, due_blank, reach, pad_gutter, place, put, raw_chunk, chunk, finish};
ghost use Rattle.console_chunks.specs.InnerShown.{text_in, page_of, ruled, after, Fits64, Near};

use console_rules::{Bytes, Columns, Lay, MAX_MISSING, MAX_TABSTOP, Measure, Settings};
use refusal::Refusal;

// A text in a lent room, its length in bytes, and what is kept beside it. A length past the room says that the text was longer than the room.
// The room and the length stand here and in no `room::Text` of their own: of a struct within a struct the room's lender learns nothing.
// So the functions of `room` get both, and `is_full`, `is_empty`, `ends_with` are methods here too: a `Text` for one call would be taken apart after it.
// The settings are handed on and no field: each contract would say besides that they stay.
#[derive(Drop)]
pub struct Page<'a> {
    pub room: &'a mut [u8],
    pub len: Bytes,
    pub lay: Lay,
}

// A chunk that is a text: where it begins in the document, its bytes and its width.
#[derive(Clone, Copy)]
pub struct Chunk<'a> {
    pub at: usize,
    pub text: &'a [u8],
    pub width: Columns,
}

// No method, as the next ones: `Columns` and `Settings` stand beside the rules, in a crate without functions.
// A sum of columns. One of 2^64 or more wraps: in no walk over the records of an accepted document is there one.
pub fn plus(a: Columns, b: Columns) -> Columns
    ensures result_value { a.0 + b.0 < 2 ^ 64 → result.0 ≡ a.0 + b.0 }
    ensures most { result.0 ≤ a.0 + b.0 }
{
    Columns(a.0.wrapping_add(b.0))
}

// The columns that are missing to a margin.
fn missing_to(margin: Columns, column: Columns) -> Columns
    ensures { result.0 ≡ margin.0 - column.0 }
{
    Columns(margin.0.saturating_sub(column.0))
}

// Whether a chunk is just one space.
fn is_space(text: &[u8]) -> bool
    ensures { result ≡ is_space text.now }
{
    text == b" ".as_slice()
}

// What a chunk counts for in the fold test.
fn measure_of(set: Settings, text: &[u8]) -> Bytes
    ensures { result.0 ≡ measure_of set text.now }
{
    match set.measure {
        Measure::Bytes => Bytes(text.len()),
        Measure::Characters => Bytes(utf8::count(text)),
    }
}

// The fold test, the one place where columns and bytes are added. Where it fails their sum is at most a width, so that it is a number that
// the code can hold.
pub fn folds_at(width: usize, column: Columns, bytes: Bytes) -> bool
    ensures value { result ≡ folds width column bytes }
    ensures sum { result ≡ false → column.0 + bytes.0 < 2 ^ 64 }
{
    width < column.0 || width - column.0 < bytes.0
}

// Chunks. Each method does what a rule does, whatever margins are kept beside the text.
// `Near` stands at each of them: it relates the lay before and after a call, which no invariant of one value says.
impl<'a> Page<'a> {
    // A page with nothing written.
    pub fn new(room: &'a mut [u8]) -> Page<'a>
        ensures text { text_in result ≡ lent_empty room.entry.ghost_name (length room.old) }
        ensures lay { result.lay ≡ blank_lay }
    {
        Page {
            room,
            len: Bytes(0),
            lay: Lay::default(),
        }
    }

    // Whether more was to be written than the room holds.
    pub fn is_full(&self) -> bool
        ensures full { result ≡ true → (text_in self.now).shown ≡ refused 13 0 }
        ensures given { result ≡ false → Given (text_in self.now).shown }
    {
        self.room.len() < self.len.0
    }

    // Whether nothing is written; free where the text is longer than the room.
    pub fn is_empty(&self) -> bool
        ensures { (o : List ℕ) → (text_in self.now).shown ≡ gives o → result ≡ is_empty o }
    {
        self.len.0 == 0
    }

    // Whether a line end is due.
    fn line_is_due(&self) -> bool
        ensures { result ≡ (self.now.lay.newline || self.now.lay.blank) }
    {
        self.lay.newline || self.lay.blank
    }

    // Whether the text ends with some bytes; free where it is longer than the room.
    fn ends_with(&self, tail: &[u8]) -> bool
        ensures { (o : List ℕ) → (text_in self.now).shown ≡ gives o → result ≡ ends_with tail.now o }
    {
        room::ends_with(self.room, self.len.0, tail)
    }

    // A line end, at once.
    pub fn line_end(&mut self)
        ensures by_index { (kept : List ℕ) → page_of self.new kept ≡ ruled line_end (page_of self.old kept) }
        ensures near { Near 0 self.old.lay self.new.lay }
    {
        self.len = Bytes(room::put(self.room, self.len.0, b'\n'));
        self.lay.column = Columns(0);
    }

    // A line end that is due.
    fn due_line(&mut self)
        ensures by_index { (kept : List ℕ) → page_of self.new kept ≡ ruled due_line (page_of self.old kept) }
        ensures near { Near 0 self.old.lay self.new.lay }
    {
        if self.line_is_due() && !self.ends_with(b"\n") {
            self.line_end();
        }
    }

    // A blank line that is due.
    fn due_blank(&mut self)
        ensures by_index { (kept : List ℕ) → page_of self.new kept ≡ ruled due_blank (page_of self.old kept) }
        ensures near { Near 0 self.old.lay self.new.lay }
    {
        if self.lay.blank && !self.ends_with(b"\n\n") {
            self.len = Bytes(room::put(self.room, self.len.0, b'\n'));
        }
    }

    // Spaces up to a margin.
    fn reach_margin(&mut self, margin: Columns)
        ensures by_index { (kept : List ℕ) → page_of self.new kept ≡ ruled (λ n. reach n margin.0) (page_of self.old kept) }
        ensures near { Near margin.0 self.old.lay self.new.lay }
    {
        let column = self.lay.column;
        let missing = missing_to(margin, column).0;
        self.len = Bytes(room::put_spaces(self.room, self.len.0, missing));
        self.lay.column = Columns(column.0.max(margin.0));
    }

    // At least two columns before an item's body that starts at column 28, the widest tabstop, or past it.
    fn pad_gutter(&mut self, padded: Columns)
        ensures result_after { Fits64 (self.old.lay.column.0 + 2) → (kept : List ℕ) → page_of self.new kept ≡ ruled (λ n. pad_gutter n padded.0) (page_of self.old kept) }
        ensures near { Near 2 self.old.lay self.new.lay }
    {
        if self.lay.gutter && MAX_TABSTOP <= self.lay.column.0 && padded.0 < 2 {
            let more = 2 - padded.0;
            self.len = Bytes(room::put_spaces(self.room, self.len.0, more));
            self.lay.column = plus(self.lay.column, Columns(more));
        }
    }

    // A chunk where the text stands.
    fn place_here(&mut self, text: &[u8], width: Columns)
        ensures result_after { Fits64 (self.old.lay.column.0 + width.0) → (kept : List ℕ) → page_of self.new kept ≡ ruled (λ n. place n text.now width.0) (page_of self.old kept) }
        ensures near { Near width.0 self.old.lay self.new.lay }
    {
        self.len = Bytes(room::put_all(self.room, self.len.0, text));
        self.lay = Lay {
            column: plus(self.lay.column, width),
            newline: false,
            blank: false,
            gutter: false,
            ..self.lay
        };
    }

    // A chunk at its margin; refusal 10 where more than 50 columns are missing, unless 13 was met before.
    fn put_chunk(&mut self, margin: Columns, chunk: Chunk) -> Result<(), Refusal>
        ensures result_after { Fits64 (self.old.lay.column.0 + (margin.0 + chunk.entry.width.0 + 2)) → (kept : List ℕ) → after result (page_of self.new kept) ≡ ruled (λ n. put n margin.0 chunk.entry.at chunk.entry.text.now chunk.entry.width.0) (page_of self.old kept) }
        ensures near { Near (margin.0 + chunk.entry.width.0 + 2) self.old.lay self.new.lay }
    {
        let missing = missing_to(margin, self.lay.column);
        if MAX_MISSING < missing.0 {
            if self.is_full() {
                return Ok(());
            }
            return Err(Refusal::BeyondMargin(chunk.at));
        }
        self.reach_margin(margin);
        self.pad_gutter(missing);
        self.place_here(chunk.text, chunk.width);
        Ok(())
    }

    // A fold: the White_Space at the end goes, and a line end follows.
    fn fold_line(&mut self)
        ensures by_index { (kept : List ℕ) → page_of self.new kept ≡ ruled (λ n s. line_end n (with_out (trim s.out) s)) (page_of self.old kept) }
        ensures near { Near 0 self.old.lay self.new.lay }
    {
        let room = &mut *self.room;
        self.len = Bytes(room::trim_end(room, self.len.0));
        self.line_end();
    }

    // A chunk at a place, at a margin. The rules' numbers have no bound: the promise is theirs where the column after the
    // chunk is one that the code can hold.
    pub fn place_chunk(
        &mut self,
        margin: Columns,
        chunk: Chunk,
        set: Settings,
    ) -> Result<(), Refusal>
        ensures result_after { Fits64 (self.old.lay.column.0 + (margin.0 + chunk.entry.width.0 + 2)) → (kept : List ℕ) → after result (page_of self.new kept) ≡ ruled (λ n. raw_chunk (measure_of set) set n margin.0 chunk.entry.at chunk.entry.text.now chunk.entry.width.0) (page_of self.old kept) }
        ensures near { Near (margin.0 + chunk.entry.width.0 + 2) self.old.lay self.new.lay }
    {
        if self.is_empty() {
            return self.put_chunk(margin, chunk);
        }
        self.due_line();
        self.due_blank();
        if folds_at(set.width, self.lay.column, measure_of(set, chunk.text)) {
            self.fold_line();
            if is_space(chunk.text) {
                return Ok(());
            }
            return self.put_chunk(margin, chunk);
        }
        self.put_chunk(margin, chunk)
    }

    // A paragraph; with `full` off text is skipped from then on.
    pub fn put_paragraph(&mut self, set: Settings)
        ensures by_index { (margin at : ℕ) (kept : List ℕ) → page_of self.new kept ≡ ruled (λ n. chunk (measure_of set) set n margin at paragraph) (page_of self.old kept) }
        ensures near { Near 0 self.old.lay self.new.lay }
    {
        self.line_end();
        if !set.full {
            self.lay.skip.enable();
        }
    }

    // The last line end.
    pub fn last_line(&mut self)
        ensures { (kept : List ℕ) → page_of self.new kept ≡ ruled finish (page_of self.old kept) }
    {
        if self.line_is_due() {
            self.len = Bytes(room::put(self.room, self.len.0, b'\n'));
        }
    }

    // How far it is written: the room is its lender's again.
    pub fn finish(self) -> usize
        ensures { seen self.exit.0.now result ≡ (text_in self.entry).shown }
    {
        let Page { room, len, lay } = self;
        len.0
    }
}
