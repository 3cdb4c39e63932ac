// Writing into a lent room (01: '`String` output: a lent room and a length'). A length past the room says that the text was longer than
// the room; every later write and trim keeps it so. What a write leaves free: the bytes past the new length; and, once a length is past
// the room, every byte of it and how far the length is past it. `clear_from` settles them all.
// A number and no Result of each write: one test at the end of a text finds it, where else `?` would follow every write.
// The functions are for the console's Page, which holds a room and a length beside its flags: of a `Text` within a struct the room's lender learns
// nothing. The methods of `Text` call them.

#![tactic(auto)]

ghost use Rattle.std.specs.Prelude.{◌≡◌, true, false, [], ◌∷◌, ◌++◌, ◌+◌, ◌≤◌, length, take, replicate, List, ℕ};
ghost use Rattle.base.specs.Result.{gives, refused, ◌>>=◌ as bind};
ghost use Rattle.base.specs.Bytes.{ends_with};
ghost use Rattle.white.specs.White.{trim};
ghost use Rattle.room.specs.Room.{seen, extended, padded};
ghost use Rattle.room.specs.Lent.{Given, text_of, lent_empty, with_bytes, wrote, is_empty};

// One byte more.
pub fn put(room: &mut [u8], len: usize, byte: u8) -> usize
    ensures { seen room.new result ≡ bind (seen room.old len) (extended (length room.old) (byte ∷ [])) }
{
    if len < room.len() {
        room[len] = byte;
        return len + 1;
    }
    room.len() + 1
}

// Some bytes more.
pub fn put_all(room: &mut [u8], len: usize, bytes: &[u8]) -> usize
    ensures { seen room.new result ≡ bind (seen room.old len) (extended (length room.old) bytes.now) }
{
    if len <= room.len() && bytes.len() <= room.len() - len {
        let to = len + bytes.len();
        // a part of the room is lent: with the whole from `len` on Markdown runs 5.7 % more instructions
        base::copy_from_slice(&mut room[len..to], 0, bytes);
        return to;
    }
    room.len() + 1
}

// Some spaces more.
pub fn put_spaces(room: &mut [u8], len: usize, n: usize) -> usize
    ensures { seen room.new result ≡ bind (seen room.old len) (extended (length room.old) (replicate n 0x20)) }
{
    if len <= room.len() && n <= room.len() - len {
        room[len..len + n].fill(b' ');
        return len + n;
    }
    room.len() + 1
}

// 'a room is 0 beyond what was written': zeros from `at` on.
pub fn clear_from(room: &mut [u8], at: usize)
    ensures { room.new ≡ padded (length room.old) (take at room.old) }
{
    if at < room.len() {
        room[at..].fill(0);
    }
}

// Whether the bytes up to a length end with some others.
pub fn ends_with(room: &[u8], len: usize, tail: &[u8]) -> bool
    ensures { result ≡ ends_with tail.now (take len room.now) }
{
    let to = len.min(room.len());
    room[..to].ends_with(tail)
}

// 'trimming lowers the length': the length without the White_Space at the text's end.
pub fn trim_end(room: &[u8], len: usize) -> usize
    ensures { seen room.now result ≡ bind (seen room.now len) (λ o. gives (trim o)) }
{
    if len > room.len() {
        return len;
    }
    white::trim_end(&room[..len])
}

// A lent room and how far it is written.
#[derive(Drop)]
pub struct Text<'a> {
    pub room: &'a mut [u8],
    pub len: usize,
}

impl<'a> Text<'a> {
    // Nothing written yet.
    pub fn new(room: &'a mut [u8]) -> Text<'a>
        ensures { text_of result ≡ lent_empty room.entry.ghost_name (length room.old) }
    {
        Text { room, len: 0 }
    }

    // One byte more.
    pub fn put(&mut self, byte: u8)
        ensures { text_of self.new ≡ with_bytes (byte ∷ []) (text_of self.old) }
    {
        let room = &mut *self.room;
        self.len = put(room, self.len, byte);
    }

    // Some bytes more.
    pub fn put_all(&mut self, bytes: &[u8])
        ensures { text_of self.new ≡ with_bytes bytes.now (text_of self.old) }
    {
        let room = &mut *self.room;
        self.len = put_all(room, self.len, bytes);
    }

    // Some spaces more.
    pub fn put_spaces(&mut self, n: usize)
        ensures { text_of self.new ≡ with_bytes (replicate n 0x20) (text_of self.old) }
    {
        let room = &mut *self.room;
        self.len = put_spaces(room, self.len, n);
    }

    // Whether more was to be written than the room holds.
    pub fn is_full(&self) -> bool
        ensures full { result ≡ true → (text_of self.now).shown ≡ refused 13 0 }
        ensures given { result ≡ false → Given (text_of self.now).shown }
    {
        self.room.len() < self.len
    }

    // Whether nothing is written; free where the text is longer than the room.
    pub fn is_empty(&self) -> bool
        ensures { (o : List ℕ) → (text_of self.now).shown ≡ gives o → result ≡ is_empty o }
    {
        self.len == 0
    }

    // Whether the text ends with some bytes; free where it is longer than the room.
    pub fn ends_with(&self, tail: &[u8]) -> bool
        ensures { (o : List ℕ) → (text_of self.now).shown ≡ gives o → result ≡ ends_with tail.now o }
    {
        ends_with(&*self.room, self.len, tail)
    }

    // The text without the White_Space at its end.
    pub fn trim_end(&mut self)
        ensures { text_of self.new ≡ wrote (λ n o. gives (trim o)) (text_of self.old) }
    {
        let room = &mut *self.room;
        self.len = trim_end(room, self.len);
    }

    // How far it is written: the room is its lender's again. No answer, which `renderer::finish` gives: notes and merged lists are first held
    // against the most that a document may have.
    pub fn finish(self) -> usize
        ensures { seen self.exit.0.now result ≡ (text_of self.entry).shown }
    {
        let Text { room, len } = self;
        len
    }
}
