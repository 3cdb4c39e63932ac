// The records of a stored document: their kinds, and the record at a place.

#![tactic(auto)]

ghost use Rattle.std.specs.Prelude.{◌≡◌, true, ◌+◌, ◌<◌, ◌≤◌, ◌^◌, eqb, length, take, drop, get_or};
ghost use Rattle.records.specs.Records.{little, number, index, is_of, kind_of, record_fits, size};
ghost use Rattle.records.specs.Numbered.{StyleNumbered, BlockNumbered};
ghost use Rattle.std.specs.Iterator.{YieldsFirstBy, item_count};
ghost use Rattle.records.specs.Records.{tokens, tokens_from};
ghost use Rattle.records.specs.Answers.{head_of, Read, bare};
ghost use Rattle.records.specs.Listed.{token, left};

// Style of a text record, in the order of its kind.
#[derive(Clone, Copy, Debug, Default, PartialEq, Eq)]
pub enum Style {
    #[default]
    Text = 1,
    Emphasis,
    Literal,
    Metavar,
    Invalid,
}

// A block, in the order of its index.
#[derive(Clone, Copy, Debug, PartialEq, Eq)]
pub enum Block {
    Header,
    Section2,
    Section3,
    Section4,
    ItemTerm,
    ItemBody,
    DefinitionList,
    Block,
    InlineBlock,
    TermRef,
    Meta,
    Mono,
}

// What a record's kind says. Unknown is a case and no Err: a document has such records in its list too, until the check refuses it.
#[derive(Clone, Copy, Debug, PartialEq, Eq)]
pub enum Kind {
    Text(Style),
    Start(Block),
    End(Block),
    Unknown,
}

impl Kind {
    // Whether it is the start or the end of a block.
    pub fn is_of(self, b: Block) -> bool
        ensures { result ≡ is_of (index b) self }
    {
        matches!(self, Kind::Start(x) | Kind::End(x) if x == b)
    }
}

// The record at a place: its kind, where its body starts, and where that ends and the next record stands.
#[derive(Clone, Copy)]
pub struct Head {
    pub kind: Kind,
    pub start: usize,
    pub next: usize,
}

// The same with its kind as a number. (Two types and no `Head<K>`: clauses, lemmas and callers name these two, and would write each out with its kind.)
#[derive(Clone, Copy)]
pub struct Raw {
    pub code: usize,
    pub start: usize,
    pub next: usize,
}

// A number that no style or block has. No crate here reads it, but both `try_from` are public and promise that the error carries the number refused, and a
// public promise does not become smaller.
#[derive(Clone, Copy, Debug, PartialEq, Eq)]
pub struct UnknownNumber {
    pub number: usize,
}

impl Style {
    // The kind of its text.
    pub fn number(self) -> usize
        ensures { result ≡ number self }
    {
        self as usize
    }
}

// The style whose text has a kind.
impl TryFrom<usize> for Style {
    type Error = UnknownNumber;

    ghost try_from_gives = { StyleNumbered };

    fn try_from(kind: usize) -> Result<Style, UnknownNumber> {
        match kind {
            0x0001 => Ok(Style::Text),
            0x0002 => Ok(Style::Emphasis),
            0x0003 => Ok(Style::Literal),
            0x0004 => Ok(Style::Metavar),
            0x0005 => Ok(Style::Invalid),
            _ => Err(UnknownNumber { number: kind }),
        }
    }
}

impl Block {
    pub fn index(self) -> usize
        ensures { result ≡ index self }
    {
        self as usize
    }
}

// The block with an index.
impl TryFrom<usize> for Block {
    type Error = UnknownNumber;

    ghost try_from_gives = { BlockNumbered };

    fn try_from(index: usize) -> Result<Block, UnknownNumber> {
        match index {
            0 => Ok(Block::Header),
            1 => Ok(Block::Section2),
            2 => Ok(Block::Section3),
            3 => Ok(Block::Section4),
            4 => Ok(Block::ItemTerm),
            5 => Ok(Block::ItemBody),
            6 => Ok(Block::DefinitionList),
            7 => Ok(Block::Block),
            8 => Ok(Block::InlineBlock),
            9 => Ok(Block::TermRef),
            10 => Ok(Block::Meta),
            11 => Ok(Block::Mono),
            _ => Err(UnknownNumber { number: index }),
        }
    }
}

// What a record's two-byte kind says. The numbers are the stored form's: a block's start is 0x0100 and its index, its end 0x0200 and its index.
impl From<usize> for Kind {
    ghost from_gives = { λ k r. r ≡ kind_of k };

    fn from(k: usize) -> Kind {
        if let Ok(s) = Style::try_from(k) {
            return Kind::Text(s);
        }
        if k < 0x0100 {
            return Kind::Unknown;
        }
        if let Ok(b) = Block::try_from(k - 0x0100) {
            return Kind::Start(b);
        }
        if k < 0x0200 {
            return Kind::Unknown;
        }
        if let Ok(b) = Block::try_from(k - 0x0200) {
            return Kind::End(b);
        }
        Kind::Unknown
    }
}

// The number in the two bytes at `at`, which are there. Written out, as that in four is: by `from_le_bytes` the check takes 1.05 of the time on pages of options.
fn whole_two(bytes: &[u8], at: usize) -> usize
    requires { at + 2 ≤ length bytes.now }
    ensures { (result ≡ little (take 2 (drop at bytes.now))) × (result < 65536) }
{
    usize::from(bytes[at]) + 256 * usize::from(bytes[at + 1])
}

// The number in the four bytes at `at`, which are there.
fn whole_four(bytes: &[u8], at: usize) -> usize
    requires { at + 4 ≤ length bytes.now }
    ensures { (result ≡ little (take 4 (drop at bytes.now))) × (result < 2 ^ 32) }
{
    whole_two(bytes, at) + 65536 * whole_two(bytes, at + 2)
}

// The number in the two bytes at `at`; those that are missing count as 0.
// (Beside the two above, which test no length, since each record is read by them: here the caller has not tested that the bytes are there.)
pub fn two(bytes: &[u8], at: usize) -> usize
    ensures { (result ≡ little (take 2 (drop at bytes.now))) × (result < 65536) }
{
    if bytes.len() <= at {
        return 0;
    }
    if bytes.len() - at < 2 {
        return usize::from(bytes[at]);
    }
    whole_two(bytes, at)
}

// The number in the four bytes at `at`; those that are missing count as 0.
pub fn four(bytes: &[u8], at: usize) -> usize
    ensures { (result ≡ little (take 4 (drop at bytes.now))) × (result < 2 ^ 32) }
{
    if bytes.len() <= at {
        return 0;
    }
    two(bytes, at) + 65536 * two(bytes, at + 2)
}

// The record at `at`, its kind as a number. A body that is cut short ends with the document, and past the end the kind is 0.
// It and the four below take a document and a place, and are no methods of `Records`: a loop that steps a place has none, and would make one for each call.
pub fn raw_at(document: &[u8], at: usize) -> Raw
    ensures read { Read document.now at (head_of result) }
    ensures code { result.code ≡ little (take 2 (drop (at + 4) document.now)) }
{
    let length = document.len();
    if length <= at {
        return Raw {
            code: 0,
            start: length,
            next: length,
        };
    }
    if length - at < 6 {
        let code = two(document, at + 4);
        return Raw {
            code,
            start: length,
            next: length,
        };
    }
    let code = whole_two(document, at + 4);
    let size = whole_four(document, at);
    let start = at + 6;
    if length - start < size {
        return Raw {
            code,
            start,
            next: length,
        };
    }
    let next = start + size;
    Raw { code, start, next }
}

// A record with the kind that its number says.
impl From<Raw> for Head {
    ghost from_gives = { λ r h. h ≡ head_of r };

    fn from(r: Raw) -> Head {
        Head {
            kind: Kind::from(r.code),
            start: r.start,
            next: r.next,
        }
    }
}

// The record at `at`. A body that is cut short ends with the document, and past the end the kind is Unknown.
pub fn record_at(document: &[u8], at: usize) -> Head
    ensures { Read document.now at result }
{
    Head::from(raw_at(document, at))
}

// A record of no kind and no bytes at a place. No Option: a caller knows that a record lies whole there, and would have no answer for None.
fn nothing_at(at: usize) -> Raw {
    Raw {
        code: 0,
        start: at,
        next: at,
    }
}

// The record at `at`, its kind as a number, where one lies whole: no place is compared with the document's end. Elsewhere the answer is free.
pub fn whole_raw_at(document: &[u8], at: usize) -> Raw
    ensures { record_fits (drop at document.now) ≡ true → Read document.now at (head_of result) }
{
    if document.len() <= at {
        return nothing_at(at);
    }
    if document.len() - at < 6 {
        return nothing_at(at);
    }
    let kind = whole_two(document, at + 4);
    let body = at + 6;
    let next = body + whole_four(document, at);
    Raw {
        code: kind,
        start: body,
        next,
    }
}

// The same with the kind that its number says, in one piece: made of the two functions, the check takes 1.08 to 1.15 of the time.
pub fn whole_at(document: &[u8], at: usize) -> Head
    ensures { record_fits (drop at document.now) ≡ true → Read document.now at result }
{
    if document.len() <= at {
        return Head::from(nothing_at(at));
    }
    if document.len() - at < 6 {
        return Head::from(nothing_at(at));
    }
    let kind = Kind::from(whole_two(document, at + 4));
    let body = at + 6;
    let next = body + whole_four(document, at);
    Head {
        kind,
        start: body,
        next,
    }
}

// The number of the kind of the record at `at`, where that has no body and all six bytes are there; else 0. With it a walk steps over records without a body
// and does not wait for their lengths.
pub fn bare_at(document: &[u8], at: usize) -> usize
    ensures { result ≡ bare (drop at document.now) }
{
    if document.len() <= at {
        return 0;
    }
    if document.len() - at < 6 {
        return 0;
    }
    if whole_four(document, at) != 0 {
        return 0;
    }
    whole_two(document, at + 4)
}

// Refusal 2 otherwise: whether the record at `at` lies whole in the document.
pub fn fits_at(document: &[u8], at: usize) -> bool
    ensures { result ≡ record_fits (drop at document.now) }
{
    let left = document.len().saturating_sub(at);
    6 <= left && whole_four(document, at) <= left - 6
}

// Whether the record at `at` ends with the document.
pub fn ends_at(document: &[u8], at: usize) -> bool
    ensures { result ≡ eqb (length (drop at document.now)) (6 + size (drop at document.now)) }
{
    let left = document.len().saturating_sub(at);
    6 <= left && whole_four(document, at) == left - 6
}

// A record of a document: where it stands, where its body starts, its kind and its body.
#[derive(Clone, Copy)]
pub struct Record<'a> {
    pub place: usize,
    pub start: usize,
    pub kind: Kind,
    pub body: &'a [u8],
}

// The records of a document that are left, in order.
#[derive(Clone, Copy)]
pub struct Records<'a> {
    pub document: &'a [u8],
    pub at: usize,
}

impl<'a> Iterator for Records<'a> {
    type Item = Record<'a>;

    ghost next_gives = { YieldsFirstBy token left };

    ghost remaining = { item_count left };

    fn next(&mut self) -> Option<Record<'a>> {
        let place = self.at;
        if self.document.len() <= place {
            return None;
        }
        let h = record_at(self.document, place);
        self.at = h.next;
        Some(Record {
            place,
            start: h.start,
            kind: h.kind,
            body: &self.document[h.start..h.next],
        })
    }
}

impl<'a> Records<'a> {
    // The records of a document.
    pub fn of(document: &'a [u8]) -> Records<'a>
        ensures { left result ≡ tokens 0 0 document.now }
    {
        Records { document, at: 0 }
    }

    // Those from a place on.
    pub fn from_place(document: &'a [u8], at: usize) -> Records<'a>
        ensures { left result ≡ tokens_from document.now at }
    {
        Records { document, at }
    }
}
