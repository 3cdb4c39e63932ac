// The check of a joined form (02, point 7), and its text.

#![tactic(auto)]

ghost use Rattle.std.specs.Prelude.{◌≡◌, List, [], ℕ, ◌<◌, ◌^◌};
ghost use Rattle.base.specs.Result.{◌>>=◌ as bind};
ghost use Rattle.std.specs.Iterator.{item_count};
ghost use Rattle.records.specs.Records.{size};
ghost use Rattle.document.specs.Answers.{verdict_of};
ghost use Rattle.joined_rules.specs.Joined.{has_text, text_in, records_at, heads_in, head_kind};
ghost use Rattle.joined_rules.specs.Joined.{shares, short_joined, whole_text, reads_joined, check_joined};
ghost use Rattle.joined_check.specs.Listed.{left, GivesShare};

use document::{MAX_OPEN, close_block, open_block};
use records::{Block, Kind, four, two};
use refusal::Refusal;

// 'Limit 32,772 bytes under 1'
pub const MAX_BYTES: usize = 32_772;

// Refusal 17 otherwise.
pub fn has_text(joined: &[u8]) -> bool
    ensures { result ≡ has_text joined.now }
{
    4 <= joined.len() && four(joined, 0) <= joined.len() - 4
}

// The text as a part of the joined form, without walking records. Where it runs past the end it goes up to there; under four bytes it is
// empty.
pub fn text_in<'a>(joined: &'a [u8]) -> &'a [u8]
    ensures { result.now ≡ text_in joined.now }
{
    base::get(joined, 4, 4 + four(joined, 0))
}

// A record of a joined form: where it stands, and its length and kind, six bytes. The last may be cut short.
#[derive(Clone, Copy)]
pub struct Share<'a> {
    pub place: usize,
    pub head: &'a [u8],
}

impl<'a> Share<'a> {
    // How many bytes of the text are its share.
    pub fn size(&self) -> usize
        ensures { (result ≡ size self.now.head.now) × (result < 2 ^ 32) }
    {
        four(self.head, 0)
    }

    // Its kind.
    pub fn kind(&self) -> Kind
        ensures { result ≡ head_kind self.now.head.now }
    {
        Kind::from(two(self.head, 4))
    }
}

// The records of a joined form that are left, in order.
#[derive(Clone, Copy)]
pub struct Shares<'a> {
    pub joined: &'a [u8],
    pub at: usize,
}

impl<'a> Iterator for Shares<'a> {
    type Item = Share<'a>;

    ghost next_gives = { GivesShare };

    ghost remaining = { item_count left };

    fn next(&mut self) -> Option<Share<'a>> {
        let place = self.at;
        if self.joined.len() <= place {
            return None;
        }
        let next = place + 6;
        self.at = next;
        // One comparison, where `base::get` has three. (By `min` of the two lengths a page of blocks runs more instructions.)
        let left = &self.joined[place..];
        let head = if left.len() < 6 { left } else { &left[..6] };
        Some(Share { place, head })
    }
}

impl<'a> Shares<'a> {
    // The records of a joined form.
    pub fn of(joined: &'a [u8]) -> Shares<'a>
        ensures { (left result ≡ heads_in joined.now) × (result.at ≡ records_at joined.now) }
    {
        Shares {
            joined,
            at: 4 + four(joined, 0),
        }
    }
}

// Refusals 18 and 5 of a record's share of `size` bytes, where some text is left.
fn check_share(text: &[u8], at: usize, size: usize) -> Result<(), Refusal>
    ensures { (stack : List ℕ) → verdict_of result stack ≡ shares at size text.now stack }
{
    // Nothing is to be tested, and the check of a page of such records is faster without.
    if size == 0 {
        return Ok(());
    }
    if text.len() < size {
        return Err(Refusal::WrongShare(at));
    }
    if !utf8::valid(&text[..size]) {
        return Err(Refusal::NotUtf8(at));
    }
    Ok(())
}

// Record by record 2 to 7 and 18, then 8, then 18: what follows 1 and 17, and 9 in the console. `document::open_blocks` has the same arms for blocks; one
// function of both would need an arm for a text that neither of them has.
// (The slots and their count are apart, for the reason at `document::open_block`, and a record has no function of its own, whose result is passed on by
// `?`: with `OpenBlocks`, with that function and with a head by `base::get` the check of a page of blocks runs 1.45 of the instructions. The length is read
// in the arms: read once before them, moving back takes 1.08 to 1.13 of the time.)
fn read_shares(joined: &[u8]) -> Result<(), Refusal>
    ensures { verdict_of result [] ≡ reads_joined joined.now }
{
    let mut blocks: [Block; MAX_OPEN] = [Block::Header; MAX_OPEN];
    let mut depth: usize = 0;
    let mut text = text_in(joined);
    for s in Shares::of(joined) {
        if s.head.len() < 6 {
            return Err(Refusal::CutShort(s.place));
        }
        match s.kind() {
            Kind::Unknown => return Err(Refusal::UnknownKind(s.place)),
            Kind::Text(_) => {
                let size = s.size();
                check_share(text, s.place, size)?;
                text = &text[size..];
            }
            Kind::Start(b) if s.size() == 0 => {
                depth = open_block(&mut blocks, depth, b, s.place)?;
            }
            Kind::End(b) if s.size() == 0 => {
                depth = close_block(&blocks, depth, b, s.place)?;
            }
            Kind::Start(_) | Kind::End(_) => return Err(Refusal::BlockWithBody(s.place)),
        }
    }
    if depth != 0 {
        return Err(Refusal::LeftOpen(joined.len()));
    }
    if !text.is_empty() {
        return Err(Refusal::WrongShare(joined.len()));
    }
    Ok(())
}

// Refusals 1 and 17.
pub fn check_text(joined: &[u8]) -> Result<(), Refusal>
    ensures { verdict_of result joined.now ≡ bind (short_joined joined.now) whole_text }
{
    if MAX_BYTES < joined.len() {
        return Err(Refusal::TooLong);
    }
    if !has_text(joined) {
        return Err(Refusal::NoJoinedText);
    }
    Ok(())
}

// Refusals 1, 17, then 2 to 8 and 18 of a joined form.
pub fn check(joined: &[u8]) -> Result<(), Refusal>
    ensures { verdict_of result [] ≡ check_joined joined.now }
{
    check_text(joined)?;
    read_shares(joined)
}
