// A list of cases, calls with the oracle's answers, as the programs `replay` and `replay_builder` read it (its form stands in
// oracle/src/cases.rs): its numbers, a call, the document and the answer of a case, and a room before a call.

#![tactic(auto)]

ghost use Rattle.std.specs.Prelude.{◌≡◌, ◌<◌, ◌≤◌, false, [], length, get_or};
ghost use Rattle.std.specs.Fn.{FnOnceReturnsAtMut};
ghost use Rattle.compared.specs.InnerCompared.{is_verdict};
ghost use Rattle.recorded.specs.InnerCases.{number_in, number_size, past as past_number, Decodes, wanted_in, call_of, document_of, answer_of};
ghost use Rattle.recorded.specs.InnerCases.{pattern, filled, keeps, is_made, counted, settings_of};

use compared::{Refused, byte_or};
use console_rules::{Measure, Settings};
use operation::{Operation, UnknownCall};
use refusal::Refusal;

pub mod input;
pub mod operation;
pub mod output;
pub mod run;
pub mod tally;

// How many calls there are: their numbers in a list are below this one.
pub const CALLS: usize = 23;

// The number that bytes begin with. Where bytes are missing it is one that no answer has: an Option would be compared likewise at each use.
#[tactic(auto, unfolding(crate::specs::InnerCases::number_in, crate::proofs::Names::choose))]
pub fn number(bytes: &[u8]) -> usize
    ensures { (result ≡ number_in bytes.now) × (result < 0x1_0000_0000) }
{
    let first = byte_or(bytes, 0, 255);
    if first < 255 {
        return usize::from(first);
    }
    if bytes.len() < 5 {
        return 0xFFFF_FFFF;
    }
    records::four(bytes, 1)
}

// How many bytes it takes.
#[tactic(auto, unfolding(crate::specs::InnerCases::number_size, crate::proofs::Names::choose))]
pub fn number_size(bytes: &[u8]) -> usize
    ensures { (result ≡ number_size bytes.now) × (result ≤ 5) }
{
    if byte_or(bytes, 0, 0) < 255 { 1 } else { 5 }
}

// The bytes after it.
#[tactic(auto, unfolding(crate::specs::InnerCases::past))]
pub fn past<'a>(bytes: &'a [u8]) -> &'a [u8]
    ensures { result.now ≡ past_number bytes.now }
{
    base::get_from(bytes, number_size(bytes))
}

// Both.
pub fn split_number<'a>(bytes: &'a [u8]) -> (usize, &'a [u8])
    ensures value { result.0 ≡ number_in bytes.now }
    ensures below { result.0 < 0x1_0000_0000 }
    ensures rest { result.1.now ≡ past_number bytes.now }
{
    (number(bytes), past(bytes))
}

// What an answer begins with, and what follows: a number, 0 where nothing was refused, and a length or a count; or a refusal's number and place.
pub fn split_answer<'a>(answer: &'a [u8]) -> (Result<usize, Refused>, &'a [u8])
    ensures wanted { result.0 ≡ wanted_in answer.now }
    ensures rest { result.1.now ≡ past_number (past_number answer.now) }
{
    let (number, rest) = split_number(answer);
    let (at, rest) = split_number(rest);
    if number == 0 {
        return (Ok(at), rest);
    }
    (Err(Refused { number, place: at }), rest)
}

// Whether a check answers as a case says.
pub fn checks(checked: Result<(), Refusal>, answer: &[u8]) -> bool
    ensures { result ≡ is_verdict checked (wanted_in answer.now) }
{
    let (wanted, _) = split_answer(answer);
    compared::is_verdict(checked, wanted)
}

// What a call is given: its setting (width, style, block or place of a cursor), its flags, of which the first may be the ticks of a cursor, and
// the length of its room.
// (One form for all calls, as the list has it: cases of an enum would be read from the same bytes.)
#[derive(Clone, Copy)]
pub struct Call {
    pub setting: usize,
    pub full: bool,
    pub ticks: u8,
    pub css: bool,
    pub room: usize,
}

impl Call {
    // What the console is asked for: the second flag of its calls says whether it counts characters.
    // (As in `sefgrunn::settings`: one function for both would stand in `console_rules`, where no function stands.)
    pub fn settings(self) -> Settings
        ensures { result ≡ settings_of self }
    {
        Settings {
            width: self.setting,
            full: self.full,
            measure: if self.css {
                Measure::Characters
            } else {
                Measure::Bytes
            },
        }
    }
}

// A case of a list: which call it is and what that is given, its document, and what the case has after it.
#[derive(Clone, Copy)]
pub struct Case<'a> {
    pub operation: Result<Operation, UnknownCall>,
    pub call: Call,
    pub document: &'a [u8],
    pub answer: &'a [u8],
}

impl<'a> Case<'a> {
    // The case that some bytes are.
    #[tactic(auto, unfolding(crate::specs::InnerCases::call_of, crate::specs::InnerCases::document_of, crate::specs::InnerCases::answer_of))]
    pub fn of(bytes: &'a [u8]) -> Case<'a>
        ensures operation { Decodes (get_or bytes.now 0 255) result.operation }
        ensures call { result.call ≡ call_of bytes.now }
        ensures document { result.document.now ≡ document_of bytes.now }
        ensures answer { result.answer.now ≡ answer_of bytes.now }
    {
        let (setting, flags) = split_number(base::get_from(bytes, 1));
        let (room, sized) = split_number(base::get_from(flags, 2));
        let (size, rest) = split_number(sized);
        let ticks = byte_or(flags, 0, 0);
        Case {
            operation: Operation::try_from(byte_or(bytes, 0, 255)),
            call: Call {
                setting,
                full: ticks == 1,
                ticks,
                css: byte_or(flags, 1, 0) == 1,
                room,
            },
            document: base::get(rest, 0, size),
            answer: base::get_from(rest, size),
        }
    }
}

// The byte of the pattern at a place of a room before a call.
fn pattern_at(i: usize) -> u8
    ensures { result ≡ pattern i }
{
    // `as`, since it is below 255, as the check proves; a TryFrom would ask for a byte where it is not
    (i % 255 * 31 % 255) as u8 + 1
}

// A room before a call: the document so far and then the pattern.
pub fn fill(room: &mut [u8], document: &[u8])
    ensures { room.new ≡ filled (length room.old) document.now }
{
    for (i, b) in room.iter_mut().enumerate() {
        *b = byte_or(document, i, pattern_at(i));
    }
}

// Whether a room holds a document, and after it what it held before.
#[tactic(auto, unfolding(crate::specs::InnerCases::keeps))]
pub fn keeps(room: &[u8], document: &[u8]) -> bool
    ensures { result ≡ keeps room.now document.now }
{
    compared::holds_by(room, document, pattern_at)
}

// What a use of a room answers that holds a document so far and then the pattern; false for a room that is larger than the array.
// (An array: no heap is used, as in the library.)
pub fn in_room<F: FnOnce(&mut [u8]) -> bool>(size: usize, document: &[u8], use_room: F) -> bool
    requires { F.IsAlwaysCallable use_room }
    ensures large { 65536 < size → result ≡ false }
    ensures fits { size ≤ 65536 → (r : _) × FnOnceReturnsAtMut F.FnOnce use_room (filled size document.now) result r }
{
    let mut space = [0u8; 65536];
    if space.len() < size {
        return false;
    }
    let room = &mut space[..size];
    fill(room, document);
    use_room(room)
}

// Whether what a call answered, and the room after it, are what a case says: a text, of the length that it tells, or a refusal with none.
fn is_made(made: Result<usize, Refusal>, room: &[u8], answer: &[u8]) -> bool
    ensures { result ≡ is_made made room.now answer.now }
{
    let (wanted, text) = split_answer(answer);
    wanted.unwrap_or(0) == text.len() && compared::is_rendered(made, room, wanted.map(|_| text))
}

// Whether a call that writes into a room answers as a case says.
pub fn makes<F: FnOnce(&mut [u8]) -> Result<usize, Refusal>>(
    size: usize,
    answer: &[u8],
    make: F,
) -> bool
    requires { F.IsAlwaysCallable make }
    ensures large { 65536 < size → result ≡ false }
    ensures fits { size ≤ 65536 → (made : _) × (r : _) × FnOnceReturnsAtMut F.FnOnce make (filled size []) made r × (result ≡ is_made made r answer.now) }
{
    in_room(
        size,
        b"",
        |room|
            requires { F.IsAlwaysCallable make }
            ensures { (made : _) × FnOnceReturnsAtMut F.FnOnce make room.old made room.new × (result ≡ is_made made room.new answer.entry.now) }
        {
            let made = make(room);
            is_made(made, room, answer)
        },
    )
}

// One call more of those with its number.
// (No `get_mut`: that of a slice promises nothing of the slice after a write.)
#[tactic(auto, unfolding(crate::specs::InnerCases::counted, crate::proofs::Names::choose))]
pub fn count(counts: &mut [u64], case: &[u8])
    ensures { counts.new ≡ counted counts.old case.now }
{
    let call = usize::from(byte_or(case, 0, 255));
    if call < counts.len() && counts[call] < tally::LIMIT {
        counts[call] += 1;
    }
}
