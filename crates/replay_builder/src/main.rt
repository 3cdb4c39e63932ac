// Reads a list of the builder's calls with the oracle's answers from standard input, makes each call and compares, and prints one line
// with the counts.
#![tactic(auto)]

use recorded::operation::Operation;
use recorded::{Call, Case, run};
use refusal::Refusal;
use std::io;

// The style or the block of a call; one that does not exist no list has.
fn asked<T: TryFrom<usize>>(call: Call) -> Result<T, Refusal>
where
    T::Error: Drop,
{
    T::try_from(call.setting).map_err(|_| Refusal::UnknownKind(0))
}

// Whether the builder's answer is what a case says: the new length and document, or a refusal, after which the document is as before.
fn is_built(built: Result<usize, Refusal>, room: &[u8], before: &[u8], answer: &[u8]) -> bool {
    let (wanted, rest) = recorded::split_answer(answer);
    match (built, wanted) {
        (Ok(n), Ok(at)) => {
            let (length, document) = recorded::split_number(rest);
            at == 0 && n == length && document.len() == n && recorded::keeps(room, document)
        }
        (Err(a), Err(w)) => {
            rest.is_empty() && compared::is_refusal(a, w) && recorded::keeps(room, before)
        }
        _ => false,
    }
}

// Whether the builder answers as a case says; `listed` begins with the length so far and what the room holds of the document so far.
fn builds<F: FnOnce(&mut [u8], usize) -> Result<usize, Refusal>>(
    size: usize,
    listed: &[u8],
    build: F,
) -> bool
    requires { F.IsAlwaysCallable build }
{
    let (length, rest) = recorded::split_number(listed);
    let held = length.min(size);
    let before = base::get(rest, 0, held);
    recorded::in_room(size, before, |room| {
        let built = build(room, length);
        is_built(built, room, before, base::get_from(rest, held))
    })
}

// Whether a call answers as its case says.
fn agrees(case: &[u8]) -> bool {
    let Case {
        operation: Ok(operation),
        call,
        document: argument,
        answer: listed,
    } = Case::of(case)
    else {
        return false;
    };
    match operation {
        Operation::Write => builds(call.room, listed, |room, length| {
            buffer::write_str(room, length, asked(call)?, argument)
        }),
        Operation::Open => builds(call.room, listed, |room, length| {
            buffer::open_block(room, length, asked(call)?)
        }),
        Operation::Close => builds(call.room, listed, |room, length| {
            buffer::close_block(room, length, asked(call)?)
        }),
        Operation::Doc => builds(call.room, listed, |room, length| {
            buffer_doc::doc(room, length, argument)
        }),
        Operation::EmDoc => builds(call.room, listed, |room, length| {
            buffer_doc::em_doc(room, length, argument)
        }),
        _ => false,
    }
}

// The calls of this program's list, as its line names them.
const NAMES: [(Operation, &[u8]); 5] = [
    (Operation::Write, b"write "),
    (Operation::Open, b", open "),
    (Operation::Close, b", close "),
    (Operation::Doc, b", doc "),
    (Operation::EmDoc, b", em_doc "),
];

// A read or a write that fails ends the program with its error.
fn main(rt: HostRuntime) -> io::Result<()> {
    run::run(&mut rt.stdin(), &mut rt.stdout(), &NAMES, agrees)
}
