// Reads a list of calls with the oracle's answers from standard input, makes each call and compares, and prints one line with the counts:
// the joined form of a document, moved, checked and rendered, and one option list from two.
#![tactic(auto)]

use recorded::operation::Operation;
use recorded::{Case, makes, run};
use std::io;

// Whether a call answers as its case says.
fn agrees(case: &[u8]) -> bool {
    let Case {
        operation: Ok(operation),
        call,
        document: given,
        answer,
    } = Case::of(case)
    else {
        return false;
    };
    let (full, css, first) = (call.full, call.css, call.setting);
    match operation {
        Operation::JoinedCheck => recorded::checks(joined_check::check(given), answer),
        Operation::Join => makes(call.room, answer, |room| joined::join(given, room)),
        Operation::Unjoin => makes(call.room, answer, |room| joined::unjoin(given, room)),
        Operation::JoinedConsole => makes(call.room, answer, |room| {
            joined_render::joined_console(given, call.settings(), room)
        }),
        Operation::JoinedHtml => makes(call.room, answer, |room| {
            joined_render::joined_html(given, full, css, room)
        }),
        Operation::JoinedHtmlStrict => makes(call.room, answer, |room| {
            joined_render::joined_html_strict(given, full, css, room)
        }),
        Operation::JoinedMarkdown => makes(call.room, answer, |room| {
            joined_render::joined_markdown(given, full, room)
        }),
        Operation::JoinedRoff => makes(call.room, answer, |room| {
            joined_render::joined_roff(given, room)
        }),
        Operation::Merge => makes(call.room, answer, |room| {
            merge::merge(
                base::get(given, 0, first),
                base::get_from(given, first),
                room,
            )
        }),
        _ => false,
    }
}

// The calls of this program's list, as its line names them.
const NAMES: [(Operation, &[u8]); 9] = [
    (Operation::Join, b"join "),
    (Operation::Unjoin, b", unjoin "),
    (Operation::JoinedCheck, b", check "),
    (Operation::JoinedConsole, b", console "),
    (Operation::JoinedHtml, b", html "),
    (Operation::JoinedHtmlStrict, b", html_strict "),
    (Operation::JoinedMarkdown, b", markdown "),
    (Operation::JoinedRoff, b", roff "),
    (Operation::Merge, b", merge "),
];

// A read or a write that fails ends the program with its error.
fn main(rt: HostRuntime) -> io::Result<()> {
    run::run(&mut rt.stdin(), &mut rt.stdout(), &NAMES, agrees)
}
