// The calls of the list of samples that `try_samples` runs, beside the wanted answer.

#![tactic(auto)]

ghost use Rattle.std.specs.Prelude.{◌≡◌, MatchOption, true, false, [], ◌++◌, length};
ghost use Rattle.base.specs.Result.{measured};
ghost use Rattle.compared.specs.InnerCompared.{asked};
ghost use Rattle.document.specs.Document.{check};
ghost use Rattle.refusal.specs.Answers.{answered};
ghost use Rattle.renderer.specs.Rendered.{filled};
ghost use Rattle.room.specs.Room.{seen, extended};
ghost use Rattle.roff_escape.specs.Escape.{preamble};
ghost use Rattle.sample_lines.specs.InnerLines.{text_from};
ghost use Rattle.sample_calls.specs.InnerCalls.{by_letter, letter_of, is_call, wanted_text, is_wanted, wanted_in, agrees};

use compared::Refused;
use console_rules::{Measure, Settings};
use refusal::Refusal;
use room::Text;

// What stands before roff's text. (Its bytes stand here and in `roff_escape`: what is wanted takes nothing from the renderer that it is compared with.)
const PREAMBLE: &[u8] = b".ie \\n(.g .ds Aq \\(aq\n.el .ds Aq '\n";

// The wanted text of a line `=`, with roff's preamble before it.
pub fn put_wanted(text: &mut [u8], line: &[u8]) -> usize
    ensures { seen text.new result ≡ extended (length text.old) (preamble ++ text_from line.now 2) [] }
{
    let mut t = Text::new(text);
    t.put_all(PREAMBLE);
    sample_lines::put_text(&mut t, base::get_from(line, 2));
    t.finish()
}

// The calls.
#[derive(Clone, Copy)]
enum Call {
    Check,
    Console,
    Brief,
    Html,
    StrictHtml,
    Markdown,
    Roff,
}

// The call that a letter stands for. (No `TryFrom`: it would need a type for the error, of which the one caller has no use.)
#[tactic(auto, unfolding(crate::specs::InnerCalls::is_call, crate::proofs::Names::choose))]
fn call_of(letter: u8) -> Option<Call>
    ensures { MatchOption result (is_call letter ≡ false) (λ call. (letter ≡ letter_of call) × (is_call letter ≡ true)) }
{
    match letter {
        b'k' => Some(Call::Check),
        b'c' => Some(Call::Console),
        b'b' => Some(Call::Brief),
        b'h' => Some(Call::Html),
        b's' => Some(Call::StrictHtml),
        b'm' => Some(Call::Markdown),
        b'r' => Some(Call::Roff),
        _ => None,
    }
}

// The wanted text for a call, of one that begins with the preamble.
#[tactic(auto, using(crate::proofs::Calls::text_other), unfolding(crate::specs::InnerCalls::wanted_text, crate::proofs::Names::choose))]
fn wanted_text<'a>(call: Call, text: &'a [u8]) -> &'a [u8]
    ensures { result.now ≡ wanted_text (letter_of call) text.now }
{
    match call {
        Call::Roff => text,
        _ => base::get_from(text, PREAMBLE.len()),
    }
}

// `check` as a call: an accepted document has an empty text.
fn check_in(document: &[u8], room: &mut [u8]) -> Result<usize, Refusal>
    ensures answer { answered result ≡ measured (check document.now) }
    ensures room { room.new ≡ filled (length room.old) (check document.now) }
{
    room::clear_from(room, 0);
    document::check(document)?;
    Ok(0)
}

// The console in bytes, `full` or not. (As in `sefgrunn` and `recorded`: one function for the three would stand in `console_rules`, where no function stands.)
fn settings(width: usize, full: bool) -> Settings
    ensures { result ≡ record { width = width; full = full; measure = Measure.Bytes } }
{
    Settings {
        width,
        full,
        measure: Measure::Bytes,
    }
}

// A call.
#[tactic(auto, unfolding(crate::specs::InnerCalls::by_letter, crate::proofs::Names::choose))]
fn called(call: Call, document: &[u8], width: usize, room: &mut [u8]) -> Result<usize, Refusal>
    ensures answer { answered result ≡ measured (by_letter (letter_of call) width (length room.old) document.now) }
    ensures room { room.new ≡ filled (length room.old) (by_letter (letter_of call) width (length room.old) document.now) }
{
    match call {
        Call::Check => check_in(document, room),
        Call::Console => console::render_console(document, settings(width, true), room),
        Call::Brief => console::render_console(document, settings(width, false), room),
        Call::Html => html::render_html(document, true, false, room),
        Call::StrictHtml => html::render_html_strict(document, true, false, room),
        Call::Markdown => markdown::render_markdown(document, true, room),
        Call::Roff => manpage::render_roff(document, room),
    }
}

// Whether a call answers as wanted, in a room whose bytes are not 0 before it.
fn is_wanted(
    call: Call,
    width: usize,
    document: &[u8],
    wanted: Result<&[u8], Refused>,
    room: &mut [u8],
) -> bool
    ensures { result ≡ is_wanted (letter_of call) width (length room.old) document.now (asked wanted.entry) }
{
    let answer = called(call, document, width, room);
    compared::is_rendered(answer, room, wanted.map(|text| wanted_text(call, text)))
}

// What is wanted: the first bytes of a text, so many, or a refusal. One with the number 0 is none: an empty text is wanted then.
#[tactic(auto, unfolding(crate::proofs::Names::choose))]
fn wanted_in<'a>(wanted: Result<usize, Refused>, text: &'a [u8]) -> Result<&'a [u8], Refused>
    ensures { asked result ≡ wanted_in wanted text.now }
{
    match wanted {
        Ok(size) => Ok(base::get(text, 0, size)),
        Err(w) => {
            if w.number == 0 {
                return Ok(&text[..0]);
            }
            Err(w)
        }
    }
}

// Whether a letter stands for a call that answers as wanted, a text that begins with the preamble or a refusal, in a room of so many bytes, 512 at most.
// (An array: no heap is used, as in the library.)
#[tactic(auto, using(crate::proofs::Calls::agrees_no))]
pub fn agrees(
    letter: u8,
    width: usize,
    size: usize,
    document: &[u8],
    wanted: Result<&[u8], Refused>,
) -> bool
    ensures { result ≡ agrees letter width size document.now (asked wanted.entry) }
{
    let Some(call) = call_of(letter) else {
        return false;
    };
    if 512 < size {
        return false;
    }
    let mut space = [0xA5u8; 512];
    is_wanted(call, width, document, wanted, &mut space[..size])
}

// The same, where a wanted text is told by its length, and is the first bytes, so many, of `text`. (`agrees` does not follow from it: there a refusal with the
// number 0 is wanted as such, which no call answers; here an empty text is wanted then.)
#[tactic(auto, using(crate::proofs::Calls::agrees_no))]
pub fn agrees_in(
    letter: u8,
    width: usize,
    size: usize,
    document: &[u8],
    wanted: Result<usize, Refused>,
    text: &[u8],
) -> bool
    ensures { result ≡ agrees letter width size document.now (wanted_in wanted text.now) }
{
    let Some(call) = call_of(letter) else {
        return false;
    };
    if 512 < size {
        return false;
    }
    let mut space = [0xA5u8; 512];
    let first = wanted_in(wanted, text);
    is_wanted(call, width, document, first, &mut space[..size])
}

#[cfg(test)]
mod tests {
    use super::*;

    // The document of the text `a b`, as 01 stores it: length 3, kind 1.
    const DOCUMENT: &[u8] = b"\x03\0\0\0\x01\0a b";

    // The wanted text, which begins with the preamble.
    const TEXT: &[u8] = b".ie \\n(.g .ds Aq \\(aq\n.el .ds Aq '\na b";

    // In a line of three columns the console writes `a b`, in two it folds; in a room of two bytes 13 is met.
    #[test]
    fn texts_and_refusals(rt: HostRuntime) {
        let no_room = Refused {
            number: 13,
            place: 0,
        };
        assert!(rt; agrees(b'c', 3, 512, DOCUMENT, Ok(TEXT)));
        assert!(rt; !agrees(b'c', 2, 512, DOCUMENT, Ok(TEXT)));
        assert!(rt;
            !agrees(b'c', 3, 513, DOCUMENT, Ok(TEXT)),
            "a room of 513 bytes"
        );
        assert!(rt; agrees(b'c', 3, 2, DOCUMENT, Err(no_room)));
        assert!(rt; !agrees(b'x', 3, 512, DOCUMENT, Ok(TEXT)), "no call");
        assert!(rt; agrees_in(b'c', 3, 512, DOCUMENT, Ok(38), TEXT));
        assert!(rt;
            !agrees_in(b'c', 3, 512, DOCUMENT, Ok(37), TEXT),
            "one byte less"
        );
    }

    // A refusal with the number 0, which no call answers; for `agrees_in` an empty text is wanted then.
    #[test]
    fn number_0(rt: HostRuntime) {
        let none = Refused {
            number: 0,
            place: 0,
        };
        assert!(rt; !agrees(b'k', 3, 512, DOCUMENT, Err(none)));
        assert!(rt; agrees_in(b'k', 3, 512, DOCUMENT, Err(none), TEXT));
    }
}
