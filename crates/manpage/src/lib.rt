// Roff: `Doc::render_roff` given `Roff::new()` (src/buffer/manpage.rs).

#![tactic(auto)]

ghost use Rattle.std.specs.Prelude.{◌≡◌, ◌≤◌, Bool, true, false, not, List, ◌++◌, ◌+◌, ℕ, length};
ghost use Rattle.base.specs.Bytes.{part};
ghost use Rattle.base.specs.Result.{measured, ◌>>=◌ as bind};
ghost use Rattle.utf8.specs.Utf8.{utf8};
ghost use Rattle.upper.specs.Upper.{upper};
ghost use Rattle.records.specs.Records.{tokens, kind_of};
ghost use Rattle.records.specs.declared.Kind.TheVariants as kind;
ghost use Rattle.renderer.specs.Walk.{empty};
ghost use Rattle.refusal.specs.Answers.{answered};
ghost use Rattle.renderer.specs.Rendered.{standing, filled, Inside};
ghost use Rattle.roff_escape.specs.declared.escape.Escape.TheVariants as mode;
ghost use Rattle.roff_escape.specs.Composer.{control, text};
ghost use Rattle.roff_escape.specs.InnerParts.{roff_of, with_escaped, pushed};
ghost use Rattle.manpage.specs.Roff.{font_of, subsection, started, ended, roff_on, roff};
ghost use Rattle.manpage.specs.InnerParts.{HasBegun, IsSameRoom, argument_pieces, locals, Follows, CasedTo, is_heading, ends_heading, record_text, texts_valid, behind, opened, shut, is_silent, silent, Alike};

use document::Accepted;
use records::{Block, Kind, Record, Records, Style};
use refusal::Refusal;
use roff_escape::escape::Escape;
use roff_escape::roff;
use roff_escape::roff::{Font, Roff};
use room::Text;
use std::marker::Model;

// `From<Style> for Font`, which stands here as in the Rust: no `impl From`, since neither type is of this crate, and `roff_escape` has no records.
fn font_of(style: Style) -> Font
    ensures { result ≡ font_of style }
{
    match style {
        Style::Text => Font::Roman,
        Style::Emphasis => Font::Bold,
        Style::Literal => Font::Bold,
        Style::Metavar => Font::Italic,
        Style::Invalid => Font::Italic,
    }
}

// The blocks whose text is captured.
fn is_heading(b: Block) -> bool
    ensures { result ≡ is_heading b }
{
    matches!(
        b,
        Block::Header | Block::Section2 | Block::Section3 | Block::Section4
    )
}

// What ends all capture: the end of a heading.
fn ends_heading(kind: Kind) -> bool
    ensures { result ≡ ends_heading kind }
{
    matches!(kind, Kind::End(b) if is_heading(b))
}

// The text of a record; a block record has none. An empty part and no Option: to a heading it adds as much as no text does.
fn text_of<'a>(r: Record<'a>) -> &'a [u8]
    ensures { result.now ≡ record_text r.entry.kind r.entry.body.now }
{
    match r.kind {
        Kind::Text(_) => r.body,
        _ => &r.body[..0],
    }
}

// Text of a heading in upper case by the table. The steps are whole characters, so no `for`.
// Bytes and no `&str`, here and in the next two functions: a record's body is `&[u8]`. `from_utf8` would test it again, as the check of the document did, and
// its Err arm would need an answer that no document leads to.
// The bytes of `cased` are cut here alone, so by no method of `Uppercased`.
fn escape_mapped(m: &mut Roff, bytes: &[u8])
    requires { utf8 bytes.now ≡ true }
    ensures { roff_of m.new ≡ with_escaped mode.Spaces (upper bytes.now) (roff_of m.old) }
{
    let mut i: usize = 0;
    while i < bytes.len() {
        let cased = upper::to_uppercase(bytes, i);
        m.escape_bytes(Escape::Spaces, &cased.bytes[..cased.len]);
        i = cased.next;
    }
}

// Text of a heading in upper case, up to the first byte beyond ASCII; what is left of it from there on.
fn escape_upper<'a>(m: &mut Roff, bytes: &'a [u8]) -> &'a [u8]
    requires { utf8 bytes.now ≡ true }
    ensures { CasedTo bytes.now (roff_of m.old) (roff_of m.new) result.now }
{
    for (i, &b) in bytes.iter().enumerate() {
        if !b.is_ascii() {
            return &bytes[i..];
        }
        m.put_byte(Escape::Spaces, b.to_ascii_uppercase());
    }
    &bytes[bytes.len()..]
}

// Text of a heading in upper case, ASCII first and then by the table.
fn escape_cased(m: &mut Roff, bytes: &[u8])
    requires { utf8 bytes.now ≡ true }
    ensures { roff_of m.new ≡ with_escaped mode.Spaces (upper bytes.now) (roff_of m.old) }
{
    let rest = escape_upper(m, bytes);
    escape_mapped(m, rest);
}

// What is captured for a heading: the records up to its end, of which each has text that is UTF-8 by itself. Contracts see it as their text.
#[derive(Drop)]
struct Heading<'a> {
    records: Records<'a>,
}

impl<'a> Model for Heading<'a> {
    ghost use Rattle.std.specs.Prelude.{List, ℕ, ◌≡◌, true};
    ghost use Rattle.records.specs.Listed.{left as tokens_left};
    ghost use Rattle.manpage.specs.InnerParts.{heading_text, texts_valid};

    ghost Value = { List ℕ };

    ghost view = { λ h. heading_text (tokens_left h.records) };

    ghost invariant = { λ h. texts_valid (tokens_left h.records) ≡ true };
}

// The text of a heading in upper case; whether there was any.
fn put_captured(m: &mut Roff, heading: Heading) -> bool
    ensures text { roff_of m.new ≡ with_escaped mode.Spaces (upper heading.entry) (roff_of m.old) }
    ensures some { result ≡ not (empty heading.entry) }
    ensures valid { utf8 heading.entry ≡ true }
{
    let mut some = false;
    for r in heading.records {
        if ends_heading(r.kind) {
            return some;
        }
        let body = text_of(r);
        escape_cased(m, body);
        some |= !body.is_empty();
    }
    some
}

// The argument of a heading's control line, and the space before it; an empty one is `""`.
fn put_argument(m: &mut Roff, heading: Heading)
    ensures { roff_of m.new ≡ pushed (argument_pieces (upper heading.entry)) (roff_of m.old) }
{
    m.push(Escape::Unescaped, b" ");
    if put_captured(m, heading) {
        return;
    }
    m.push(Escape::Spaces, b"\"\"");
}

// `Roff::control` with the text of a heading as its argument.
fn control(m: &mut Roff, name: &[u8], heading: Heading)
    ensures { roff_of m.new ≡ pushed (control name.now (upper heading.entry)) (roff_of m.old) }
{
    m.control_name(name);
    put_argument(m, heading);
    m.roff_linebreak();
}

// 'if style == Style::Emphasis': a control line before it.
fn put_subsection(m: &mut Roff, style: Style)
    ensures { roff_of m.new ≡ pushed (subsection style) (roff_of m.old) }
{
    if style == Style::Emphasis {
        m.control0(b"SS");
    }
}

// The text between two places of a document, which is not captured. Not the text alone: `Roff::text` says why.
fn put_text(m: &mut Roff, style: Style, document: &[u8], from: usize, to: usize)
    ensures { roff_of m.new ≡ pushed (subsection style ++ text m.old.strip (font_of style) (part document.now from to)) (roff_of m.old) }
{
    put_subsection(m, style);
    m.text(font_of(style), document, from, to);
}

// `Token::BlockStart`. The walk starts capture at a heading, and refuses TermRef before it comes here.
fn started(m: &mut Roff, b: Block)
    ensures { (p : ℕ) (kept : List ℕ) (capture : Bool) → Follows (started p b (locals m.old.strip kept capture)) (roff_of m.old) (roff_of m.new) }
{
    match b {
        Block::ItemTerm => {
            m.control0(b"TP");
            m.strip_newlines(true);
        }
        Block::Block => m.control0(b"PP"),
        Block::Meta => m.control0(b"nf"),
        _ => {}
    }
}

// The end of a heading. The name by itself, and no `match` with a call of `control` in each arm: called from two places `control` is not inlined into the
// walk, and the text's length is then not held in a register: pages of options take 1.03 to 1.05 of the time, and a page of headings 1.15 to 1.2.
fn headed(m: &mut Roff, b: Block, heading: Heading)
    requires { is_heading b ≡ true }
    ensures { (p : ℕ) (capture : Bool) → Follows (ended p b (locals m.old.strip heading.entry capture)) (roff_of m.old) (roff_of m.new) }
{
    let name = if b == Block::Header { b"SH" } else { b"SS" };
    control(m, name, heading);
}

// The end of a block that is no heading; the text that is captured does not matter.
fn left(m: &mut Roff, b: Block)
    requires { is_heading b ≡ false }
    ensures { (p : ℕ) (kept : List ℕ) (capture : Bool) → Follows (ended p b (locals m.old.strip kept capture)) (roff_of m.old) (roff_of m.new) }
{
    match b {
        Block::ItemTerm => {
            m.roff_linebreak();
            m.strip_newlines(false);
        }
        Block::ItemBody => {
            m.control0(b"PP");
            m.strip_newlines(false);
        }
        Block::Meta => m.control0(b"fi"),
        _ => {}
    }
}

// `Token::BlockEnd`; where it ends a heading, that is given. TermRef is refused before. Headings, which are few, stand apart: the others
// then need nothing of the records at hand.
fn ended(m: &mut Roff, b: Block, heading: Heading)
    ensures { (p : ℕ) (kept : List ℕ) (capture : Bool) → (is_heading b ≡ true → heading.entry ≡ kept) → Follows (ended p b (locals m.old.strip kept capture)) (roff_of m.old) (roff_of m.new) }
{
    if is_heading(b) {
        headed(m, b, heading);
    } else {
        left(m, b);
    }
}

// The blocks for which nothing is written and nothing changes, neither at their start nor at their end.
fn is_silent(b: Block) -> bool
    ensures { result ≡ is_silent b }
{
    matches!(b, Block::DefinitionList | Block::InlineBlock | Block::Mono)
}

// Whether a record is the start or the end of one of them.
fn is_silent_kind(kind: Kind) -> bool
    ensures { result ≡ silent kind }
{
    match kind {
        Kind::Start(b) => is_silent(b),
        Kind::End(b) => is_silent(b),
        _ => false,
    }
}

// Whether a kind's number is that of a start or an end of them.
fn is_silent_number(k: usize) -> bool
    ensures { result ≡ true → silent (kind_of k) ≡ true }
{
    matches!(k, 0x0106 | 0x0108 | 0x010b | 0x0206 | 0x0208 | 0x020b)
}

// The place behind the records of such blocks that stand from a place on.
fn past_silent(document: &[u8], from: usize) -> usize
    ensures { (from ≤ result) × Alike document.now from result }
{
    let mut at = from;
    while is_silent_number(records::bare_at(document, at)) {
        at += 6;
    }
    at
}

// From which place on text is captured behind the records from a place to another, which have no text: those that stand before all captured text need not be
// read again at the heading's end.
fn behind(captured: Option<usize>, place: usize, next: usize) -> Option<usize>
    ensures { result ≡ behind captured place next }
{
    if captured == Some(place) {
        Some(next)
    } else {
        captured
    }
}

// And after a block's start.
fn opens_capture(b: Block, captured: Option<usize>, place: usize, next: usize) -> Option<usize>
    ensures { result ≡ opened b captured place next }
{
    if is_heading(b) {
        return behind(Some(captured.unwrap_or(place)), place, next);
    }
    captured
}

// And after a block's end.
#[tactic(auto, using(crate::proofs::Names::if_true, crate::proofs::Names::if_false), unfolding(crate::specs::InnerParts::shut))]
fn ends_capture(b: Block, captured: Option<usize>) -> Option<usize>
    ensures { result ≡ shut b captured }
{
    if is_heading(b) { None } else { captured }
}

// The walk over the records of a document. Text is captured from a place on, or not; a heading's end reads the records from there again. No record is
// captured by two headings, so each is read twice at most. Whether the room is full is asked before text and at a heading's end alone: at each record that
// took 1.05 of the time. By places and no `for` over `Records`, since the records of silent blocks are stepped over by their bytes.
fn walk(m: &mut Roff, accepted: &Accepted) -> Result<(), Refusal>
    requires { HasBegun (roff_of m.old) }
    ensures same { IsSameRoom (roff_of m.old) (roff_of m.new) }
    ensures text { bind (answered result) (λ _. (roff_of m.new).payload.text.shown) ≡ roff_on (roff_of m.old).payload.text.size (tokens 0 0 accepted.now) }
{
    let document = accepted.bytes();
    let mut captured: Option<usize> = None;
    let mut at: usize = 0;
    while at < document.len() {
        let r = records::record_at(document, at);
        // what roff has no form for: refusal 11
        if r.kind.is_of(Block::TermRef) {
            return Err(renderer::no_form_in(&*m.text, at));
        }
        if is_silent_kind(r.kind) {
            let next = past_silent(document, r.next);
            captured = behind(captured, at, next);
            at = next;
            continue;
        }
        match r.kind {
            Kind::Text(style) => {
                if captured.is_none() {
                    if m.text.is_full() {
                        return Err(Refusal::NoRoom);
                    }
                    put_text(m, style, document, r.start, r.next);
                } else if r.start == r.next {
                    captured = behind(captured, at, r.next);
                }
            }
            Kind::Start(b) => {
                started(m, b);
                captured = opens_capture(b, captured, at, r.next);
            }
            Kind::End(b) => {
                // Of a heading all text is read, cased and written here: not into a room that is full.
                if is_heading(b) && m.text.is_full() {
                    return Err(Refusal::NoRoom);
                }
                let records = Records::from_place(document, captured.unwrap_or(at));
                ended(m, b, Heading { records });
                captured = ends_capture(b, captured);
            }
            Kind::Unknown => {}
        }
        at = r.next;
    }
    Ok(())
}

// Refusals 1 to 8, and then the walk.
fn rendered(document: &[u8], room: &mut [u8]) -> Result<usize, Refusal>
    ensures text { standing room.new result ≡ roff (length room.old) document.now }
    ensures inside { Inside (length room.old) result }
{
    let accepted = Accepted::of(document)?;
    let mut text = Text::new(room);
    roff::put_preamble(&mut text);
    // made here and not by a function, since Rattle tells what a text is after a loan of it in a struct only where both are made
    let mut m = Roff {
        text: &mut text,
        fresh: true,
        strip: false,
    };
    walk(&mut m, &accepted)?;
    renderer::finish(text)
}

// `Doc::render_roff` given `Roff::new()`: the text stands in the room, with zeros beyond it; after a refusal the room is all zeros.
// Each renderer has this line: console::render_console says why.
pub fn render_roff(document: &[u8], room: &mut [u8]) -> Result<usize, Refusal>
    ensures answer { answered result ≡ measured (roff (length room.old) document.now) }
    ensures text { room.new ≡ filled (length room.old) (roff (length room.old) document.now) }
{
    renderer::cleared(rendered(document, room), room)
}
