// The marks of Markdown (src/buffer/html.rs): those of styles and blocks, and the numbers and flags after a block.
// Functions of a text and of numbers and flags, and no methods of a struct of both: of a Text within a struct the room's lender learns nothing, and a
// flat one would have the methods of Text again.

#![tactic(auto)]

ghost use Rattle.std.specs.Prelude.{◌≡◌, ◌++◌};
ghost use Rattle.base.specs.Result.{refused, ◌>>=◌ as bind};
ghost use Rattle.room.specs.Lent.{text_of, with_bytes, wrote};
ghost use Rattle.records.specs.Records.{is_end};
ghost use Rattle.records.specs.Listed.{left};
ghost use Rattle.records.specs.declared.Style.TheVariants as style;
ghost use Rattle.html_rules.specs.Markdown.{with_style, opening, closing, term_ends};
ghost use Rattle.renderer.specs.Rendered.{refusal_of};
ghost use Rattle.markdown_marks.specs.InnerParts.{marks, met_term, start_of, end_of, closed, started_text, ended_text, Few};

use html_rules::Markdown;
use records::{Block, Kind, Records, Style};
use refusal::Refusal;
use room::Text;

// The marks that open a style, or those that close it. Each arm writes a text of its own, whose length the compiler knows: a function that hands
// out the text takes a tenth more instructions. One function, since two would have the first two arms twice.
#[tactic(auto, using(crate::proofs::Texts::no_bytes, crate::proofs::Texts::marks_none), unfolding(utf8::specs::Utf8::bytes, utf8::specs::Utf8::encode, crate::proofs::Names::choose))]
fn put_marks(t: &mut Text, st: Style, opens: bool)
    ensures { text_of t.new ≡ with_bytes (marks opens st) (text_of t.old) }
{
    match (st, opens) {
        (Style::Text, _) => {}
        (Style::Emphasis | Style::Invalid, _) => t.put_all(b"**"),
        (Style::Literal, true) => t.put_all(b"**`"),
        (Style::Literal, false) => t.put_all(b"`**"),
        (Style::Metavar, true) => t.put_all(b"_`"),
        (Style::Metavar, false) => t.put_all(b"`_"),
    }
}

// The open style is closed, and another opened. Callers set the style: with `&mut Style` here, as HTML has it, Markdown takes 1.12 to 1.15 of the time.
pub fn change_to_markdown_style(t: &mut Text, old: Style, new: Style)
    ensures { text_of t.new ≡ with_bytes (closing old ++ opening new) (text_of t.old) }
{
    put_marks(t, old, false);
    put_marks(t, new, true);
}

// A block's start that is not Meta's: the style is closed, its texts follow, and the numbers and flags change.
#[tactic(auto, unfolding(crate::specs::InnerParts::start_of, html_rules::specs::Markdown::started))]
pub fn put_start(t: &mut Text, l: &mut Markdown, b: Block)
    ensures text { text_of t.new ≡ wrote (λ size. started_text size l.old b) (text_of t.old) }
    ensures after { Few l.old → l.new ≡ (start_of (with_style style.Text l.old) b).after }
{
    change_to_markdown_style(t, l.style, Style::Text);
    l.style = Style::Text;
    match b {
        Block::Header => {
            html_marks::separate(t, b"\n\n");
            t.put_all(if l.titled { b"## " } else { b"# " });
            l.titled = true;
        }
        Block::ItemBody => {
            if l.listed {
                t.put_all(if l.bare { b" " } else { b" &mdash; " });
            }
            html_marks::separate(t, b"\n");
            t.put_all(b"  ");
        }
        Block::Section4 | Block::ItemTerm => {
            html_marks::separate(t, b"\n");
            t.put_all(if l.bare { b"  " } else { b"- " });
        }
        Block::Section3 => t.put_all(b"### "),
        Block::Block => t.put_all(b"\n"),
        Block::DefinitionList => l.listed = true,
        Block::InlineBlock => l.skip.push(),
        Block::Mono => l.mono = l.mono.saturating_add(1),
        Block::Section2 | Block::TermRef | Block::Meta => {}
    }
}

// A block's end that is not Meta's: the style is closed, its text follows, and the numbers and flags change.
#[tactic(auto, unfolding(crate::specs::InnerParts::end_of, html_rules::specs::Markdown::ended))]
pub fn put_end(t: &mut Text, l: &mut Markdown, b: Block)
    ensures text { text_of t.new ≡ wrote (λ size. ended_text size l.old b) (text_of t.old) }
    ensures after { l.new ≡ (end_of (with_style style.Text l.old) b).after }
{
    change_to_markdown_style(t, l.style, Style::Text);
    l.style = Style::Text;
    match b {
        Block::Header | Block::Section2 | Block::Section3 | Block::Section4 | Block::Block => {
            t.put(b'\n');
        }
        Block::ItemBody => {
            if l.listed {
                t.put(b'\n');
            }
        }
        Block::DefinitionList => {
            l.listed = false;
            t.put(b'\n');
        }
        Block::InlineBlock => l.skip.pop(),
        Block::Mono => l.mono = l.mono.saturating_sub(1),
        Block::ItemTerm | Block::TermRef | Block::Meta => {}
    }
}

// Meta: the style is closed, and then 11 is met. HTML has the same with its own tags: one function for both would be told what closes the style.
pub fn meet_meta(t: &mut Text, st: Style, at: usize) -> Refusal
    ensures { refusal_of result ≡ bind (text_of t.old).shown (λ x. bind (closed (text_of t.old).size st x) (λ _. refused 11 at)) }
{
    change_to_markdown_style(t, st, Style::Text);
    renderer::no_form_in(t, at)
}

// Whether the first of some records is the end of a term.
#[tactic(auto, unfolding(html_rules::specs::Markdown::term_ends))]
fn term_ends(records: Records) -> bool
    ensures { result ≡ term_ends (left records.entry) }
{
    let mut rest = records;
    matches!(rest.next(), Some(r) if r.kind == Kind::End(Block::ItemTerm))
}

// At the start of an ItemTerm or a Section4, by the records after it: whether its term is empty.
#[tactic(auto, using(crate::proofs::Flags::item, crate::proofs::Flags::no_item))]
pub fn met_term(l: &mut Markdown, records: Records, b: Block)
    ensures { l.new ≡ met_term b (term_ends (left records.entry)) l.old }
{
    if matches!(b, Block::Section4 | Block::ItemTerm) {
        l.bare = term_ends(records);
    }
}
