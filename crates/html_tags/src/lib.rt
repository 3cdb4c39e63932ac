// The texts of HTML (src/buffer/html.rs): tags of styles and blocks, and chunks.

#![tactic(auto)]

ghost use Rattle.std.specs.Prelude.{◌≡◌, ◌++◌};
ghost use Rattle.base.specs.Result.{refused, ◌>>=◌ as bind};
ghost use Rattle.room.specs.Lent.{text_of, with_bytes, wrote};
ghost use Rattle.splitter.specs.Answers.{chunk_of};
ghost use Rattle.html_rules.specs.Html.{opening, closing, start_tag, end_tag};
ghost use Rattle.renderer.specs.Rendered.{refusal_of};
ghost use Rattle.html_tags.specs.InnerParts.{chunk_text, closed, block_text};
ghost use Rattle.records.specs.declared.Style.TheVariants as style;

use html_escape::Escape;
use records::{Block, Style};
use refusal::Refusal;
use room::Text;
use splitter::Piece;

// The tags that open a style, and those that close it.
#[tactic(auto, unfolding(utf8::specs::Utf8::bytes, utf8::specs::Utf8::encode, crate::proofs::Names::choose))]
fn style_tags(st: Style) -> (&'static [u8], &'static [u8])
    ensures open { result.0.now ≡ opening st }
    ensures close { result.1.now ≡ closing st }
{
    match st {
        Style::Text => (b"", b""),
        Style::Emphasis | Style::Invalid => (b"<b>", b"</b>"),
        Style::Literal => (b"<tt><b>", b"</b></tt>"),
        Style::Metavar => (b"<tt><i>", b"</i></tt>"),
    }
}

// The tags of a block's start and of its end, by whether a DefinitionList is the innermost block before the start or after the end.
#[tactic(auto, unfolding(utf8::specs::Utf8::bytes, utf8::specs::Utf8::encode, crate::proofs::Names::choose))]
fn block_tags(b: Block, listed: bool) -> (&'static [u8], &'static [u8])
    ensures start { result.0.now ≡ start_tag listed b }
    ensures end { result.1.now ≡ end_tag listed b }
{
    match b {
        Block::Header => (b"# ", b""),
        Block::Section2 => (b"<div>\n", b"</div>"),
        Block::Section3 | Block::Section4 => (b"<div style='padding-left: 0.5em'>", b"</div>"),
        Block::ItemTerm => (b"<dt>", b"</dt>\n"),
        Block::ItemBody if listed => (b"<dd>", b"</dd>\n"),
        Block::ItemBody => (b"<li>", b"</li>\n"),
        Block::DefinitionList => (b"<dl>", b"</dl>\n"),
        Block::Block => (b"<p>", b"</p>"),
        Block::InlineBlock | Block::TermRef | Block::Meta | Block::Mono => (b"", b""),
    }
}

// The open style is closed, and another opened (the source's `change_style`).
// Functions of a text and a style, for the reason in `markdown_marks`. That the style is Text after a call is no invariant, so each contract says it.
pub fn change_style(t: &mut Text, st: &mut Style, new: Style)
    ensures text { text_of t.new ≡ with_bytes (closing st.old ++ opening new) (text_of t.old) }
    ensures style { st.new ≡ new }
{
    t.put_all(style_tags(*st).1);
    t.put_all(style_tags(new).0);
    *st = new;
}

// A block's start or end that is not Meta's: the style is closed, and the tag follows. (The hint: as a call, which takes the text's address, the walk keeps the
// text's length in memory, and HTML takes 1.09 to 1.17 of the time.)
#[inline(always)]
fn put_block(t: &mut Text, st: &mut Style, b: Block, tag: &[u8])
    ensures text { text_of t.new ≡ wrote (λ size. block_text size st.old b tag.now) (text_of t.old) }
    ensures style { st.new ≡ style.Text }
{
    change_style(t, st, Style::Text);
    if b == Block::Header {
        html_marks::separate(t, b"<br>\n");
    }
    t.put_all(tag);
}

// A block's start, by whether a DefinitionList is the innermost block before it.
pub fn put_start(t: &mut Text, st: &mut Style, b: Block, listed: bool)
    ensures text { text_of t.new ≡ wrote (λ size. block_text size st.old b (start_tag listed b)) (text_of t.old) }
    ensures style { st.new ≡ style.Text }
{
    put_block(t, st, b, block_tags(b, listed).0);
}

// A block's end, by whether a DefinitionList is the innermost block after it. Two functions, as the source has an arm for each: one would be told which tag to write.
pub fn put_end(t: &mut Text, st: &mut Style, b: Block, listed: bool)
    ensures text { text_of t.new ≡ wrote (λ size. block_text size st.old b (end_tag listed b)) (text_of t.old) }
    ensures style { st.new ≡ style.Text }
{
    put_block(t, st, b, block_tags(b, listed).1);
}

// Meta: the style is closed, and then 11 is met. Markdown has the same with its own marks: one function for both would take the text that closes
// the style, and only the call of change_style would go.
pub fn meet_meta(t: &mut Text, st: &mut Style, at: usize) -> Refusal
    ensures refused { refusal_of result ≡ bind (text_of t.old).shown (λ x. bind (closed (text_of t.old).size st.old x) (λ _. refused 11 at)) }
    ensures style { st.new ≡ style.Text }
{
    change_style(t, st, Style::Text);
    renderer::no_form_in(t, at)
}

// A chunk that does not end the walk of its body. It has places and no text, since the C interface gives places (`next_chunk`).
// `strict` and no Escape: an Escape may be Markdown's, which no chunk of HTML has.
#[tactic(auto, unfolding(utf8::specs::Utf8::bytes, utf8::specs::Utf8::encode, html_rules::specs::Html::br, crate::proofs::Names::choose))]
pub fn put_chunk(t: &mut Text, body: &[u8], piece: Piece, strict: bool)
    ensures { text_of t.new ≡ with_bytes (chunk_text strict (chunk_of body.now piece)) (text_of t.old) }
{
    match piece {
        Piece::Raw { .. } => {
            html_escape::put_escaped(t, piece.text_of(body), Escape::Html { strict });
        }
        Piece::Space(_) => t.put(b' '),
        Piece::Paragraph(_) | Piece::LineBreak(_) => t.put_all(b"<br>\n"),
    }
}
