// Escapes of HTML, strict HTML and Markdown (src/buffer/html.rs).

#![tactic(auto)]

ghost use Rattle.std.specs.Prelude.{◌≡◌};
ghost use Rattle.room.specs.Lent.{text_of, with_bytes};
ghost use Rattle.html_rules.specs.Marks.{escaped_by};
ghost use Rattle.html_escape.specs.InnerParts.{entity_of};

use room::Text;

// How the bytes of a chunk are escaped: as HTML, strict or not, as Markdown inside Mono. A name and no closure that escapes a byte:
// what such a closure writes would be asked of callers by a `requires`.
#[derive(Clone, Copy)]
pub enum Escape {
    Html { strict: bool },
    Mono,
}

// A byte of a chunk, or what stands for it.
#[tactic(auto, unfolding(utf8::specs::Utf8::bytes, utf8::specs::Utf8::encode, html_rules::specs::Html::entity, html_rules::specs::Markdown::bracket, crate::proofs::Names::choose))]
pub fn put_escape(t: &mut Text, byte: u8, how: Escape)
    ensures { text_of t.new ≡ with_bytes (entity_of how byte) (text_of t.old) }
{
    match (how, byte) {
        (Escape::Html { .. }, b'<') => t.put_all(b"&lt;"),
        (Escape::Html { .. }, b'>') => t.put_all(b"&gt;"),
        (Escape::Html { strict: true }, b'&') => t.put_all(b"&amp;"),
        (Escape::Mono, b'[') => t.put_all(b"\\["),
        (Escape::Mono, b']') => t.put_all(b"\\]"),
        _ => t.put(byte),
    }
}

// The bytes of a chunk, escaped in one pass.
pub fn put_escaped(t: &mut Text, text: &[u8], how: Escape)
    ensures { text_of t.new ≡ with_bytes (escaped_by (entity_of how) text.now) (text_of t.old) }
{
    for &byte in text {
        put_escape(t, byte, how);
    }
}
