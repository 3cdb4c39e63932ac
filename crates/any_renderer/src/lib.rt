// Any renderer: which one is told by a value.
// (A value and no closure: the rules speak of it, and a closure's promise would stand in each contract that takes one.)

#![tactic(auto)]

ghost use Rattle.std.specs.Prelude.{◌≡◌, length};
ghost use Rattle.base.specs.Result.{measured};
ghost use Rattle.refusal.specs.Answers.{answered};
ghost use Rattle.renderer.specs.Rendered.{filled};
ghost use Rattle.any_renderer.specs.InnerRenders.{renders, too_wide};

use console_rules::{MAX_WIDTH, Settings};
use refusal::Refusal;

// What is asked for: the console, HTML, strict HTML, Markdown, roff; `css` is the style sheet.
// (Two cases for HTML, as `html` has two functions: of one case with a flag more, the flag would be taken apart again in two longer arms.)
#[derive(Clone, Copy)]
pub enum Asked {
    Console(Settings),
    Html { full: bool, css: bool },
    StrictHtml { full: bool, css: bool },
    Markdown { full: bool },
    Roff,
}

// What is asked for, of a document.
pub fn render_any(document: &[u8], asked: Asked, room: &mut [u8]) -> Result<usize, Refusal>
    ensures answer { answered result ≡ measured (renders asked (length room.old) document.now) }
    ensures room { room.new ≡ filled (length room.old) (renders asked (length room.old) document.now) }
{
    match asked {
        Asked::Console(set) => console::render_console(document, set, room),
        Asked::Html { full, css } => html::render_html(document, full, css, room),
        Asked::StrictHtml { full, css } => html::render_html_strict(document, full, css, room),
        Asked::Markdown { full } => markdown::render_markdown(document, full, room),
        Asked::Roff => manpage::render_roff(document, room),
    }
}

// Refusal 9.
pub fn too_wide(asked: Asked) -> bool
    ensures { result ≡ too_wide asked }
{
    matches!(asked, Asked::Console(set) if MAX_WIDTH < set.width)
}
