// Rendering the joined form (02, point 7): it is moved into a document in a local buffer, that is rendered, and the place of a refusal is
// translated into the joined form.

#![tactic(auto)]

ghost use Rattle.std.specs.Prelude.{◌≡◌, true, false, ◌+◌, ◌≤◌, length};
ghost use Rattle.base.specs.Result.{gives, measured, ◌>>=◌ as bind};
ghost use Rattle.refusal.specs.Answers.{answered};
ghost use Rattle.renderer.specs.Rendered.{filled};
ghost use Rattle.any_renderer.specs.InnerRenders.{too_wide};
ghost use Rattle.joined_rules.specs.Joined.{short_joined, whole_text};
ghost use Rattle.joined_render_rules.specs.Render.{joined_console, joined_html, joined_markdown, joined_roff};
ghost use Rattle.joined_render.specs.InnerParts.{renders_joined};

use any_renderer::Asked;
use console_rules::Settings;
use document::MAX_BYTES;
use refusal::Refusal;

// What is asked for of a joined form, through a buffer that takes the document: what follows 1, 17 and 9.
fn through(
    joined: &[u8],
    asked: Asked,
    buffer: &mut [u8],
    room: &mut [u8],
) -> Result<usize, Refusal>
    requires { (bind (short_joined joined.now) whole_text ≡ gives joined.now) × (too_wide asked ≡ false) × (length joined.now ≤ length buffer.old + 4) }
    ensures answer { answered result ≡ measured (renders_joined asked (length room.old) joined.now) }
    ensures room { room.new ≡ filled (length room.old) (renders_joined asked (length room.old) joined.now) }
{
    match joined::unjoin(joined, buffer) {
        Ok(n) => {
            let answer = any_renderer::render_any(&buffer[..n], asked, room);
            joined_places::placed(joined, answer)
        }
        Err(a) => renderer::cleared(Err(a), room),
    }
}

// What is asked for of a joined form, or its refusal: 1, 17, 9, then the rest. The room is 0 beyond the text, and all 0 after a refusal. (No `?`: where the
// renderer was called it has cleared the room, and cleared here once more a room of 65,536 bytes costs a short form as much as its text.)
fn render(joined: &[u8], asked: Asked, room: &mut [u8]) -> Result<usize, Refusal>
    ensures answer { answered result ≡ measured (renders_joined asked (length room.old) joined.now) }
    ensures room { room.new ≡ filled (length room.old) (renders_joined asked (length room.old) joined.now) }
{
    if let Err(a) = joined_check::check_text(joined) {
        return renderer::cleared(Err(a), room);
    }
    if any_renderer::too_wide(asked) {
        return renderer::cleared(Err(Refusal::TooWide), room);
    }
    let n = joined.len() - 4;
    // Arrays, since the library has no heap; two of them, since zeros for the large one would cost a page of 2 KB a tenth of its time.
    if n <= 4_096 {
        let mut small: [u8; 4_096] = [0; 4_096];
        return through(joined, asked, &mut small[..n], room);
    }
    let mut buffer: [u8; MAX_BYTES] = [0; MAX_BYTES];
    through(joined, asked, &mut buffer[..n], room)
}

// The console text of a joined form. As with a document the room is 0 beyond the text, and all 0 after a refusal; so with the others.
pub fn joined_console(joined: &[u8], set: Settings, room: &mut [u8]) -> Result<usize, Refusal>
    ensures answer { answered result ≡ measured (joined_console set (length room.old) joined.now) }
    ensures room { room.new ≡ filled (length room.old) (joined_console set (length room.old) joined.now) }
{
    render(joined, Asked::Console(set), room)
}

// Its HTML. This one and the next are two functions, as the C interface has them.
// (So are the two flags, which a struct would hold for one call.)
pub fn joined_html(joined: &[u8], full: bool, css: bool, room: &mut [u8]) -> Result<usize, Refusal>
    ensures answer { answered result ≡ measured (joined_html (length room.old) false full css joined.now) }
    ensures room { room.new ≡ filled (length room.old) (joined_html (length room.old) false full css joined.now) }
{
    render(joined, Asked::Html { full, css }, room)
}

// Its strict HTML.
pub fn joined_html_strict(
    joined: &[u8],
    full: bool,
    css: bool,
    room: &mut [u8],
) -> Result<usize, Refusal>
    ensures answer { answered result ≡ measured (joined_html (length room.old) true full css joined.now) }
    ensures room { room.new ≡ filled (length room.old) (joined_html (length room.old) true full css joined.now) }
{
    render(joined, Asked::StrictHtml { full, css }, room)
}

// Its Markdown.
pub fn joined_markdown(joined: &[u8], full: bool, room: &mut [u8]) -> Result<usize, Refusal>
    ensures answer { answered result ≡ measured (joined_markdown (length room.old) full joined.now) }
    ensures room { room.new ≡ filled (length room.old) (joined_markdown (length room.old) full joined.now) }
{
    render(joined, Asked::Markdown { full }, room)
}

// Its roff.
pub fn joined_roff(joined: &[u8], room: &mut [u8]) -> Result<usize, Refusal>
    ensures answer { answered result ≡ measured (joined_roff (length room.old) joined.now) }
    ensures room { room.new ≡ filled (length room.old) (joined_roff (length room.old) joined.now) }
{
    render(joined, Asked::Roff, room)
}
