// What the renderers share: their answers, and where the walk of a body ends.

#![tactic(auto)]

ghost use Rattle.std.specs.Prelude.{◌≡◌, false, List, ℕ, ◌<◌, length};
ghost use Rattle.splitter.specs.Answers.{chunk_of};
ghost use Rattle.renderer.specs.Walk.{last};
ghost use Rattle.renderer.specs.Rendered.{standing, filled, Inside, refusal_of};
ghost use Rattle.base.specs.Result.{refused, ◌>>=◌ as bind};
ghost use Rattle.room.specs.Room.{seen};
ghost use Rattle.room.specs.Lent.{text_of};

use refusal::Refusal;
use room::Text;
use splitter::Piece;

// An answer handed on, with zeros beyond the text, or everywhere after a refusal.
pub fn cleared(answer: Result<usize, Refusal>, room: &mut [u8]) -> Result<usize, Refusal>
    ensures answer { result ≡ answer }
    ensures room { room.new ≡ filled (length room.old) (standing room.old answer) }
{
    room::clear_from(room, answer.unwrap_or(0));
    answer
}

// Whether a chunk ends the walk of its body: 'With `full` off, a paragraph chunk ends the walk of that body'.
pub fn ends_body(piece: Piece, full: bool) -> bool
    ensures { (body : List ℕ) → result ≡ last full (chunk_of body piece) }
{
    matches!(piece, Piece::Paragraph(_)) && !full
}

// The answer for a text up to a length: 13 where that has passed the room. (`finish` has the same of a `Text`: the console's `Page` is none, and notes
// and merged lists look at the length first.)
pub fn answer(room: &[u8], len: usize) -> Result<usize, Refusal>
    ensures text { standing room.now result ≡ seen room.now len }
    ensures inside { Inside (length room.now) result }
{
    if room.len() < len {
        return Err(Refusal::NoRoom);
    }
    Ok(len)
}

// The same for a text, whose room is its lender's again.
pub fn finish(t: Text) -> Result<usize, Refusal>
    ensures text { standing t.exit.0.now result ≡ (text_of t.entry).shown }
    ensures inside { Inside (text_of t.entry).size result }
{
    let Text { room, len } = t;
    answer(room, len)
}

// Refusal 11 at a place, unless 13 was met before. (The room and the length apart: who may only read a room has no `Text`, which lends it to be written.)
pub fn no_form(room: &[u8], len: usize, at: usize) -> Refusal
    ensures { refusal_of result ≡ bind (seen room.now len) (λ _. refused 11 at) }
{
    if room.len() < len {
        Refusal::NoRoom
    } else {
        Refusal::NoForm(at)
    }
}

// The same after a text.
pub fn no_form_in(t: &Text, at: usize) -> Refusal
    ensures { refusal_of result ≡ bind (text_of t.now).shown (λ _. refused 11 at) }
{
    no_form(&*t.room, t.len, at)
}
