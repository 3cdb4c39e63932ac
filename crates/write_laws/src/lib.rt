// The builder for those who write by small pieces (02, point 9). The laws are about the builder's rules (specs/Small.antt, proofs/Laws.antt,
// proofs/Empty.antt); the two functions say the same of calls of `buffer::write_str`, from its contract.
// (They take what that function takes: a room and its length.)

#![tactic(auto)]

ghost use Rattle.std.specs.Prelude.{◌≡◌, [], ◌∷◌};
ghost use Rattle.base.specs.Result.{measured};
ghost use Rattle.refusal.specs.Answers.{answered};
ghost use Rattle.buffer.specs.Builder.{writes};
ghost use Rattle.buffer.specs.Answers.{Follows};
ghost use Rattle.write_laws.specs.Small.{writes_all, room_after_all, AsJoined, EmptyCall};

use records::Style;
use refusal::Refusal;

// A text and then another, in one style: the answer of the second call, or the first one's refusal.
pub fn write_two(
    room: &mut [u8],
    len: usize,
    style: Style,
    first: &[u8],
    second: &[u8],
) -> Result<usize, Refusal>
    ensures answer { answered result ≡ measured (writes_all room.old len style first.now (second.now ∷ [])) }
    ensures room { room.new ≡ room_after_all room.old len style first.now (second.now ∷ []) }
    ensures joined { AsJoined room.old len style first.now second.now result room.new }
{
    let n = buffer::write_str(room, len, style, first)?;
    buffer::write_str(room, n, style, second)
}

// An empty text in a style.
pub fn write_empty(room: &mut [u8], len: usize, style: Style) -> Result<usize, Refusal>
    ensures wrote { Follows (writes room.old len style []) room.old room.new result }
    ensures empty { EmptyCall room.old len style result room.new }
{
    buffer::write_str(room, len, style, b"")
}
