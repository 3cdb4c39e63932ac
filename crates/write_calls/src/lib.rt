// Texts written by small pieces through the C interface (02, point 9): the laws of crate `write_laws`, said of calls of `sefgrunn_write`, from its contract. No
// program calls these two functions. (They take and answer what that function does, in the C interface's form: the style and the answer as numbers, and the
// length and the place as numbers lent. With a `Style` and a `Result` the laws would leave out a number that is no style's, and what is stored.)

#![tactic(auto)]

ghost use Rattle.std.specs.Prelude.{◌≡◌, []};
ghost use Rattle.base.specs.Result.{measured};
ghost use Rattle.buffer.specs.Answers.{kept};
ghost use Rattle.sefgrunn.specs.Numbers.{number_of, place_of, length_after, writes_in};
ghost use Rattle.write_calls.specs.Calls.{two_in, AsOneCall, EmptyWrite};

// A text and then another in the style with a number: what the last call returned; the second is made where the first returned 0.
pub fn write_two(
    room: &mut [u8],
    len: &mut usize,
    style: u32,
    first: &[u8],
    second: &[u8],
    place: &mut usize,
) -> u32
    ensures number { result ≡ number_of (two_in room.old len.old style first.now second.now) }
    ensures length { len.new ≡ length_after (length_after len.old (measured (writes_in room.old len.old style first.now))) (measured (two_in room.old len.old style first.now second.now)) }
    ensures place { place.new ≡ place_of (two_in room.old len.old style first.now second.now) }
    ensures room { room.new ≡ kept (kept room.old (writes_in room.old len.old style first.now)) (two_in room.old len.old style first.now second.now) }
    ensures joined { AsOneCall room.old len.old style first.now second.now result len.new place.new room.new }
{
    let number = sefgrunn::sefgrunn_write(room, len, style, first, place);
    if number != 0 {
        return number;
    }
    sefgrunn::sefgrunn_write(room, len, style, second, place)
}

// An empty text in the style with a number.
pub fn write_empty(room: &mut [u8], len: &mut usize, style: u32, place: &mut usize) -> u32
    ensures number { result ≡ number_of (writes_in room.old len.old style []) }
    ensures length { len.new ≡ length_after len.old (measured (writes_in room.old len.old style [])) }
    ensures place { place.new ≡ place_of (writes_in room.old len.old style []) }
    ensures room { room.new ≡ kept room.old (writes_in room.old len.old style []) }
    ensures empty { EmptyWrite room.old len.old style result len.new room.new }
{
    sefgrunn::sefgrunn_write(room, len, style, b"", place)
}
