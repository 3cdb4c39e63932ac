// A refusal of a document, with its place in the joined form (02, point 7).

#![tactic(auto)]

ghost use Rattle.std.specs.Prelude.{◌≡◌};
ghost use Rattle.refusal.specs.Numbers.{refusal_number, refusal_place};
ghost use Rattle.refusal.specs.Answers.{answered};
ghost use Rattle.joined_rules.specs.Places.{back_in, turned, relocated};

use refusal::Refusal;

// A refusal of the document with its place in the joined form: 10 names a byte, 11 a record, the others keep theirs.
fn relocate(joined: &[u8], a: Refusal) -> Refusal
    ensures number { refusal_number result ≡ refusal_number a }
    ensures place { refusal_place result ≡ turned (back_in joined.now) (refusal_number a) (refusal_place a) }
{
    match a {
        Refusal::BeyondMargin(p) => Refusal::BeyondMargin(joined::byte_in(joined, p)),
        Refusal::NoForm(p) => Refusal::NoForm(joined::place_in(joined, p)),
        _ => a,
    }
}

// An answer of the document with its place in the joined form.
pub fn placed(joined: &[u8], answer: Result<usize, Refusal>) -> Result<usize, Refusal>
    ensures { answered result ≡ relocated (back_in joined.now) (answered answer) }
{
    answer.map_err(|a| relocate(joined, a))
}
