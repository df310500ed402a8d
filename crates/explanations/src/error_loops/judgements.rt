// A refused access, as a line of `op2` tells it.
ghost use Rattle.std.specs.Prelude.{◌≡◌};
ghost use Rattle.explanations.specs.Judgements.{tells_access, judgement_of, judgement_in};

use crate::{Place, place_in, word_number};

/// A refused access: the number of the rule that a kernel breaks, and where.
#[derive(Clone, Copy, PartialEq, Eq, Debug)]
pub struct Judgement {
    pub number: u64,
    pub at: Place,
}

// Whether a line refuses an access.
fn tells_access(line: &[u8]) -> bool
    ensures { result ≡ tells_access line.now }
{
    line.starts_with(b"op2: source access ")
}

// The number and the place in such a line.
fn judgement_of(line: &[u8]) -> Option<Judgement>
    ensures { result ≡ judgement_of line.now }
{
    let number = word_number(line, 3)?;
    let at = place_in(line)?;
    Some(Judgement { number, at })
}

/// The refused access that a line of `op2` tells, if it tells one.
pub fn judgement_in(line: &[u8]) -> Option<Judgement>
    ensures { result ≡ judgement_in line.now }
{
    if tells_access(line) {
        judgement_of(line)
    } else {
        None
    }
}
