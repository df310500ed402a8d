// Two judgements side by side.
ghost use Rattle.std.specs.Prelude.{◌≡◌};
ghost use Rattle.gmsh_mesh.specs.Stages.{earlier, joined};

use crate::refusal::GmshRefusal;

// Both values, or the refusal of the lower line, of two on one line the first. Want of memory comes before all.
pub(crate) fn both<A: Drop, B: Drop>(
    one: Result<A, GmshRefusal>,
    other: Result<B, GmshRefusal>,
) -> Result<(A, B), GmshRefusal>
    ensures { result ≡ joined one other }
{
    match (one, other) {
        (Ok(a), Ok(b)) => Ok((a, b)),
        (Ok(_), Err(second)) => Err(second),
        (Err(first), Ok(_)) => Err(first),
        (Err(first), Err(second)) => Err(earlier(first, second)),
    }
}

// The refusal of the lower line, of two on one line the first. Want of memory comes before all.
fn earlier(first: GmshRefusal, second: GmshRefusal) -> GmshRefusal
    ensures { result ≡ earlier first second }
{
    if matches!(second, GmshRefusal::OutOfMemory) || second.line() < first.line() {
        second
    } else {
        first
    }
}
