// An element's windows, copied into a frame.

ghost use Rattle.std.specs.Prelude.{◌≡◌, ◌+◌, ◌≤◌, length, take, ◌++◌};
ghost use Rattle.rank_state.specs.Spans.{Within, total, gathered};
ghost use Rattle.rank_state.specs.Windows.{firsts, Reads};

use crate::rank_memory::scalars::fill;
use crate::rank_memory::spans::gather;
use crate::{Scalar, Span};

/// Copies an element's windows into the frame, and answers how many cells they have.
pub fn load(
    memory: &[i32],
    spans: &[Span],
    variables: &[i32],
    scalars: &[Scalar],
    frame: &mut [i32],
) -> usize
    requires inside { Within (length memory.now) spans.now }
    requires reads { Reads (length variables.now) scalars.now }
    requires room { total spans.now + length scalars.now ≤ length frame.old }
    ensures count { result ≡ total spans.now + length scalars.now }
    ensures cells { take (total spans.now + length scalars.now) frame.new
        ≡ gathered memory.now spans.now ++ firsts variables.now scalars.now }
{
    let count = gather(memory, spans, frame);
    fill(variables, scalars, count, frame);
    count + scalars.len()
}
