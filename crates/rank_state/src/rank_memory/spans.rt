// Cells copied between a memory and a frame, one span after another.

ghost use Rattle.std.specs.Prelude.{◌≡◌, ℕ, ◌+◌, ◌^◌, ◌<◌, ◌≤◌, length, take};
ghost use Rattle.rank_state.specs.Spans.{Within, total, gathered, scattered};

use crate::Span;
use crate::rank_memory::copying::copy;

/// Copies the spans' cells into the frame, one span after another, and answers their number.
pub fn gather(memory: &[i32], spans: &[Span], frame: &mut [i32]) -> usize
    requires inside { Within (length memory.now) spans.now }
    requires room { total spans.now ≤ length frame.old }
    ensures count { result ≡ total spans.now }
    ensures cells { take (total spans.now) frame.new ≡ gathered memory.now spans.now }
{
    let mut from = 0;
    for span in spans {
        copy(memory, span.at, frame, from, span.dim);
        from += span.dim;
    }
    from
}

/// Copies the written spans' cells from the frame back into the memory.
pub fn scatter(memory: &mut [i32], spans: &[Span], frame: &[i32])
    requires inside { Within (length memory.old) spans.now }
    requires room { total spans.now ≤ length frame.now }
    ensures { memory.new ≡ scattered 0 frame.now spans.now memory.old }
{
    let mut from = 0;
    for span in spans {
        if span.writes {
            copy(frame, from, memory, span.at, span.dim);
        }
        from += span.dim;
    }
}
