// Cells copied from one list to another.

ghost use Rattle.std.specs.Prelude.{◌≡◌, ◌+◌, ◌≤◌, length};
ghost use Rattle.rank_state.specs.Spans.{cells_at, with_window};

/// Copies cells from one place to another. Most spans have one cell, for which the compiler needs no call.
#[inline]
pub fn copy(source: &[i32], from: usize, target: &mut [i32], to: usize, dim: usize)
    requires source { from + dim ≤ length source.now }
    requires target { to + dim ≤ length target.old }
    ensures { target.new ≡ with_window to (cells_at from dim source.now) target.old }
{
    if dim == 1 {
        target[to..to + 1].copy_from_slice(&source[from..from + 1]);
    } else {
        target[to..to + dim].copy_from_slice(&source[from..from + dim]);
    }
}
