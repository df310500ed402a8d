// Frames in parts of the staging buffer.

ghost use Rattle.std.specs.Prelude.{◌≡◌, ◌≢◌, ◌⊎◌, ℕ, ◌+◌, ◌≤◌, length};
ghost use Rattle.rank_state.specs.Spans.{Within, total, cells_at};
ghost use Rattle.rank_state.specs.Windows.{Merges};
ghost use Rattle.rank_state.specs.Machine.{merged_pane};
ghost use Rattle.rank_state.specs.Frames.{Holds, closed, Enough, Exactly};
ghost use Rattle.rank_state.specs.Slots.{held_pane, fits_held};

use crate::Span;
use crate::rank_memory::ending::Ending;
use crate::rank_memory::scalars::merge_amounts;
use crate::rank_memory::slot::Held;
use crate::rank_memory::spans::scatter;

/// Copies cells into a part of the staging buffer.
pub fn hold_at(cells: &[i32], staging: &mut [i32], at: usize, stride: usize) -> Held
    requires part { at + stride ≤ length staging.old }
    requires fits { length cells.now ≤ stride }
    ensures fits { fits_held stride result }
    ensures open { result ≢ Held.Nothing }
    ensures pane { (k : ℕ) → held_pane result k (cells_at at stride staging.new) ≡ Holds k cells.now }
    ensures others { (b n : ℕ) → (b + n ≤ at) ⊎ (at + stride ≤ b) → cells_at b n staging.new ≡ cells_at b n staging.old }
{
    let count = cells.len();
    staging[at..at + count].copy_from_slice(cells);
    Held::Cells(count)
}

/// Copies what a frame holds back into the memory.
pub fn put_back(
    held: Held,
    staging: &[i32],
    at: usize,
    stride: usize,
    memory: &mut [i32],
    spans: &[Span],
)
    requires part { at + stride ≤ length staging.now }
    requires fits { fits_held stride held }
    requires inside { Within (length memory.old) spans.now }
    requires enough { Enough (total spans.now) (held_pane held 0 (cells_at at stride staging.now)) }
    ensures { memory.new ≡ closed spans.now (held_pane held 0 (cells_at at stride staging.now)) memory.old }
{
    match held {
        Held::Cells(count) => scatter(memory, spans, &staging[at..at + count]),
        _ => {}
    }
}

/// Merges the amounts that an owned element's frame holds behind its spans' cells.
pub fn merge_back(
    held: Held,
    ending: &Ending<'_>,
    staging: &[i32],
    at: usize,
    stride: usize,
    partials: &mut [i32],
)
    requires part { at + stride ≤ length staging.now }
    requires fits { fits_held stride held }
    requires inside { Merges (length partials.old) ending.now.scalars.now }
    requires exact { Exactly (ending.now.skip + length ending.now.scalars.now) (held_pane held 0 (cells_at at stride staging.now)) }
    ensures { partials.new
        ≡ merged_pane ending.now.own ending.now.skip ending.now.scalars.now (held_pane held 0 (cells_at at stride staging.now))
        partials.old }
{
    match held {
        Held::Cells(count) => {
            if ending.own {
                let frame = &staging[at..at + count];
                merge_amounts(partials, ending.scalars, &frame[ending.skip..]);
            }
        }
        _ => {}
    }
}
