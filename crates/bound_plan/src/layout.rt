// What the theorem on schedules asks of a layout.
ghost use Rattle.bound_plan.specs.Laws.{CellsHaveOneIndex, FirstStatesStart, FramesAreReached, LayoutsFit};

use crate::given::{kernels_and_frames, meshes_and_items};

/// A law: where the cells and elements of a bound program stand on the ranks is a layout of its setup, whether its
/// kernels obey their modes or don't.
pub fn layouts_fit()
    ensures { LayoutsFit }
{
    meshes_and_items();
    kernels_and_frames();
}

/// A law: no two indices of a rank's buffer, or of the variables, are of one cell.
pub fn cells_have_one_index()
    ensures { CellsHaveOneIndex }
{
    meshes_and_items();
}

/// A law: the windows of an element's frame, those on dats first, are the cells that its arguments reach, each once.
pub fn frames_are_reached()
    ensures { FramesAreReached }
{
    run_model::windows_are_reached();
}

/// A law: the mesh's values in every copy, the variables' first values, units in the partials and nothing else are a
/// state in which the machine on flat buffers starts.
pub fn first_states_start()
    ensures { FirstStatesStart }
{}
