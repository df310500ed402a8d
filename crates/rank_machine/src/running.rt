// The kernel's run on the windows of an element, gathered into a frame.

ghost use Rattle.std.specs.Prelude.{◌≡◌, ◌+◌, ◌≤◌, ◌++◌, length, map, IfOk};
ghost use Rattle.rank_state.specs.Spans.{Within, total, gathered};
ghost use Rattle.rank_state.specs.Core.{fault_of};
ghost use Rattle.rank_state.specs.Windows.{firsts, Reads};
ghost use Rattle.rank_state.specs.Indices.{InLength, values_at};
ghost use Rattle.rank_state.specs.Ordered.{Within_all, total_all, gathered_all, memories_after, variables_after};
ghost use Rattle.rank_state.specs.Spare.{KeepsSpare};
ghost use Rattle.rank_machine.specs.Machines.{ran_in};
ghost use Rattle.rank_program.specs.Rooms.{HasKernelRoom};
ghost use Rattle.rank_program.specs.Sound.{Takes, layout_in};

use crate::windows::{KernelRun, OwnedWindows, Windows};
use kernel_model::types::KernelFault;
use rank_program::{KernelRoom, run_kernel};
use rank_state::rank_memory::loading::load;
use rank_state::rank_memory::owned::{load_all, put_back_values, scatter_all};

/// The cells that elements read on a rank: its buffer, and the variables.
#[derive(Clone, Copy, Debug)]
pub struct Cells<'a> {
    pub memory: &'a [i32],
    pub variables: &'a [i32],
}

/// Copies an element's windows into the frame and runs its kernel there; how many cells they have, or the fault.
pub fn run_in(
    run: &KernelRun<'_>,
    cells: &Cells<'_>,
    windows: &Windows<'_>,
    frame: &mut [i32],
    room: &mut KernelRoom,
) -> Result<usize, KernelFault>
    requires takes { Takes run.now.program.now run.now.item run.now.element (length run.now.constants.now)
        (total windows.now.spans.now + length windows.now.scalars.now) }
    requires kernels { HasKernelRoom run.now.program.now.locals room.old }
    requires inside { Within (length cells.now.memory.now) windows.now.spans.now }
    requires reads { Reads (length cells.now.variables.now) windows.now.scalars.now }
    requires room { total windows.now.spans.now + length windows.now.scalars.now ≤ length frame.old }
    ensures count { IfOk result (λ n. n ≡ total windows.now.spans.now + length windows.now.scalars.now) }
    ensures ran { ran_in frame.new result
        ≡ (layout_in run.now.program.now).core run.now.item run.now.element run.now.constants.now
        (gathered cells.now.memory.now windows.now.spans.now ++ firsts cells.now.variables.now windows.now.scalars.now) }
    ensures kernels { HasKernelRoom run.now.program.now.locals room.new }
{
    let (spans, scalars) = (windows.spans, windows.scalars);
    let count = load(cells.memory, spans, cells.variables, scalars, frame);
    let window = &mut frame[..count];
    match run_kernel(
        run.program,
        run.item,
        run.element,
        run.constants,
        window,
        room,
    ) {
        Ok(()) => Ok(count),
        Err(fault) => Err(fault),
    }
}

/// Runs an element of an Ordered loop on the owners' cells and the variables; its fault, where it has one.
pub fn run_owned(
    run: &KernelRun<'_>,
    memories: &mut [Vec<i32>],
    variables: &mut [i32],
    windows: &OwnedWindows<'_>,
    frame: &mut [i32],
    room: &mut KernelRoom,
) -> Option<KernelFault>
    requires takes { Takes run.now.program.now run.now.item run.now.element (length run.now.constants.now)
        (total_all windows.now.spans.now + length windows.now.indices.now) }
    requires kernels { HasKernelRoom run.now.program.now.locals room.old }
    requires inside { Within_all (map (λ v. v.items) memories.old) windows.now.spans.now }
    requires reads { InLength (length variables.old) windows.now.indices.now }
    requires room { total_all windows.now.spans.now + length windows.now.indices.now ≤ length frame.old }
    ensures fault { result
        ≡ fault_of ((layout_in run.now.program.now).core run.now.item run.now.element run.now.constants.now
        (gathered_all (map (λ v. v.items) memories.old) windows.now.spans.now ++ values_at variables.old windows.now.indices.now)) }
    ensures memories { map (λ v. v.items) memories.new
        ≡ memories_after windows.now.spans.now
        ((layout_in run.now.program.now).core run.now.item run.now.element run.now.constants.now
        (gathered_all (map (λ v. v.items) memories.old) windows.now.spans.now ++ values_at variables.old windows.now.indices.now))
        (map (λ v. v.items) memories.old) }
    ensures spare { KeepsSpare memories.old memories.new }
    ensures variables { variables.new
        ≡ variables_after (total_all windows.now.spans.now) windows.now.indices.now
        ((layout_in run.now.program.now).core run.now.item run.now.element run.now.constants.now
        (gathered_all (map (λ v. v.items) memories.old) windows.now.spans.now ++ values_at variables.old windows.now.indices.now))
        variables.old }
    ensures kernels { HasKernelRoom run.now.program.now.locals room.new }
{
    let (spans, indices) = (windows.spans, windows.indices);
    let count = load_all(memories, spans, variables, indices, frame);
    let whole = count + indices.len();
    let window = &mut frame[..whole];
    match run_kernel(
        run.program,
        run.item,
        run.element,
        run.constants,
        window,
        room,
    ) {
        Ok(()) => {
            scatter_all(memories, spans, &frame[..whole]);
            put_back_values(variables, indices, &frame[count..whole]);
            None
        }
        Err(fault) => Some(fault),
    }
}
