// Ordered loops.

ghost use Rattle.std.specs.Prelude.{◌≡◌, ◌<◌, ◌≤◌, length};
ghost use Rattle.mesh_decl.specs.Mesh.{set_size};
ghost use Rattle.schedule_model.specs.Cells.{Store};
ghost use Rattle.schedule_model.specs.Program.{elements};
ghost use Rattle.schedule_model.specs.Sequential.{loop as run_through, after_run};
ghost use Rattle.run_model.specs.Kernels.{constants};
ghost use Rattle.run_model.specs.Programs.{item_at, loop_of as loop_in, program_of};
ghost use Rattle.deep_halo.specs.Places.{all_cells};
ghost use Rattle.deep_halo.specs.Sound.{IsLoop, ranks_in};
ghost use Rattle.deep_halo.specs.Programs.{IsProgram, program_of_run, owners_of_run};
ghost use Rattle.deep_halo.specs.Orders.{OwnersStand, OthersStay, LoopEnds};

use crate::chain_memory::{Loop, run_element};
use crate::chain_ranks::chain_elements::read_constants;
use crate::programs::Program;
use rank_state::rank_memory::stop::Stop;

// Runs an element on the owners' pairs and the variables.
fn run_owned(
    memory: &mut [i32],
    program: &Program<'_>,
    all: &Loop<'_>,
    item: u32,
    element: u32,
    values: &mut [i32],
    saved: &mut [i32],
    locals: &mut [i32],
) -> Option<Stop>
    requires is { IsProgram program.now }
    requires memory { length memory.old ≡ all_cells (program_of_run program.now) (ranks_in program.now.blocks.now) }
    requires of { IsLoop (program_of_run program.now) all.now }
    requires site { all.now.site ≡ loop_in (item_at (program_of_run program.now) item) }
    requires element { element < set_size (program_of_run program.now).mesh all.now.set }
    requires values { length values.old ≡ length (constants (program_of_run program.now)) }
    requires saved { 1024 ≤ length saved.old }
    requires locals { all.now.code.now.slots ≤ length locals.old }
    ensures ends { (s : Store) → OwnersStand (program_of_run program.now) (owners_of_run program.now) memory.old s
        → LoopEnds (program_of_run program.now) (owners_of_run program.now) item memory.new result
        (after_run element s ((program_of (program_of_run program.now)).run item element s)) }
    ensures others { OthersStay (program_of_run program.now) (owners_of_run program.now) memory.old memory.new }
{
    run_model::windows_are_reached();
    run_model::constants_are_read();
    program.blocks.bound.mesh.is_in_range();
    read_constants(memory, program.blocks, values);
    let broken = run_element(
        memory,
        program.blocks,
        all,
        None,
        element,
        values,
        saved,
        locals,
    );
    match broken {
        Some(fault) => Some(Stop {
            item,
            element: Some(element),
            fault,
        }),
        None => None,
    }
}

/// Runs the elements of an Ordered loop one after another on the owners' pairs and the variables, up to the first that
/// faults.
pub fn run_ordered(
    memory: &mut [i32],
    program: &Program<'_>,
    all: &Loop<'_>,
    item: u32,
    values: &mut [i32],
    saved: &mut [i32],
    locals: &mut [i32],
) -> Option<Stop>
    requires is { IsProgram program.now }
    requires memory { length memory.old ≡ all_cells (program_of_run program.now) (ranks_in program.now.blocks.now) }
    requires of { IsLoop (program_of_run program.now) all.now }
    requires site { all.now.site ≡ loop_in (item_at (program_of_run program.now) item) }
    requires values { length values.old ≡ length (constants (program_of_run program.now)) }
    requires saved { 1024 ≤ length saved.old }
    requires locals { all.now.code.now.slots ≤ length locals.old }
    ensures ends { (s : Store) → OwnersStand (program_of_run program.now) (owners_of_run program.now) memory.old s
        → LoopEnds (program_of_run program.now) (owners_of_run program.now) item memory.new result
        (run_through (program_of (program_of_run program.now)) item (elements (program_of (program_of_run program.now)) item) s) }
    ensures others { OthersStay (program_of_run program.now) (owners_of_run program.now) memory.old memory.new }
{
    program.blocks.bound.mesh.is_in_range();
    for element in 0..program.blocks.bound.mesh.set_size(all.set) {
        if let Some(stop) = run_owned(memory, program, all, item, element, values, saved, locals) {
            return Some(stop);
        }
    }
    None
}
