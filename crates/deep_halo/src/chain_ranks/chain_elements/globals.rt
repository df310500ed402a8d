// What kernels are given of variables.

ghost use Rattle.std.specs.Prelude.{◌≡◌, ◌<◌, length};
ghost use Rattle.mesh_decl.specs.Mesh.{set_size};
ghost use Rattle.bound_program.specs.Fits.{ArgFits};
ghost use Rattle.schedule_model.specs.Machine.{window_of};
ghost use Rattle.run_model.specs.Windows.{Whole, cell_in};
ghost use Rattle.bound_plan.specs.Variables.{reduction_of};
ghost use Rattle.deep_halo.specs.Places.{all_cells};
ghost use Rattle.deep_halo.specs.Sound.{Sound, IsLoop, program_in, ranks_in};
ghost use Rattle.deep_halo.specs.Cells.{Values, Hold, with_target};
ghost use Rattle.deep_halo.specs.Globals.{reduction_in, with_global, with_globals};

use crate::chain_memory::chain_stores::{copy_variable, fill_variable};
use crate::chain_memory::{Blocks, Loop};
use bound_program::{Access, Arg};
use rank_state::Operation;
use rank_state::rank_memory::scalars::unit;

/// How a loop merges amounts by an access, if it does.
pub fn operation_of(access: Access) -> Option<Operation>
    ensures { reduction_in result ≡ reduction_of access }
{
    match access {
        Access::Inc => Some(Operation::Sum),
        Access::Min => Some(Operation::Least),
        Access::Max => Some(Operation::Greatest),
        Access::Read => None,
        Access::Write => None,
        Access::Rw => None,
    }
}

// What a kernel's window of a variable begins with: the variable's values, or units where the loop merges amounts into
// it.
fn put_variable(memory: &mut [i32], blocks: &Blocks<'_>, rank: u32, var: u32, access: Access)
    requires sound { Sound blocks.now }
    requires memory { length memory.old ≡ all_cells (program_in blocks.now) (ranks_in blocks.now) }
    requires rank { rank < ranks_in blocks.now }
    requires var { var < length (program_in blocks.now).vars }
    ensures { (f : Values) → Hold blocks.now memory.old f
        → Hold blocks.now memory.new
        (with_target rank (Whole var) (λ i. window_of (reduction_of access) (f (ranks_in blocks.now) (cell_in (Whole var) i))) f) }
{
    match operation_of(access) {
        Some(how) => fill_variable(memory, blocks, rank, var, unit(how)),
        None => copy_variable(memory, blocks, blocks.owners.ranks, rank, var),
    }
}

// What a kernel's window of an argument begins with, where it is on a variable.
fn put_global(memory: &mut [i32], blocks: &Blocks<'_>, rank: u32, set: u32, arg: Arg)
    requires sound { Sound blocks.now }
    requires memory { length memory.old ≡ all_cells (program_in blocks.now) (ranks_in blocks.now) }
    requires rank { rank < ranks_in blocks.now }
    requires fits { ArgFits (program_in blocks.now) set arg }
    ensures { (f : Values) → Hold blocks.now memory.old f
        → Hold blocks.now memory.new (with_global (ranks_in blocks.now) rank arg f) }
{
    match arg {
        Arg::Global { var, access } => put_variable(memory, blocks, rank, var, access),
        Arg::Dat { .. } => {}
    }
}

/// Puts what the kernel's windows of a loop's variables begin with into a rank's block.
pub fn put_globals(memory: &mut [i32], blocks: &Blocks<'_>, all: &Loop<'_>, rank: u32)
    requires sound { Sound blocks.now }
    requires memory { length memory.old ≡ all_cells (program_in blocks.now) (ranks_in blocks.now) }
    requires rank { rank < ranks_in blocks.now }
    requires of { IsLoop (program_in blocks.now) all.now }
    ensures { (f : Values) → Hold blocks.now memory.old f
        → Hold blocks.now memory.new (with_globals (ranks_in blocks.now) rank all.now.args.now all.now.args.now f) }
{
    for arg in all.args {
        put_global(memory, blocks, rank, all.set, *arg);
    }
}
