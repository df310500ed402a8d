// The partials of all ranks go into the variables.

ghost use Rattle.std.specs.Prelude.{◌≡◌, ◌<◌, Some, length};
ghost use Rattle.bound_program.specs.Fits.{ArgFits};
ghost use Rattle.run_model.specs.Windows.{Whole, cell_in};
ghost use Rattle.run_model.specs.Variables.{of_vars};
ghost use Rattle.rank_state.specs.Windows.{operation};
ghost use Rattle.chain_model.specs.Machine.{merged_over};
ghost use Rattle.deep_halo.specs.Places.{all_cells};
ghost use Rattle.deep_halo.specs.Sound.{Sound, IsLoop, program_in, ranks_in};
ghost use Rattle.deep_halo.specs.Cells.{Values, BlocksHold, Hold, with_target};
ghost use Rattle.deep_halo.specs.Merging.{changed_by, changed_all};
ghost use Rattle.deep_halo.specs.Partials.{sums_of};

use crate::chain_memory::{Blocks, Loop, variable_at, width_of};
use crate::chain_ranks::chain_elements::{merge_cells, operation_of, partial_at};
use bound_program::Arg;
use rank_state::Operation;

// Those of a variable.
fn reduce_variable(
    memory: &mut [i32],
    partials: &[i32],
    blocks: &Blocks<'_>,
    var: u32,
    how: Operation,
)
    requires sound { Sound blocks.now }
    requires memory { length memory.old ≡ all_cells (program_in blocks.now) (ranks_in blocks.now) }
    requires partials { length partials.now ≡ all_cells (of_vars (program_in blocks.now).vars) (ranks_in blocks.now) }
    requires var { var < length (program_in blocks.now).vars }
    ensures { (f p : Values) → Hold blocks.now memory.old f
        → BlocksHold (of_vars (program_in blocks.now).vars) (ranks_in blocks.now) partials.now p
        → Hold blocks.now memory.new (with_target (ranks_in blocks.now) (Whole var)
        (λ i. merged_over (Some (operation how)) (λ r. p r (cell_in (Whole var) i)) (ranks_in blocks.now)
        (f (ranks_in blocks.now) (cell_in (Whole var) i))) f) }
{
    let last = variable_at(blocks, blocks.owners.ranks, var);
    let count = width_of(blocks, var);
    for rank in 0..blocks.owners.ranks {
        let from = partial_at(blocks, rank, var);
        merge_cells(memory, last, partials, from, count, how);
    }
}

// Those of an argument, where it is on a variable into which the loop merges amounts.
fn reduce_arg(memory: &mut [i32], partials: &[i32], blocks: &Blocks<'_>, set: u32, arg: Arg)
    requires sound { Sound blocks.now }
    requires memory { length memory.old ≡ all_cells (program_in blocks.now) (ranks_in blocks.now) }
    requires partials { length partials.now ≡ all_cells (of_vars (program_in blocks.now).vars) (ranks_in blocks.now) }
    requires fits { ArgFits (program_in blocks.now) set arg }
    ensures { (f p : Values) → Hold blocks.now memory.old f
        → BlocksHold (of_vars (program_in blocks.now).vars) (ranks_in blocks.now) partials.now p
        → Hold blocks.now memory.new (changed_by (sums_of (ranks_in blocks.now) p) (ranks_in blocks.now) arg f) }
{
    if let Arg::Global { var, access } = arg {
        if let Some(how) = operation_of(access) {
            reduce_variable(memory, partials, blocks, var, how);
        }
    }
}

/// Merges the partials of all ranks, rank by rank, into the variables into which a loop merges amounts.
pub fn reduce_all(memory: &mut [i32], partials: &[i32], blocks: &Blocks<'_>, all: &Loop<'_>)
    requires sound { Sound blocks.now }
    requires memory { length memory.old ≡ all_cells (program_in blocks.now) (ranks_in blocks.now) }
    requires partials { length partials.now ≡ all_cells (of_vars (program_in blocks.now).vars) (ranks_in blocks.now) }
    requires of { IsLoop (program_in blocks.now) all.now }
    ensures { (f p : Values) → Hold blocks.now memory.old f
        → BlocksHold (of_vars (program_in blocks.now).vars) (ranks_in blocks.now) partials.now p
        → Hold blocks.now memory.new
        (changed_all (sums_of (ranks_in blocks.now) p) (ranks_in blocks.now) all.now.args.now all.now.args.now f) }
{
    for arg in all.args {
        reduce_arg(memory, partials, blocks, all.set, *arg);
    }
}
