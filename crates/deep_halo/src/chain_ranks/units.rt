// Units in the partials of a loop.

ghost use Rattle.std.specs.Prelude.{◌≡◌, ◌<◌, ℕ, pos, true, Some, length, get_or};
ghost use Rattle.op_num.specs.Reduction.{Reduction, unit_of};
ghost use Rattle.schedule_model.specs.Cells.{Variable, VarCell};
ghost use Rattle.bound_program.specs.Fits.{ArgFits};
ghost use Rattle.run_model.specs.Memory.{has_cell};
ghost use Rattle.run_model.specs.Variables.{of_vars};
ghost use Rattle.bound_plan.specs.Variables.{reduces_at};
ghost use Rattle.deep_halo.specs.Places.{in_block, all_cells};
ghost use Rattle.deep_halo.specs.Sound.{Sound, IsLoop, program_in, ranks_in};
ghost use Rattle.deep_halo.specs.Cells.{Values, BlocksHold};
ghost use Rattle.deep_halo.specs.Merging.{changed_by, changed_all};
ghost use Rattle.deep_halo.specs.Partials.{units};

use crate::chain_memory::{Blocks, Loop, fill_cells, width_of};
use crate::chain_ranks::chain_elements::{operation_of, partial_at};
use bound_program::Arg;
use rank_state::rank_memory::scalars::unit;

// Of an argument on a rank, where it is on a variable into which the loop merges amounts.
fn put_unit(partials: &mut [i32], blocks: &Blocks<'_>, rank: u32, set: u32, arg: Arg)
    requires sound { Sound blocks.now }
    requires partials { length partials.old ≡ all_cells (of_vars (program_in blocks.now).vars) (ranks_in blocks.now) }
    requires rank { rank < ranks_in blocks.now }
    requires fits { ArgFits (program_in blocks.now) set arg }
    ensures { (p : Values) → BlocksHold (of_vars (program_in blocks.now).vars) (ranks_in blocks.now) partials.old p
        → BlocksHold (of_vars (program_in blocks.now).vars) (ranks_in blocks.now) partials.new (changed_by units rank arg p) }
{
    if let Arg::Global { var, access } = arg {
        if let Some(how) = operation_of(access) {
            let at = partial_at(blocks, rank, var);
            fill_cells(partials, at, width_of(blocks, var), unit(how));
        }
    }
}

// Of all arguments on a rank.
fn put_rank(partials: &mut [i32], blocks: &Blocks<'_>, all: &Loop<'_>, rank: u32)
    requires sound { Sound blocks.now }
    requires partials { length partials.old ≡ all_cells (of_vars (program_in blocks.now).vars) (ranks_in blocks.now) }
    requires of { IsLoop (program_in blocks.now) all.now }
    requires rank { rank < ranks_in blocks.now }
    ensures { (p : Values) → BlocksHold (of_vars (program_in blocks.now).vars) (ranks_in blocks.now) partials.old p
        → BlocksHold (of_vars (program_in blocks.now).vars) (ranks_in blocks.now) partials.new
        (changed_all units rank all.now.args.now all.now.args.now p) }
{
    for arg in all.args {
        put_unit(partials, blocks, rank, all.set, *arg);
    }
}

/// Puts units into the partials of all ranks, of the variables into which a loop merges amounts.
pub fn put_units(partials: &mut [i32], blocks: &Blocks<'_>, all: &Loop<'_>)
    requires sound { Sound blocks.now }
    requires partials { length partials.old ≡ all_cells (of_vars (program_in blocks.now).vars) (ranks_in blocks.now) }
    requires of { IsLoop (program_in blocks.now) all.now }
    ensures { (r : ℕ) (v : VarCell) (q : Reduction)
        → r < ranks_in blocks.now
        → has_cell (program_in blocks.now) (Variable v) ≡ true
        → reduces_at (program_in blocks.now) all.now.site v ≡ Some q
        → get_or partials.new (in_block (of_vars (program_in blocks.now).vars) r (Variable v)) (pos 0) ≡ unit_of q }
{
    for rank in 0..blocks.owners.ranks {
        put_rank(partials, blocks, all, rank);
    }
}
