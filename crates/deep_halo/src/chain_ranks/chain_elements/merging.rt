// The partials of ranks.

ghost use Rattle.std.specs.Prelude.{◌≡◌, ◌<◌, ◌≤◌, ◌+◌, ◌⊎◌, ℕ, pos, length, get_or};
ghost use Rattle.op_num.specs.Reduction.{merged};
ghost use Rattle.rank_state.specs.Windows.{operation};
ghost use Rattle.bound_program.specs.Fits.{ArgFits};
ghost use Rattle.run_model.specs.Windows.{Whole, cell_in};
ghost use Rattle.run_model.specs.Arguments.{var_width};
ghost use Rattle.run_model.specs.Variables.{of_vars};
ghost use Rattle.deep_halo.specs.Places.{in_block, all_cells};
ghost use Rattle.deep_halo.specs.Sound.{Sound, IsLoop, program_in, ranks_in};
ghost use Rattle.deep_halo.specs.Cells.{Values, BlocksHold, Hold};
ghost use Rattle.deep_halo.specs.Merging.{merged_by, merged_all};

use crate::chain_memory::{Blocks, Loop, variable_at, width_of};
use crate::chain_ranks::chain_elements::globals::operation_of;
use bound_program::Arg;
use rank_state::Operation;
use rank_state::rank_memory::scalars::merge;

/// Where the partials of a variable stand on a rank.
pub fn partial_at(blocks: &Blocks<'_>, rank: u32, var: u32) -> usize
    requires sound { Sound blocks.now }
    requires rank { rank < ranks_in blocks.now }
    requires var { var < length (program_in blocks.now).vars }
    ensures is { result ≡ in_block (of_vars (program_in blocks.now).vars) rank (cell_in (Whole var) 0) }
    ensures within { result + var_width (program_in blocks.now) var
        ≤ all_cells (of_vars (program_in blocks.now).vars) (ranks_in blocks.now) }
{
    run_model::memory_holds();
    rank as usize * (blocks.layout.cells - blocks.layout.dats_end)
        + blocks.layout.vars[var as usize]
}

/// Merges `count` amounts from one place on into as many from another.
pub fn merge_cells(
    partials: &mut [i32],
    at: usize,
    amounts: &[i32],
    from: usize,
    count: usize,
    how: Operation,
)
    requires partials { at + count ≤ length partials.old }
    requires amounts { from + count ≤ length amounts.now }
    ensures merged { (i : ℕ) → i < count
        → get_or partials.new (at + i) (pos 0)
        ≡ merged (operation how) (get_or partials.old (at + i) (pos 0)) (get_or amounts.now (from + i) (pos 0)) }
    ensures others { (k : ℕ) → (k < at) ⊎ (at + count ≤ k) → get_or partials.new k (pos 0) ≡ get_or partials.old k (pos 0) }
{
    for i in 0..count {
        partials[at + i] = merge(how, partials[at + i], amounts[from + i]);
    }
}

// Merges the amounts of an argument, where it is on a variable into which the loop merges amounts.
fn merge_arg(
    partials: &mut [i32],
    blocks: &Blocks<'_>,
    memory: &[i32],
    rank: u32,
    set: u32,
    arg: Arg,
)
    requires sound { Sound blocks.now }
    requires partials { length partials.old ≡ all_cells (of_vars (program_in blocks.now).vars) (ranks_in blocks.now) }
    requires memory { length memory.now ≡ all_cells (program_in blocks.now) (ranks_in blocks.now) }
    requires rank { rank < ranks_in blocks.now }
    requires fits { ArgFits (program_in blocks.now) set arg }
    ensures { (f p : Values) → Hold blocks.now memory.now f
        → BlocksHold (of_vars (program_in blocks.now).vars) (ranks_in blocks.now) partials.old p
        → BlocksHold (of_vars (program_in blocks.now).vars) (ranks_in blocks.now) partials.new (merged_by rank f arg p) }
{
    if let Arg::Global { var, access } = arg {
        if let Some(how) = operation_of(access) {
            let at = partial_at(blocks, rank, var);
            let from = variable_at(blocks, rank, var);
            merge_cells(partials, at, memory, from, width_of(blocks, var), how);
        }
    }
}

/// Merges the amounts that an element left in a rank's block into the rank's partials.
pub fn merge_globals(
    partials: &mut [i32],
    blocks: &Blocks<'_>,
    memory: &[i32],
    all: &Loop<'_>,
    rank: u32,
)
    requires sound { Sound blocks.now }
    requires partials { length partials.old ≡ all_cells (of_vars (program_in blocks.now).vars) (ranks_in blocks.now) }
    requires memory { length memory.now ≡ all_cells (program_in blocks.now) (ranks_in blocks.now) }
    requires of { IsLoop (program_in blocks.now) all.now }
    requires rank { rank < ranks_in blocks.now }
    ensures { (f p : Values) → Hold blocks.now memory.now f
        → BlocksHold (of_vars (program_in blocks.now).vars) (ranks_in blocks.now) partials.old p
        → BlocksHold (of_vars (program_in blocks.now).vars) (ranks_in blocks.now) partials.new
        (merged_all rank all.now.args.now all.now.args.now f p) }
{
    for arg in all.args {
        merge_arg(partials, blocks, memory, rank, all.set, *arg);
    }
}
