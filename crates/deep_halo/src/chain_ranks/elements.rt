// An element on a rank that executes it.

ghost use Rattle.std.specs.Prelude.{◌≡◌, ◌<◌, ◌≤◌, cond, nat_eq, Some, length};
ghost use Rattle.kernel_model.specs.declared.types.faults.KernelFault.{KernelFault as Fault};
ghost use Rattle.mesh_decl.specs.Mesh.{set_size};
ghost use Rattle.mesh_decl.specs.Owners.{owner_of};
ghost use Rattle.run_model.specs.Variables.{of_vars};
ghost use Rattle.rank_state.specs.Machine.{noted};
ghost use Rattle.rank_state.specs.Stops.{stop_in};
ghost use Rattle.chain_model.specs.Machine.{ChainState};
ghost use Rattle.deep_halo.specs.Places.{all_cells};
ghost use Rattle.deep_halo.specs.Sound.{ranks_in};
ghost use Rattle.deep_halo.specs.Cells.{Values, BlocksHold};
ghost use Rattle.deep_halo.specs.Dropping.{dropped};
ghost use Rattle.deep_halo.specs.Merging.{merged_all};
ghost use Rattle.deep_halo.specs.Running.{Runs};
ghost use Rattle.deep_halo.specs.Loops.{IsChainLoop, HasConstants, element_ran, program_of_loop, owners_of_loop};

use crate::chain_memory::run_element;
use crate::chain_ranks::chain_elements::{drop_unheld, merge_globals, put_globals};
use crate::chain_ranks::loops::ChainLoop;
use kernel_model::types::KernelFault;
use rank_state::rank_memory::stop::{Stop, least};

// Keeps the fault of an element, where its rank owns it.
fn keep_fault(
    fault: &mut Option<Stop>,
    work: &ChainLoop<'_>,
    rank: u32,
    element: u32,
    broken: KernelFault,
)
    requires is { IsChainLoop work.now }
    requires element { element < set_size (program_of_loop work.now).mesh work.now.all.now.set }
    ensures { stop_in fault.new
        ≡ cond (nat_eq (owner_of (owners_of_loop work.now) work.now.all.now.set element) rank)
        (noted work.now.item element (Some broken) (stop_in fault.old)) (stop_in fault.old) }
{
    if work.blocks.owners.rank_of(work.all.set, element) == rank {
        *fault = least(*fault, work.item, element, Some(broken));
    }
}

// Takes over what an element without a fault left in its rank's block.
fn take_over(
    memory: &mut [i32],
    partials: &mut [i32],
    work: &ChainLoop<'_>,
    rank: u32,
    element: u32,
)
    requires is { IsChainLoop work.now }
    requires memory { length memory.old ≡ all_cells (program_of_loop work.now) (ranks_in work.now.blocks.now) }
    requires partials { length partials.old ≡ all_cells (of_vars (program_of_loop work.now).vars) (ranks_in work.now.blocks.now) }
    requires rank { rank < ranks_in work.now.blocks.now }
    requires element { element < set_size (program_of_loop work.now).mesh work.now.all.now.set }
    ensures memory { (f : Values) → BlocksHold (program_of_loop work.now) (ranks_in work.now.blocks.now) memory.old f
        → BlocksHold (program_of_loop work.now) (ranks_in work.now.blocks.now) memory.new
        (dropped (program_of_loop work.now) (owners_of_loop work.now) work.now.begun rank element work.now.all.now.args.now f) }
    ensures partials { (f p : Values) → BlocksHold (program_of_loop work.now) (ranks_in work.now.blocks.now) memory.old f
        → BlocksHold (of_vars (program_of_loop work.now).vars) (ranks_in work.now.blocks.now) partials.old p
        → BlocksHold (of_vars (program_of_loop work.now).vars) (ranks_in work.now.blocks.now) partials.new
        (cond (nat_eq (owner_of (owners_of_loop work.now) work.now.all.now.set element) rank)
        (merged_all rank work.now.all.now.args.now work.now.all.now.args.now f p) p) }
{
    if work.blocks.owners.rank_of(work.all.set, element) == rank {
        merge_globals(partials, work.blocks, memory, work.all, rank);
    }
    drop_unheld(
        memory,
        work.blocks,
        work.slices,
        work.all,
        work.begun,
        rank,
        element,
    );
}

/// Runs an element of a Free loop on a rank that executes it, in the rank's block. After a fault nothing is changed.
/// What it leaves in pairs that the rank doesn't hold is dropped; its fault is kept and its amounts count where the
/// rank owns it. `element` is an original number; `saved` and `locals` are room, whatever they hold. Takes no memory.
pub fn run_on_rank(
    memory: &mut [i32],
    partials: &mut [i32],
    fault: &mut Option<Stop>,
    work: &ChainLoop<'_>,
    rank: u32,
    element: u32,
    saved: &mut [i32],
    locals: &mut [i32],
)
    requires is { IsChainLoop work.now }
    requires memory { length memory.old ≡ all_cells (program_of_loop work.now) (ranks_in work.now.blocks.now) }
    requires partials { length partials.old ≡ all_cells (of_vars (program_of_loop work.now).vars) (ranks_in work.now.blocks.now) }
    requires rank { rank < ranks_in work.now.blocks.now }
    requires element { element < set_size (program_of_loop work.now).mesh work.now.all.now.set }
    requires saved { 1024 ≤ length saved.old }
    requires locals { work.now.all.now.code.now.slots ≤ length locals.old }
    ensures { (st : ChainState Fault) → HasConstants (program_of_loop work.now) work.now.values.now st
        → Runs (program_of_loop work.now) (owners_of_loop work.now) work.now.begun work.now.all.now.site
        memory.old partials.old fault.old st
        → Runs (program_of_loop work.now) (owners_of_loop work.now) work.now.begun work.now.all.now.site
        memory.new partials.new fault.new
        (element_ran (program_of_loop work.now) (owners_of_loop work.now) work.now.item rank element st) }
{
    run_model::windows_are_reached();
    run_model::constants_are_read();
    work.blocks.bound.mesh.is_in_range();
    put_globals(memory, work.blocks, work.all, rank);
    let broken = run_element(
        memory,
        work.blocks,
        work.all,
        Some(rank),
        element,
        work.values,
        saved,
        locals,
    );
    match broken {
        Some(broken) => keep_fault(fault, work, rank, element, broken),
        None => take_over(memory, partials, work, rank, element),
    }
}
