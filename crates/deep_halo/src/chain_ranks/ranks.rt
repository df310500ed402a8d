// The elements of a Free loop on all ranks.

ghost use Rattle.std.specs.Prelude.{◌≡◌, ◌<◌, ◌≤◌, length};
ghost use Rattle.kernel_model.specs.declared.types.faults.KernelFault.{KernelFault as Fault};
ghost use Rattle.run_model.specs.Variables.{of_vars};
ghost use Rattle.schedule_model.specs.Program.{elements};
ghost use Rattle.run_model.specs.Programs.{program_of};
ghost use Rattle.chain_model.specs.Machine.{ChainState, rank_run, ranks_run};
ghost use Rattle.chain_model.specs.Slices.{slicing_of};
ghost use Rattle.deep_halo.specs.Places.{all_cells};
ghost use Rattle.deep_halo.specs.Sound.{ranks_in};
ghost use Rattle.deep_halo.specs.Running.{Runs};
ghost use Rattle.deep_halo.specs.Loops.{IsChainLoop, HasConstants, program_of_loop, owners_of_loop};

use crate::chain_ranks::elements::run_on_rank;
use crate::chain_ranks::loops::ChainLoop;
use rank_state::rank_memory::stop::Stop;

// The elements that a rank executes, by increasing number.
fn run_rank(
    memory: &mut [i32],
    partials: &mut [i32],
    fault: &mut Option<Stop>,
    work: &ChainLoop<'_>,
    rank: u32,
    saved: &mut [i32],
    locals: &mut [i32],
)
    requires is { IsChainLoop work.now }
    requires memory { length memory.old ≡ all_cells (program_of_loop work.now) (ranks_in work.now.blocks.now) }
    requires partials { length partials.old ≡ all_cells (of_vars (program_of_loop work.now).vars) (ranks_in work.now.blocks.now) }
    requires rank { rank < ranks_in work.now.blocks.now }
    requires saved { 1024 ≤ length saved.old }
    requires locals { work.now.all.now.code.now.slots ≤ length locals.old }
    ensures { (st : ChainState Fault) → HasConstants (program_of_loop work.now) work.now.values.now st
        → Runs (program_of_loop work.now) (owners_of_loop work.now) work.now.begun work.now.all.now.site
        memory.old partials.old fault.old st
        → Runs (program_of_loop work.now) (owners_of_loop work.now) work.now.begun work.now.all.now.site
        memory.new partials.new fault.new
        (rank_run (slicing_of (program_of_loop work.now) (owners_of_loop work.now)) work.now.item rank
        (elements (program_of (program_of_loop work.now)) work.now.item) st) }
{
    for element in work.slices.elements(work.item, rank) {
        run_on_rank(memory, partials, fault, work, rank, *element, saved, locals);
    }
}

/// Runs a Free loop on all ranks, each with the elements that it executes. `saved` and `locals` are room, whatever they
/// hold. Takes no memory.
pub fn run_ranks(
    memory: &mut [i32],
    partials: &mut [i32],
    fault: &mut Option<Stop>,
    work: &ChainLoop<'_>,
    saved: &mut [i32],
    locals: &mut [i32],
)
    requires is { IsChainLoop work.now }
    requires memory { length memory.old ≡ all_cells (program_of_loop work.now) (ranks_in work.now.blocks.now) }
    requires partials { length partials.old ≡ all_cells (of_vars (program_of_loop work.now).vars) (ranks_in work.now.blocks.now) }
    requires saved { 1024 ≤ length saved.old }
    requires locals { work.now.all.now.code.now.slots ≤ length locals.old }
    ensures { (st : ChainState Fault) → HasConstants (program_of_loop work.now) work.now.values.now st
        → Runs (program_of_loop work.now) (owners_of_loop work.now) work.now.begun work.now.all.now.site
        memory.old partials.old fault.old st
        → Runs (program_of_loop work.now) (owners_of_loop work.now) work.now.begun work.now.all.now.site
        memory.new partials.new fault.new
        (ranks_run (slicing_of (program_of_loop work.now) (owners_of_loop work.now)) work.now.item (ranks_in work.now.blocks.now) st) }
{
    for rank in 0..work.blocks.owners.ranks {
        run_rank(memory, partials, fault, work, rank, saved, locals);
    }
}
