// The exchange before a chain.

ghost use Rattle.std.specs.Prelude.{◌≡◌, ◌<◌, ℕ, true, is_some, length};
ghost use Rattle.kernel_model.specs.declared.types.faults.KernelFault.{KernelFault as Fault};
ghost use Rattle.run_model.specs.Programs.{program_of};
ghost use Rattle.chain_model.specs.Chains.{follows_free};
ghost use Rattle.chain_model.specs.Machine.{ChainState, exchanged, supplied};
ghost use Rattle.chain_model.specs.Slices.{slicing_of};
ghost use Rattle.chain_model.specs.Counts.{begins_at};
ghost use Rattle.chain_needs.specs.Slices.{IsFreeItem};
ghost use Rattle.deep_halo.specs.Places.{all_cells};
ghost use Rattle.deep_halo.specs.Sound.{ranks_in};
ghost use Rattle.deep_halo.specs.Running.{StoresStand, AreHeld};
ghost use Rattle.deep_halo.specs.Own.{OwnStand};
ghost use Rattle.deep_halo.specs.Programs.{IsProgram, IsHolding, HasBegun, program_of_run, owners_of_run};

use crate::chain_ranks::chain_exchange::{Exchange, exchange_copies};
use crate::programs::Program;
use chain_needs::begins_chain;

// Drops the copies of the chain that began last, if one did.
fn drop_copies(memory: &mut [i32], program: &Program<'_>, begun: Option<u32>)
    requires is { IsProgram program.now }
    requires memory { length memory.old ≡ all_cells (program_of_run program.now) (ranks_in program.now.blocks.now) }
    requires begun { HasBegun (program_of_run program.now) (owners_of_run program.now) begun }
    ensures { (st : ChainState Fault)
        → StoresStand (program_of_run program.now) (owners_of_run program.now) memory.old st
        → ((r : ℕ) → r < ranks_in program.now.blocks.now
        → IsHolding (program_of_run program.now) (owners_of_run program.now) begun r (st.stores r))
        → OwnStand (program_of_run program.now) (owners_of_run program.now) memory.new st }
{
    match begun {
        Some(last) => exchange_copies(memory, program.blocks, program.slices, last, Exchange::Drop),
        None => {}
    }
}

// The exchange before the item at which a chain begins: copies of the chain that began before, if one did, are dropped,
// and those that the new one needs are taken from their owners.
fn supply(memory: &mut [i32], program: &Program<'_>, begun: Option<u32>, item: u32)
    requires is { IsProgram program.now }
    requires memory { length memory.old ≡ all_cells (program_of_run program.now) (ranks_in program.now.blocks.now) }
    requires begun { HasBegun (program_of_run program.now) (owners_of_run program.now) begun }
    requires item { IsFreeItem (program_of_run program.now) item }
    requires begins { begins_at (program_of_run program.now) item ≡ true }
    ensures { (st : ChainState Fault)
        → StoresStand (program_of_run program.now) (owners_of_run program.now) memory.old st
        → ((r : ℕ) → r < ranks_in program.now.blocks.now
        → IsHolding (program_of_run program.now) (owners_of_run program.now) begun r (st.stores r))
        → StoresStand (program_of_run program.now) (owners_of_run program.now) memory.new
        (exchanged (slicing_of (program_of_run program.now) (owners_of_run program.now)) item st) }
{
    program.blocks.bound.mesh.is_in_range();
    drop_copies(memory, program, begun);
    exchange_copies(memory, program.blocks, program.slices, item, Exchange::Take);
}

/// The exchange before a Free item, where a chain begins there. Returns the item at which the item's chain began.
/// `begun` is the item at which a chain began last, if one did.
pub fn begin_chain(memory: &mut [i32], program: &Program<'_>, begun: Option<u32>, item: u32) -> u32
    requires is { IsProgram program.now }
    requires memory { length memory.old ≡ all_cells (program_of_run program.now) (ranks_in program.now.blocks.now) }
    requires begun { HasBegun (program_of_run program.now) (owners_of_run program.now) begun }
    requires item { IsFreeItem (program_of_run program.now) item }
    requires chain { follows_free (program_of (program_of_run program.now)).kind item ≡ true → is_some begun ≡ true }
    ensures free { IsFreeItem (program_of_run program.now) result }
    ensures begins { begins_at (program_of_run program.now) result ≡ true }
    ensures stores { (st : ChainState Fault)
        → StoresStand (program_of_run program.now) (owners_of_run program.now) memory.old st
        → ((r : ℕ) → r < ranks_in program.now.blocks.now
        → IsHolding (program_of_run program.now) (owners_of_run program.now) begun r (st.stores r))
        → StoresStand (program_of_run program.now) (owners_of_run program.now) memory.new
        (supplied (slicing_of (program_of_run program.now) (owners_of_run program.now)) item st) }
    ensures held { (st : ChainState Fault)
        → ((r : ℕ) → r < ranks_in program.now.blocks.now
        → IsHolding (program_of_run program.now) (owners_of_run program.now) begun r (st.stores r))
        → AreHeld (program_of_run program.now) (owners_of_run program.now) result
        (supplied (slicing_of (program_of_run program.now) (owners_of_run program.now)) item st) }
{
    if begins_chain(program.blocks.bound, item as usize) {
        supply(memory, program, begun, item);
        return item;
    }
    match begun {
        Some(last) => last,
        None => unreachable!(),
    }
}
