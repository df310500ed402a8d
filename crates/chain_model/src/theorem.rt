// The theorems on chains. Each function does nothing, and its contract is the theorem.
ghost use Rattle.std.specs.Prelude.{ℕ, Bool};
ghost use Rattle.schedule_model.specs.Setup.{Setup};
ghost use Rattle.schedule_model.specs.Laws.{Lawful};
ghost use Rattle.schedule_model.specs.Sequential.{sequential};
ghost use Rattle.chain_model.specs.Chains.{ChainsAreToldByFirsts};
ghost use Rattle.chain_model.specs.Machine.{ChainAgrees, chain_machine};
ghost use Rattle.chain_model.specs.ChainLaws.{AreSlices, KeepsNeeds, sliced};
ghost use Rattle.chain_model.specs.Slicing.{Slicing};
ghost use Rattle.chain_model.specs.Held.{NeedsOwn, StoresHold};

/// The machine prints what the sequential run prints, and stops exactly where that has a fault, with its item, element
/// and fault. Where it has none, the owners and the variables end with its values. Before each item of a chain to which
/// that run comes, each rank holds what it needs with the values of that run.
pub fn chains_run_as_sequential<F>()
    ensures agrees { (p : Setup F) (needs : ℕ → ℕ → ℕ → ℕ → Bool) (executes : ℕ → ℕ → ℕ → Bool)
        → Lawful p → AreSlices p needs executes
        → ChainAgrees (sliced p needs executes) (sequential p.program) (chain_machine (sliced p needs executes)) }
    ensures kept { (p : Setup F) (needs : ℕ → ℕ → ℕ → ℕ → Bool) (executes : ℕ → ℕ → ℕ → Bool)
        → Lawful p → AreSlices p needs executes → KeepsNeeds (sliced p needs executes) }
{
    op_num::reductions::reductions_commute();
}

/// A chain is told by its first item, and has one last item.
pub fn chains_are_told_by_firsts()
    ensures { ChainsAreToldByFirsts }
{}

/// What the stores have before an item, where nothing stopped the machine: at first each rank's own pairs, and from the
/// start of a chain on what the rank needed there. All faults that the machine records are of elements, so it may keep
/// the least one only, as any machine of schedules may.
pub fn stores_hold<F>()
    ensures { (c : Slicing F) → NeedsOwn c → (k : ℕ) → StoresHold c k }
{}
