// The theorems on schedules. Each function does nothing, and its contract is the theorem.

ghost use Rattle.std.specs.Prelude.{◌≡◌, ◌↔◌, ℕ, Bool, List, None};
ghost use Rattle.schedule_steps.specs.declared.step.Step.{Step};
ghost use Rattle.schedule_steps.specs.Steps.{Accepted};
ghost use Rattle.schedule_model.specs.Cells.{Cell, Store};
ghost use Rattle.schedule_model.specs.History.{ByHistory, exchanged_by_bit};
ghost use Rattle.schedule_model.specs.Effects.{Ran, Touch, Independent, GivesEffects};
ghost use Rattle.schedule_model.specs.Setup.{Setup, outline};
ghost use Rattle.schedule_model.specs.Laws.{Lawful, Coloured};
ghost use Rattle.schedule_model.specs.Sequential.{Stop, sequential};
ghost use Rattle.schedule_model.specs.Machine.{least, machine, Agrees};
ghost use Rattle.schedule_model.specs.Kept.{kept_of, if_before, OfElements};

/// For every accepted list the machine prints what the sequential run prints, and stops exactly where that has a fault,
/// with its item, element and fault. Where it has none, each owner and the variables end with its values.
pub fn accepted_runs_as_sequential<F>()
    ensures { (p : Setup F) → Lawful p → Coloured p → (l : List Step)
        → Accepted (outline p) l → Agrees p (sequential p.program) (machine p l) }
{
    op_num::reductions::reductions_commute();
}

/// From independence on two stores: each run is given by whether the element faults and by what it
/// makes of each cell's old value, both of them functions of the store before the loop.
pub fn independence_gives_effects<F>()
    ensures { (run : Store → Ran F) (touch : Cell → Touch) → Independent run touch → GivesEffects run touch }
{
    op_num::reductions::reductions_commute();
}

/// The exchanges of a dat are those of the history exactly where one bit gives them.
pub fn one_bit_is_the_history()
    ensures { (modifies needs exchanged : ℕ → Bool)
        → ByHistory modifies needs exchanged ↔ ((k : ℕ) → exchanged k ≡ exchanged_by_bit modifies needs k) }
{}

/// A machine may keep the least fault only, the first recorded of equals: a join stops by it exactly
/// where it stops by all that are recorded. All that the machine records are faults of elements.
pub fn one_fault_is_enough<F>()
    ensures kept { (k : ℕ) (faults : List (Stop F)) → OfElements faults → least k faults ≡ if_before k (kept_of None faults) }
    ensures elements { (p : Setup F) (l : List Step) → OfElements (machine p l).faults }
{}
