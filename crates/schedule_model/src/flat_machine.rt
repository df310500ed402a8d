//! The distributed machine on flat buffers: memories, variables and windows as lists, elements by their places. It goes
//! with the machine on cells, so the theorem on schedules holds of it. `schedule_examples` has a small plan on which
//! all is computed.
ghost use Rattle.std.specs.Prelude.{◌≡◌, ℕ, ℤ, Bool, not, List, [], ◌++◌, length, None};
ghost use Rattle.schedule_steps.specs.declared.step.Step.{Step};
ghost use Rattle.schedule_steps.specs.Steps.{Accepted};
ghost use Rattle.schedule_steps.specs.UnderWay.{is_open, queue_after};
ghost use Rattle.schedule_model.specs.Cells.{Cell, DatCell};
ghost use Rattle.schedule_model.specs.Setup.{Setup};
ghost use Rattle.schedule_model.specs.Laws.{Lawful, Coloured};
ghost use Rattle.schedule_model.specs.Kept.{OfElements};
ghost use Rattle.schedule_model.specs.Sequential.{sequential};
ghost use Rattle.schedule_model.specs.Layout.{Layout, IsLayout, by_place};
ghost use Rattle.schedule_model.specs.Flat.{Flat, StartsFlat, flat_step, flat_from, AgreesFlat};
ghost use Rattle.schedule_model.specs.Followed.{is_shut, queue_of};
ghost use Rattle.schedule_model.specs.Scatter.{Once, scatter, looked_up, Placed};

pub mod schedule_examples;

/// For every accepted list of steps by places, the machine on flat buffers prints and stops as the sequential run does.
/// Where that has no fault, each owner's buffer and the variables end with its values.
pub fn flat_runs_as_sequential<F>()
    ensures { (p : Setup F) → Lawful p → Coloured p → (l : Layout F) → IsLayout p l → (f : Flat F) → StartsFlat p l f → (steps : List Step)
        → Accepted (by_place p l) steps → AgreesFlat p l (sequential p.program) (flat_from p l steps f) }
{
    crate::accepted_runs_as_sequential::<F>();
}

/// All faults that the machine on flat buffers records are of elements, so it too may keep the least
/// one only (`one_fault_is_enough`).
pub fn flat_faults_are_of_elements<F>()
    ensures step { (p : Setup F) (l : Layout F) (s : Step) (f : Flat F) → OfElements f.faults → OfElements (flat_step p l s f).faults }
    ensures run { (p : Setup F) (l : Layout F) (f : Flat F) → StartsFlat p l f → (steps : List Step)
        → OfElements (flat_from p l steps f).faults }
{}

/// While the machine on flat buffers has not stopped, the messages under way and the elements with a
/// frame are those that its steps leave so. With `accepted_steps_fit` each receive finds a message of
/// its item, each begin no frame of its element, and each end one.
pub fn flat_goes_by_steps<F>()
    ensures mail { (p : Setup F) (l : Layout F) (f : Flat F) → StartsFlat p l f → (steps : List Step)
        → (flat_from p l steps f).stop ≡ None → (s r : ℕ) → queue_of (flat_from p l steps f) s r ≡ queue_after s r [] steps }
    ensures frames { (p : Setup F) (l : Layout F) (f : Flat F) → StartsFlat p l f → (steps : List Step)
        → Accepted (by_place p l) steps → (pre post : List Step) → steps ≡ pre ++ post → (flat_from p l pre f).stop ≡ None
        → (k r x : ℕ) → is_shut ((flat_from p l pre f).panes k r x) ≡ not (is_open pre k r x) }
{}

/// Values that are written into a buffer cell by cell, as a receive, an end and an Ordered loop may
/// do, are those that the machine looks up by index.
pub fn scatter_is_look_up()
    ensures { (taken : DatCell → Bool) (place : DatCell → ℕ) (cell_at : ℕ → DatCell) (xs : List Cell) (ws buffer : List ℤ)
        → Once xs → Placed taken place cell_at xs (length buffer)
        → scatter taken place xs ws buffer ≡ looked_up taken cell_at xs ws buffer }
{}
