// Marks of a plan of which no step is taken.
ghost use Rattle.std.specs.Prelude.{◌≡◌, ℕ, false, IfOk};
ghost use Rattle.schedule_steps.specs.Outline.{Outline};
ghost use Rattle.schedule_steps.specs.declared.step.Step.{Step};
ghost use Rattle.schedule_steps.specs.Steps.{IsStep};
ghost use Rattle.step_judge.specs.Marked.{outline_of, taken};
ghost use Rattle.step_judge.specs.Wanted.{AreMarksOf};
ghost use Rattle.step_judge.specs.Fresh.{AreFresh};

use crate::marks::{ItemMarks, StepMarks};
use std::alloc::{AllocError, Global};

/// The marks of a plan on so many ranks, by its items, of which no step is taken.
pub fn fresh_marks(
    alloc: Global,
    ranks: u32,
    items: Vec<ItemMarks>,
) -> Result<StepMarks, AllocError>
    requires { (o : Outline) × AreFresh o ranks items.items }
    ensures ranks { IfOk result (λ v. v ≡ record { ranks = ranks; items = items.items }) }
    ensures plan { IfOk result (λ v. (o : Outline) → AreFresh o ranks items.items → AreMarksOf o v) }
    ensures open { IfOk result (λ v. (t : Step) → IsStep (outline_of v) t → taken v t ≡ false) }
{
    let marks = StepMarks::new(alloc, ranks, items)?;
    Ok(marks)
}
