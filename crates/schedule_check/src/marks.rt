// The marks of a plan.
ghost use Rattle.std.specs.Prelude.{◌≡◌, ◌<◌, ℕ, false, true, IfOk, length};
ghost use Rattle.local_mesh.specs.declared.halo_lists.types.Halos.{Halos};
ghost use Rattle.schedule_steps.specs.declared.step.Step.{Step};
ghost use Rattle.schedule_steps.specs.Steps.{IsStep};
ghost use Rattle.bound_program.specs.Values.{bound_of};
ghost use Rattle.bound_program.specs.Fits.{Fits};
ghost use Rattle.step_judge.specs.Marked.{item_at as marks_at, outline_of, taken};
ghost use Rattle.step_judge.specs.Wanted.{AreMarksOf};
ghost use Rattle.loop_plan.specs.Values.{plan_of};
ghost use Rattle.loop_plan.specs.Distributed.{Distributed};
ghost use Rattle.loop_plan.specs.Proper.{Proper};
ghost use Rattle.loop_plan.specs.StepOutline.{step_outline};
ghost use Rattle.schedule_check.specs.ItemMarks.{AreItemMarks};

use crate::items::all_items;
use bound_program::Bound;
use local_mesh::RankMesh;
use loop_plan::Plan;
use op_num::OutOfMemory;
use std::alloc::Global;
use step_judge::fresh_marks;
use step_judge::marks::StepMarks;

/// The marks of the plan's steps, of which none is taken.
pub fn plan_marks(
    alloc: Global,
    bound: &Bound,
    plan: &Plan,
    ranks: &[RankMesh],
) -> Result<StepMarks, OutOfMemory>
    requires fits { Fits (bound_of bound.now) }
    requires ranks { (h : Halos) × Distributed (bound_of bound.now).mesh h ranks.now }
    requires plan { Proper (bound_of bound.now) ranks.now (plan_of plan.now) }
    ensures plan { IfOk result (λ v. AreMarksOf (step_outline (bound_of bound.now) ranks.now (plan_of plan.now)) v) }
    ensures open { IfOk result (λ v. (t : Step) → IsStep (outline_of v) t → taken v t ≡ false) }
    ensures items { IfOk result (λ v. (k : ℕ) → k < length (bound_of bound.now).trace
        → AreItemMarks (bound_of bound.now) ranks.now (plan_of plan.now) k (marks_at v k)) }
{
    loop_plan::bound_is_in_range();
    bound.mesh.is_in_range();
    let items = all_items(alloc, bound, plan, ranks)?;
    let marks = fresh_marks(alloc, plan.ranks, items)?;
    Ok(marks)
}
