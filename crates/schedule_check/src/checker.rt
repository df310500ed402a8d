// Checkers of plans.
ghost use Rattle.std.specs.Prelude.{◌≡◌, ◌<◌, ◌≤◌, ◌*◌, ◌^◌, ℕ, true, IsTrue, IfOk, OnOk, OnErr, [], length, slice_index, slice_index_or};
ghost use Rattle.local_mesh.specs.declared.halo_lists.types.Halos.{Halos};
ghost use Rattle.schedule_steps.specs.Judged.{left_over};
ghost use Rattle.schedule_steps.specs.Peaks.{step_count};
ghost use Rattle.bound_program.specs.Values.{bound_of};
ghost use Rattle.bound_program.specs.Fits.{Fits};
ghost use Rattle.step_judge.specs.Verdicts.{judged, finished};
ghost use Rattle.loop_plan.specs.Values.{plan_of};
ghost use Rattle.loop_plan.specs.Distributed.{Distributed};
ghost use Rattle.loop_plan.specs.StepOutline.{step_outline};
ghost use Rattle.step_judge.specs.Marked.{taken};
ghost use Rattle.loop_plan.specs.Proper.{Proper};
ghost use Rattle.schedule_check.specs.PlanChecking.{checking, IsOfPlan, TakesPlanStep, IsNew};

use crate::marks::plan_marks;
use crate::rows::{all_cells, largest};
use bound_program::Bound;
use local_mesh::RankMesh;
use loop_plan::Plan;
use op_num::OutOfMemory;
use schedule_steps::{Peak, Step};
use std::alloc::{AllocError, Global};
use step_judge::{ScheduleRefusal, StepChecker};

/// A schedule of a plan, taken step by step.
#[derive(Drop)]
pub struct Checker<'a> {
    bound: &'a Bound,
    plan: &'a Plan,
    ranks: &'a [RankMesh],
    steps: StepChecker,
    ghost of_plan: { IsOfPlan (checking (bound_of bound.now) ranks.now (plan_of plan.now) steps) },
    ghost few: { step_count (step_outline (bound_of bound.now) ranks.now (plan_of plan.now)) < 2 ^ 32 },
}

// Whether 32 bits count these steps, and 64 bits so many cells for each.
fn can_count(steps: u64, cells: u64) -> bool
    ensures { IsTrue result → (steps < 2 ^ 32) × (cells * steps < 2 ^ 64) }
{
    if steps > u32::MAX as u64 {
        return false;
    }
    cells.checked_mul(steps).is_some()
}

impl<'a> Checker<'a> {
    /// A checker of the plan, of which no step is taken.
    ///
    /// It fails only for want of memory, also where 32 bits can't count the steps, or 64 bits the cells of a message
    /// for each.
    pub fn new(
        alloc: Global,
        bound: &'a Bound,
        plan: &'a Plan,
        ranks: &'a [RankMesh],
    ) -> Result<Checker<'a>, OutOfMemory>
        requires fits { Fits (bound_of bound.now) }
        requires ranks { (h : Halos) × Distributed (bound_of bound.now).mesh h ranks.now }
        requires plan { Proper (bound_of bound.now) ranks.now (plan_of plan.now) }
        ensures { IfOk result (λ c. IsNew (bound_of bound.now) ranks.now (plan_of plan.now)
            (checking (bound_of c.bound.now) c.ranks.now (plan_of c.plan.now) c.steps)) }
    {
        schedule_steps::tests_decide();
        schedule_steps::standard_is_accepted();
        schedule_steps::alike_outlines_accept_alike();
        schedule_steps::accepted_lists_have_all_steps();
        step_judge::marks::alike_outlines_judge_alike();
        bound.mesh.is_in_range();
        let marks = plan_marks(alloc, bound, plan, ranks)?;
        let cells = all_cells(alloc, &bound.mesh, ranks, &plan.items)?;
        if !can_count(plan.steps, largest(&cells)) {
            return Err(AllocError);
        }
        Ok(Checker {
            bound,
            plan,
            ranks,
            steps: StepChecker::new(marks, cells),
        })
    }

    /// Takes the step, or says why not; then nothing changes. Takes no memory.
    ///
    /// `NoSuchStep` where the plan hasn't the step; else `Repeated` where it was taken; else `TooEarly` where a step
    /// that has to come before it isn't taken, with the first of these in standard order.
    pub fn take(&mut self, step: Step) -> Result<(), ScheduleRefusal>
        ensures answer { result ≡ judged (step_outline (bound_of self.old.bound.now) self.old.ranks.now (plan_of self.old.plan.now))
            (taken self.old.steps.marks) step }
        ensures ok { OnOk result (TakesPlanStep
            (checking (bound_of self.old.bound.now) self.old.ranks.now (plan_of self.old.plan.now) self.old.steps)
            (checking (bound_of self.new.bound.now) self.new.ranks.now (plan_of self.new.plan.now) self.new.steps) step) }
        ensures err { OnErr result (checking (bound_of self.new.bound.now) self.new.ranks.now (plan_of self.new.plan.now) self.new.steps
            ≡ checking (bound_of self.old.bound.now) self.old.ranks.now (plan_of self.old.plan.now) self.old.steps) }
    {
        self.steps.take(step)
    }

    /// Ends the schedule and gives its peak, or says which step is left: the first in standard order that isn't taken.
    /// Takes no memory.
    pub fn finish(self) -> Result<Peak, ScheduleRefusal>
        ensures { result ≡ finished self.entry.steps.load.peak
            (left_over (step_outline (bound_of self.entry.bound.now) self.entry.ranks.now (plan_of self.entry.plan.now))
            (taken self.entry.steps.marks)) }
    {
        self.steps.finish()
    }
}
