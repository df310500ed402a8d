// What the orders of a plan's steps are read from.
ghost use Rattle.std.specs.Prelude.{◌≡◌, ◌<◌, ◌≤◌, ℕ, IfOk, length};
ghost use Rattle.schedule_steps.specs.Standard.{standard};
ghost use Rattle.schedule_steps.specs.Steps.{Accepted};
ghost use Rattle.bound_program.specs.Values.{bound_of};
ghost use Rattle.bound_program.specs.Fits.{Fits};
ghost use Rattle.loop_plan.specs.Values.{plan_of};
ghost use Rattle.loop_plan.specs.Proper.{Proper};
ghost use Rattle.loop_plan.specs.StepOutline.{step_outline};
ghost use Rattle.schedule_check.specs.Shape.{IsShape};

use crate::plan_orders::messages::{Messages, item_messages, receivers_at, senders_at};
use crate::plan_orders::site_runs::{plan_runs, runs_on};
use bound_program::Bound;
use local_mesh::RankMesh;
use loop_plan::{LoopRun, Plan, run_at};
use op_num::OutOfMemory;
use std::alloc::{AllocError, Global};
use step_orders::{Runs, Shape, Standard, Steps};

/// What the orders of a plan's steps are read from, where at most so many places of one block and colour are begun
/// together. It holds the messages of each item by rank, and the runs of each loop's plan by rank, however many loops
/// share it and however often they run.
#[derive(Drop)]
pub struct PlanShape<'a> {
    bound: &'a Bound,
    ranks: &'a [RankMesh],
    plan: &'a Plan,
    group: u32,
    messages: Vec<Messages>,
    runs: Vec<Vec<Runs>>,
    ghost is_shape: { IsShape (bound_of bound.now) ranks.now (plan_of plan.now) plan.now.sites group messages.items runs.items },
}

impl<'a> PlanShape<'a> {
    /// The orders of a plan whose places are begun in runs of at most `group`.
    ///
    /// It fails only for want of memory, also where 32 bits can't count the loops.
    pub fn new(
        alloc: Global,
        bound: &'a Bound,
        ranks: &'a [RankMesh],
        plan: &'a Plan,
        group: u32,
    ) -> Result<PlanShape<'a>, OutOfMemory>
        requires fits { Fits (bound_of bound.now) }
        requires plan { Proper (bound_of bound.now) ranks.now (plan_of plan.now) }
        requires group { 1 ≤ group }
        ensures outline { IfOk result (λ s. ⟦<PlanShape<'a> as Shape>⟧.outline s
            ≡ step_outline (bound_of bound.now) ranks.now (plan_of plan.now)) }
        ensures group { IfOk result (λ s. ⟦<PlanShape<'a> as Shape>⟧.group s ≡ group) }
    {
        loop_plan::bound_is_in_range();
        if bound.sites.len() > u32::MAX as usize {
            return Err(AllocError);
        }
        let messages = item_messages(alloc, plan.ranks, &plan.items)?;
        let runs = plan_runs(alloc, bound, ranks, plan, bound.sites.len() as u32, group)?;
        Ok(PlanShape {
            bound,
            ranks,
            plan,
            group,
            messages,
            runs,
        })
    }
}

impl<'a> Shape for PlanShape<'a> {
    ghost use Rattle.bound_program.specs.Values.{bound_of};
    ghost use Rattle.loop_plan.specs.Values.{plan_of};
    ghost use Rattle.loop_plan.specs.StepOutline.{step_outline};

    ghost outline = { λ s. step_outline (bound_of s.bound.now) s.ranks.now (plan_of s.plan.now) };

    ghost group = { λ s. s.group };

    fn items(&self) -> u32 {
        self.bound.trace.len() as u32
    }

    fn ranks(&self) -> u32 {
        self.plan.ranks
    }

    fn is_free(&self, item: u32) -> bool {
        matches!(run_at(self.bound, item as usize), LoopRun::Free { .. })
    }

    fn receivers(&self, item: u32, from: u32) -> &[u32] {
        receivers_at(&self.messages, item, from)
    }

    fn senders(&self, item: u32, rank: u32) -> &[u32] {
        senders_at(&self.messages, item, rank)
    }

    fn runs(&self, item: u32, rank: u32) -> &Runs {
        match run_at(self.bound, item as usize) {
            LoopRun::Free { site } => match self.plan.sites.slot(site) {
                Some(slot) => runs_on(&self.runs, slot, rank),
                None => unreachable!(),
            },
            LoopRun::Ordered { .. } => unreachable!(),
            LoopRun::No => unreachable!(),
        }
    }
}

/// The standard order of a plan's steps. It is accepted. Takes no memory.
pub fn standard_order<'a>(shape: &'a PlanShape<'a>) -> Standard<'a, PlanShape<'a>>
    ensures order { ⟦<Standard<'a, PlanShape<'a>> as Steps>⟧.left result
        ≡ standard (⟦<PlanShape<'a> as Shape>⟧.outline shape.now) (⟦<PlanShape<'a> as Shape>⟧.group shape.now) }
    ensures accepted { Accepted (⟦<PlanShape<'a> as Shape>⟧.outline shape.now)
        (⟦<Standard<'a, PlanShape<'a>> as Steps>⟧.left result) }
{
    schedule_steps::standard_is_accepted();
    Standard::new(shape)
}
