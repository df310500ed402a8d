// The orders in which the steps of a plan are taken.

ghost use Rattle.std.specs.Prelude.{◌≡◌, ◌≤◌, List, IfOk, IfErr};
ghost use Rattle.schedule_steps.specs.declared.step.Step.{Step as StepValue};
ghost use Rattle.schedule_steps.specs.Steps.{Accepted};
ghost use Rattle.schedule_steps.specs.Drawn.{IsDrawn};
ghost use Rattle.bound_program.specs.Values.{bound_of};
ghost use Rattle.loop_plan.specs.Planned.{outline_of};
ghost use Rattle.schedule_check.specs.Whole.{IsWhole, IsUnaccepted};
ghost use Rattle.rank_exec.specs.Orders.{InOrder, CanTake, message_cells_of};
ghost use Rattle.schedule_steps.specs.Standard as the;

use loop_plan::planned_program::Planned;
use op_num::OutOfMemory;
use schedule_check::plan_orders::PlanShape;
use schedule_check::{Checker, Unaccepted, take_all};
use schedule_steps::{Peak, Step};
use std::alloc::Global;
use step_orders::drawn::drawn;
use step_orders::{Listed, standard};

/// In which order the steps of a plan are taken.
#[derive(Clone, Copy, Debug)]
pub enum Order<'a> {
    /// Item by item, in groups of at most so many places, at least 1.
    Standard { group: u32 },
    /// Rank by rank, as the numbers behind the seed say, in groups of at most so many places, at least 1.
    Drawn { group: u32, seed: u64 },
    /// By a list, which has this peak.
    Listed { steps: &'a [Step], peak: Peak },
}

// The drawn order of a plan's steps, in a list. An error is want of memory.
fn drawn_steps(
    alloc: Global,
    planned: &Planned<'_>,
    group: u32,
    seed: u64,
) -> Result<Vec<Step>, OutOfMemory>
    requires group { 1 ≤ group }
    ensures drawn { IfOk result
        (λ v. IsDrawn (outline_of planned.now) group seed v.items) }
    ensures accepted { IfOk result (λ v. Accepted (outline_of planned.now) v.items) }
{
    let found = &planned.distribution;
    let shape = PlanShape::new(alloc, planned.bound, &found.ranks, &planned.plan, group)?;
    let steps = drawn(alloc, &shape, seed)?;
    Ok(steps)
}

// The standard order of a plan's steps, in a list. An error is want of memory.
fn standard_steps(
    alloc: Global,
    planned: &Planned<'_>,
    group: u32,
) -> Result<Vec<Step>, OutOfMemory>
    requires group { 1 ≤ group }
    ensures { IfOk result
        (λ v. v.items ≡ the.standard (outline_of planned.now) group) }
{
    let found = &planned.distribution;
    let shape = PlanShape::new(alloc, planned.bound, &found.ranks, &planned.plan, group)?;
    let steps = standard(alloc, &shape)?;
    Ok(steps)
}

// The steps of a list, in another. An error is want of memory.
fn copied(alloc: Global, steps: &[Step]) -> Result<Vec<Step>, OutOfMemory>
    ensures { IfOk result (λ v. v.items ≡ steps.now) }
{
    let mut list = Vec::with_capacity(alloc, steps.len())?;
    list.extend_from_slice(steps)?;
    Ok(list)
}

/// The steps of a plan in this order, in a list.
///
/// The list is as long as the plan has steps.
///
/// # Errors
/// Want of memory alone.
pub fn steps_of(
    alloc: Global,
    planned: &Planned<'_>,
    order: &Order<'_>,
) -> Result<Vec<Step>, OutOfMemory>
    requires order { CanTake (outline_of planned.now) (message_cells_of planned.now) order.now }
    ensures { IfOk result (λ v. InOrder (outline_of planned.now) order.now v.items) }
{
    match order {
        Order::Standard { group } => standard_steps(alloc, planned, *group),
        Order::Drawn { group, seed } => drawn_steps(alloc, planned, *group, *seed),
        Order::Listed { steps, .. } => copied(alloc, steps),
    }
}

/// Judges a list of steps: its peak exactly where the plan accepts it. Else the refusal is that of the first step that
/// can't be taken in its turn, with the number of the steps before it, or of the first step in standard order that is
/// left at the end.
///
/// # Errors
/// Want of memory alone, also where 32 bits can't count the plan's steps, or 64 bits the cells of a message for each.
pub fn judge_list(
    alloc: Global,
    planned: &Planned<'_>,
    steps: &[Step],
) -> Result<Result<Peak, Unaccepted>, OutOfMemory>
    ensures whole { IfOk result
        (λ r. IfOk r (IsWhole (bound_of planned.now.bound) planned.now.distribution.ranks.items planned.now.plan steps.now)) }
    ensures unaccepted { IfOk result
        (λ r. IfErr r (λ u. (come : List StepValue)
        × IsUnaccepted (bound_of planned.now.bound) planned.now.distribution.ranks.items planned.now.plan steps.now come u)) }
{
    let found = &planned.distribution;
    let checker = Checker::new(alloc, planned.bound, &planned.plan, &found.ranks)?;
    let judged = take_all(checker, &mut Listed::new(steps));
    Ok(judged)
}
