// The run of a bound program on several ranks.

ghost use Rattle.std.specs.Prelude.{◌≡◌, List, IfOk};
ghost use Rattle.local_mesh.specs.declared.halo_lists.types.Halos.{Halos as TheHalos};
ghost use Rattle.schedule_steps.specs.declared.step.Step.{Step};
ghost use Rattle.schedule_steps.specs.Steps.{Accepted};
ghost use Rattle.schedule_steps.specs.Peaks.{IsPeak};
ghost use Rattle.bound_program.specs.Values.{bound_of};
ghost use Rattle.bound_program.specs.Fits.{Fits};
ghost use Rattle.run_model.specs.Ranges.{AllObey, StartsInRange};
ghost use Rattle.loop_plan.specs.Values.{plan_of};
ghost use Rattle.loop_plan.specs.Distributed.{Distributed};
ghost use Rattle.loop_plan.specs.Proper.{Proper};
ghost use Rattle.loop_plan.specs.StepOutline.{step_outline};
ghost use Rattle.schedule_check.specs.Mail.{plan_cells};
ghost use Rattle.rank_exec.specs.Runs.{IsRunBy};
ghost use Rattle.loop_plan.specs.Planned.{outline_of};
ghost use Rattle.rank_exec.specs.Orders.{InOrder, CanTake, message_cells_of, planned_dump};
ghost use Rattle.schedule_steps.specs.Standard as the;

use crate::planned_run::orders::Order;
use crate::planned_run::peaks::peaks_are_room;
use crate::planned_run::rooms::standard_room;
use crate::{Outcome, come_in_rounds, run_planned};
use bound_program::Bound;
use kernel_code::compile_all;
use local_mesh::{RankMesh, local_lists};
use loop_plan::Plan;
use loop_plan::planned_program::Planned;
use op_num::OutOfMemory;
use par_exec::{Crew, Gate};
use rank_program::Runnable;
use schedule_check::plan_orders::{PlanShape, standard_order};
use schedule_check::{Checker, take_all};
use schedule_steps::Peak;
use std::alloc::Global;
use std::marker::Sync;
use std::thread::Threads;
use step_orders::ahead::Ahead;
use step_orders::drawn::DrawnOrder;
use step_orders::{Listed, Shape, Standard, Steps};

// The peak of an accepted list of a plan's steps. An error is want of memory.
fn peak_of<S: Steps>(
    alloc: Global,
    bound: &Bound,
    meshes: &[RankMesh],
    plan: &Plan,
    steps: &mut S,
) -> Result<Peak, OutOfMemory>
    requires fits { Fits (bound_of bound.now) }
    requires ranks { (h : TheHalos) × Distributed (bound_of bound.now).mesh h meshes.now }
    requires plan { Proper (bound_of bound.now) meshes.now (plan_of plan.now) }
    requires accepted { Accepted (step_outline (bound_of bound.now) meshes.now (plan_of plan.now)) (S.left steps.old) }
    ensures { IfOk result (IsPeak (plan_cells (bound_of bound.now) meshes.now (plan_of plan.now)) (S.left steps.old)) }
{
    let checker = Checker::new(alloc, bound, plan, meshes)?;
    match take_all(checker, steps) {
        Ok(peak) => Ok(peak),
        Err(_) => unreachable!(),
    }
}

// How many steps are held at most of a stream that is looked ahead: a group of 1,024 begins with their ends, and one
// more.
const MOST_HELD: usize = 2049;

// The standard order of a plan. Where several workers run the program, it is looked ahead for closed groups of elements
// that come in rounds, so that each rank's first group is told too. An error is want of memory.
fn standard_ahead<'s>(
    alloc: Global,
    program: &Runnable<'_>,
    shape: &'s PlanShape<'s>,
    workers: u32,
) -> Result<Ahead<Standard<'s, PlanShape<'s>>>, OutOfMemory>
    ensures order { IfOk result (λ a. ⟦<Ahead<Standard<'s, PlanShape<'s>>> as Steps>⟧.left a
        ≡ the.standard (⟦<PlanShape<'s> as Shape>⟧.outline shape.now) (⟦<PlanShape<'s> as Shape>⟧.group shape.now)) }
    ensures accepted { IfOk result (λ a. Accepted (⟦<PlanShape<'s> as Shape>⟧.outline shape.now)
        (⟦<Ahead<Standard<'s, PlanShape<'s>>> as Steps>⟧.left a)) }
{
    let steps = standard_order(shape);
    let mut round = Vec::new(alloc);
    if workers == 1 {
        return Ahead::new(alloc, steps, round, 0);
    }
    for item in 0..shape.items() {
        round.push(come_in_rounds(program, item, workers))?;
    }
    let ahead = Ahead::new(alloc, steps, round, MOST_HELD)?;
    Ok(ahead)
}

/// Runs a planned program by this order of its plan's steps: the printed bytes and the first fault are those of running
/// each loop one element after another in its set's original order. Where `dumps` and no fault stops the run, a dump of
/// what the ranks hold after these steps stands behind the printed bytes.
///
/// Begins that come one after another are done in groups by the workers of `crew`, and its gate is told of each begin
/// of a group just before it. The answer is the same for every crew.
///
/// # Errors
/// Want of memory alone.
pub fn run_on_ranks<R: Threads + Sync, G: Gate + Sync>(
    crew: &Crew<'_, R, G>,
    planned: &Planned<'_>,
    order: &Order<'_>,
    dumps: bool,
) -> Result<Outcome, OutOfMemory>
    requires obey { AllObey (bound_of planned.now.bound) }
    requires start { StartsInRange (bound_of planned.now.bound) }
    requires order { CanTake (outline_of planned.now) (message_cells_of planned.now) order.now }
    ensures { IfOk result (λ x. (l : List Step) → InOrder (outline_of planned.now) order.now l
        → IsRunBy (bound_of planned.now.bound) (planned_dump dumps planned.now l) x) }
{
    schedule_steps::drawn_once();
    peaks_are_room();
    let (alloc, bound, found) = (crew.alloc, planned.bound, &planned.distribution);
    let (halos, meshes) = (&found.halos, found.ranks.as_slice());
    let lists = local_lists(alloc, &bound.mesh, &found.owners, halos, meshes)?;
    let codes = compile_all(alloc, &bound.kernels)?;
    let program = Runnable::new(alloc, planned, &lists, &codes)?;
    program.is_sound();
    let parts = program.parts();
    match order {
        Order::Standard { group } => {
            let shape = PlanShape::new(alloc, parts.bound, parts.meshes, parts.plan, *group)?;
            let room = standard_room(alloc, &program, &shape, *group)?;
            let mut steps = standard_ahead(alloc, &program, &shape, crew.workers)?;
            let outcome = run_planned(crew, &program, room, &mut steps, dumps)?;
            Ok(outcome)
        }
        Order::Drawn { group, seed } => {
            let shape = PlanShape::new(alloc, parts.bound, parts.meshes, parts.plan, *group)?;
            let mut steps = DrawnOrder::new(alloc, &shape, *seed)?;
            let mut again = DrawnOrder::new(alloc, &shape, *seed)?;
            let peak = peak_of(alloc, parts.bound, parts.meshes, parts.plan, &mut steps)?;
            let outcome = run_planned(crew, &program, peak, &mut again, dumps)?;
            Ok(outcome)
        }
        Order::Listed { steps, peak } => {
            let mut steps = Listed::new(steps);
            let outcome = run_planned(crew, &program, *peak, &mut steps, dumps)?;
            Ok(outcome)
        }
    }
}
