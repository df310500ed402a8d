// Runs of a bound program on ranks.

ghost use Rattle.std.specs.Prelude.{◌≡◌, List, Ok, IfOk};
ghost use Rattle.rank_state.specs.Stops.{stop_in};
ghost use Rattle.bound_program.specs.Values.{bound_of};
ghost use Rattle.run_model.specs.Ranges.{StartsInRange};
ghost use Rattle.loop_plan.specs.Planned.{outline_of};
ghost use Rattle.schedule_steps.specs.declared.step.Step.{Step as StepValue};
ghost use Rattle.rank_exec.specs.Orders.{InOrder, CanTake, message_cells_of, planned_dump};
ghost use Rattle.answers.specs.Judgements.{AccessesAre};
ghost use Rattle.answers.specs.Answers.{ran, run_answer};
ghost use Rattle.command_words.specs.Halts.{answer_of};

use crate::faults::put_fault;
use crate::plan_task::PlanTask;
use answers::laws::runs_answer_on_cells;
use command_words::answer_lines::Answer;
use loop_plan::planned_program::Planned;
use op_num::OutOfMemory;
use par_exec::{Crew, Gate};
use rank_exec::planned_run::{Order, Outcome, run_on_ranks};
use std::alloc::Global;
use std::marker::Sync;
use std::thread::Threads;

// The answer of a run, whose first item has that number in the whole program.
fn ran(alloc: Global, outcome: Outcome, first: u32) -> Result<Answer, OutOfMemory>
    ensures { IfOk result (λ a. answer_of a ≡ ran first (stop_in outcome.stop) outcome.out.items) }
{
    let Some(stop) = outcome.stop else {
        return Ok(Answer::Done(outcome.out));
    };
    let mut line = Vec::new(alloc);
    put_fault(
        &mut line,
        u64::from(first) + u64::from(stop.item),
        stop.element,
        stop.fault,
    )?;
    Ok(Answer::Faulted {
        out: outcome.out,
        line,
    })
}

/// The answer of the run of a program's items on ranks, by a plan for them whose steps are taken in this order: what
/// running each loop one element after another prints, and its first fault, with a dump of the memories behind it where
/// the options ask for one. An error is want of memory.
pub fn run_on<R: Threads + Sync, G: Gate + Sync>(
    crew: &Crew<'_, R, G>,
    task: &PlanTask<'_, '_>,
    planned: &Planned<'_>,
    order: &Order<'_>,
) -> Result<Answer, OutOfMemory>
    requires obeyed { AccessesAre (bound_of planned.now.bound) (Ok tt) }
    requires start { StartsInRange (bound_of planned.now.bound) }
    requires order { CanTake (outline_of planned.now) (message_cells_of planned.now) order.now }
    ensures { IfOk result (λ a. (l : List StepValue) → InOrder (outline_of planned.now) order.now l
        → answer_of a ≡ run_answer task.now.first (bound_of planned.now.bound)
        (planned_dump task.now.options.now.dumps planned.now l)) }
{
    runs_answer_on_cells();
    // The program of a plan fits, which a look at it tells.
    let _bound = planned.bound;
    let outcome = run_on_ranks(crew, planned, order, task.options.dumps)?;
    ran(crew.alloc, outcome, task.first)
}
