// The plan of a bound program: which of its items run, their plan, the order of its steps, and what is written.

ghost use Rattle.std.specs.Prelude.{◌≡◌, ◌≤◌, ◌++◌, List, All, length, Ok, IfOk};
ghost use Rattle.op_outside.specs.Outside.{Rose};
ghost use Rattle.job_inputs.specs.Readings.{AreNext};
ghost use Rattle.bound_program.specs.Values.{bound_of};
ghost use Rattle.bound_program.specs.Fits.{Fits};
ghost use Rattle.run_model.specs.Ranges.{StartsInRange};
ghost use Rattle.loop_plan.specs.Planned.{outline_of};
ghost use Rattle.schedule_steps.specs.declared.step.Step.{Step as StepValue};
ghost use Rattle.rank_exec.specs.Orders.{InOrder, CanTake, message_cells_of};
ghost use Rattle.command_words.specs.declared.answer_lines.limits.TheConstants.{SCHEDULE_BYTES};
ghost use Rattle.command_words.specs.Words.{names_before, names_by, names_in_blocks, names_at};
ghost use Rattle.command_words.specs.Laws.{AreWithin};
ghost use Rattle.answers.specs.Judgements.{AccessesAre, ByText};
ghost use Rattle.answers.specs.Answers.{sizes_text, planned_answer, ChosenAnswers, PlannedAnswers};
ghost use Rattle.command_words.specs.Values.{options_in, job_in};
ghost use Rattle.command_words.specs.Halts.{answer_of};
ghost use Rattle.job_inputs.specs.Inputs.{chosen_of};
ghost use Rattle.job_inputs.specs.Chains.{AnswersBy, AnswersFrom};
ghost use Rattle.job_inputs.specs.Plans.{planned_of};
ghost use Rattle.op2_command.specs.Chains.{chosen_in, StepsAnswers, ScheduleAnswers};

use crate::plan_task::PlanTask;
use crate::runs::run_on;
use crate::schedules::{end_line, judged, lines_of};
use answers::laws::chosen_programs_start_in_range;
use bound_program::Bound;
use command_words::answer_lines::{Answer, Halt, Limit};
use command_words::{Options, PlanJob, Schedule};
use job_inputs::job_plans::planned_on;
use job_inputs::kept_files::Kept;
use job_inputs::{Chosen, chosen_by, file_of, state_text_of};
use loop_plan::planned_program::Planned;
use loop_plan::{Plan, write_plan};
use op_num::{OutOfMemory, put_u64};
use op_outside::Shelf;
use par_exec::{Crew, Gate};
use rank_exec::planned_run::{Order, steps_of};
use schedule_steps::text::write_schedule;
use std::alloc::Global;
use std::marker::Sync;
use std::thread::Threads;

// The sizes of a plan.
fn sizes_text(alloc: Global, bound: &Bound, plan: &Plan) -> Result<Vec<u8>, OutOfMemory>
    ensures { IfOk result (λ v. v.items ≡ sizes_text (bound_of bound.now) plan.now.steps) }
{
    let mut out = Vec::new(alloc);
    out.extend_from_slice(b"ok items ")?;
    put_u64(&mut out, bound.trace.len() as u64)?;
    out.extend_from_slice(b" sites ")?;
    put_u64(&mut out, bound.sites.len() as u64)?;
    out.extend_from_slice(b" steps ")?;
    put_u64(&mut out, plan.steps)?;
    out.extend_from_slice(b"\n")?;
    Ok(out)
}

// What a job answers of a plan whose steps are taken in this order.
fn planned_answer<R: Threads + Sync, G: Gate + Sync>(
    crew: &Crew<'_, R, G>,
    task: &PlanTask<'_, '_>,
    planned: &Planned<'_>,
    order: &Order<'_>,
) -> Result<Answer, OutOfMemory>
    requires obeyed { AccessesAre (bound_of planned.now.bound) (Ok tt) }
    requires start { StartsInRange (bound_of planned.now.bound) }
    requires order { CanTake (outline_of planned.now) (message_cells_of planned.now) order.now }
    ensures { IfOk result (λ a. (l : List StepValue) → InOrder (outline_of planned.now) order.now l
        → answer_of a ≡ planned_answer (job_in task.now.job) task.now.options.now.dumps (chosen_in task.now.first planned.now)
        (planned_of planned.now) l) }
{
    schedule_steps::drawn_once();
    let (alloc, bound, plan) = (crew.alloc, planned.bound, &planned.plan);
    match task.job {
        PlanJob::Check => Ok(Answer::Done(sizes_text(alloc, bound, plan)?)),
        PlanJob::ShowsPlan => {
            let ranks = &planned.distribution.ranks;
            Ok(Answer::Done(write_plan(alloc, bound, ranks, plan)?))
        }
        PlanJob::ShowsSchedule => {
            let steps = steps_of(alloc, planned, order)?;
            Ok(Answer::Done(write_schedule(alloc, &steps)?))
        }
        PlanJob::RunsPlan => run_on(crew, task, planned, order),
    }
}

// The answer of a job on a plan whose steps are taken as the text of a schedule has them.
fn by_text<'a, R: Threads + Sync, G: Gate + Sync>(
    crew: &Crew<'_, R, G>,
    task: &PlanTask<'_, '_>,
    planned: &Planned<'_>,
    bytes: &[u8],
) -> Result<Answer, Halt<'a>>
    requires obeyed { AccessesAre (bound_of planned.now.bound) (Ok tt) }
    requires start { StartsInRange (bound_of planned.now.bound) }
    requires few { length bytes.now ≤ SCHEDULE_BYTES }
    ensures { AnswersBy (StepsAnswers (job_in task.now.job) (options_in task.now.options.now) (chosen_in task.now.first planned.now)
        (planned_of planned.now) (ByText bytes.now)) result }
{
    let lines = lines_of(crew.alloc, bytes)?;
    let (steps, peak) = judged(crew.alloc, planned, &lines, end_line(bytes))?;
    let order = Order::Listed {
        steps: &steps,
        peak,
    };
    Ok(planned_answer(crew, task, planned, &order)?)
}

// The answer of a job on a plan whose steps are taken in the order that is asked for.
fn scheduled<'a, F: Shelf, R: Threads + Sync, G: Gate + Sync>(
    crew: &Crew<'_, R, G>,
    shelf: &mut F,
    kept: &mut Kept<'a>,
    task: &PlanTask<'_, 'a>,
    planned: &Planned<'_>,
) -> Result<Answer, Halt<'a>>
    requires lent { All (λ name. F.lends shelf.old name) (names_at (options_in task.now.options.now).schedule) }
    requires next { AreNext (names_at (options_in task.now.options.now).schedule) kept.old }
    requires within { AreWithin (options_in task.now.options.now) }
    requires obeyed { AccessesAre (bound_of planned.now.bound) (Ok tt) }
    requires start { StartsInRange (bound_of planned.now.bound) }
    ensures { AnswersFrom (F.told shelf.old) kept.old
        (ScheduleAnswers (job_in task.now.job) (options_in task.now.options.now) (chosen_in task.now.first planned.now)
        (planned_of planned.now)) (Rose (F.faults shelf.old) (F.faults shelf.new)) result }
{
    schedule_steps::drawn_exists();
    match task.options.schedule {
        Schedule::Standard => {
            let group = task.options.group();
            let order = Order::Standard { group };
            Ok(planned_answer(crew, task, planned, &order)?)
        }
        Schedule::Drawn { seed } => {
            let group = task.options.group();
            let order = Order::Drawn { group, seed };
            Ok(planned_answer(crew, task, planned, &order)?)
        }
        Schedule::Written(name) => {
            let bytes = file_of(crew.alloc, shelf, kept, name, Limit::ScheduleBytes)?;
            by_text(crew, task, planned, &bytes)
        }
    }
}

// The answer of a job on the plan of the items that run. The files of a partition, a plan and a schedule, where the
// options name them, are the next in `kept`.
fn chosen_answer<'a, F: Shelf, R: Threads + Sync, G: Gate + Sync>(
    crew: &Crew<'_, R, G>,
    shelf: &mut F,
    kept: &mut Kept<'a>,
    job: PlanJob,
    options: &Options<'a>,
    chosen: &Chosen,
) -> Result<Answer, Halt<'a>>
    requires parting { All (λ name. F.lends shelf.old name) (names_by (options_in options.now).parting) }
    requires plan { All (λ name. F.lends shelf.old name) (names_in_blocks (options_in options.now).blocks) }
    requires schedule { All (λ name. F.lends shelf.old name) (names_at (options_in options.now).schedule) }
    requires next { AreNext (names_by (options_in options.now).parting ++ names_in_blocks (options_in options.now).blocks
        ++ names_at (options_in options.now).schedule) kept.old }
    requires within { AreWithin (options_in options.now) }
    requires fits { Fits (bound_of chosen.now.bound) }
    requires obeyed { AccessesAre (bound_of chosen.now.bound) (Ok tt) }
    requires start { StartsInRange (bound_of chosen.now.bound) }
    ensures { AnswersFrom (F.told shelf.old) kept.old
        (λ files. ChosenAnswers (job_in job) (options_in options.now) files (chosen_of chosen.now))
        (Rose (F.faults shelf.old) (F.faults shelf.new)) result }
{
    let planned = planned_on(crew.alloc, shelf, kept, options, &chosen.bound, crew.gate)?;
    let task = PlanTask {
        job,
        options,
        first: chosen.first,
    };
    scheduled(crew, shelf, kept, &task, &planned)
}

/// The answer of a job on the plan of a bound program with these options. The files of a state, a partition, a plan and
/// a schedule, where the options name them, are the next in `kept`.
pub fn planned<'a, F: Shelf, R: Threads + Sync, G: Gate + Sync>(
    crew: &Crew<'_, R, G>,
    shelf: &mut F,
    kept: &mut Kept<'a>,
    job: PlanJob,
    options: &Options<'a>,
    bound: Bound,
) -> Result<Answer, Halt<'a>>
    requires state { All (λ name. F.lends shelf.old name) (names_before (options_in options.now).stretch) }
    requires parting { All (λ name. F.lends shelf.old name) (names_by (options_in options.now).parting) }
    requires plan { All (λ name. F.lends shelf.old name) (names_in_blocks (options_in options.now).blocks) }
    requires schedule { All (λ name. F.lends shelf.old name) (names_at (options_in options.now).schedule) }
    requires next { AreNext (names_before (options_in options.now).stretch ++ names_by (options_in options.now).parting
        ++ names_in_blocks (options_in options.now).blocks ++ names_at (options_in options.now).schedule) kept.old }
    requires within { AreWithin (options_in options.now) }
    requires fits { Fits (bound_of bound) }
    requires obeyed { AccessesAre (bound_of bound) (Ok tt) }
    requires start { StartsInRange (bound_of bound) }
    ensures { AnswersFrom (F.told shelf.old) kept.old (λ files. PlannedAnswers (job_in job) (options_in options.now) files (bound_of bound))
        (Rose (F.faults shelf.old) (F.faults shelf.new)) result }
{
    chosen_programs_start_in_range();
    let text = state_text_of(crew.alloc, shelf, kept, options.stretch)?;
    let chosen = chosen_by(crew.alloc, bound, options.stretch, &text)?;
    chosen_answer(crew, shelf, kept, job, options, &chosen)
}
