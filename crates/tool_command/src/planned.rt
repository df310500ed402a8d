// The jobs on the plan of a program over a mesh.

ghost use Rattle.std.specs.Prelude.{◌≡◌, ◌++◌, [], ◌∷◌, All, IfOk};
ghost use Rattle.op_outside.specs.Outside.{Rose};
ghost use Rattle.job_inputs.specs.Readings.{readings_of, AreNext};
ghost use Rattle.bound_program.specs.Values.{bound_of};
ghost use Rattle.bound_program.specs.Fits.{Fits};
ghost use Rattle.command_words.specs.Words.{InFiles, names_by, names_in_blocks};
ghost use Rattle.command_words.specs.Laws.{AreWithin};
ghost use Rattle.command_words.specs.Values.{options_in};
ghost use Rattle.answers.specs.Answers.{BoundAnswers};
ghost use Rattle.job_inputs.specs.Chains.{AnswersFrom, AnswersOver};
ghost use Rattle.job_inputs.specs.Plans.{planned_of};
ghost use Rattle.tool_words.specs.Values.{plan_job_of};
ghost use Rattle.tool_command.specs.ToolAnswers.{OnPlanned, PlanJobAnswers};
ghost use Rattle.tool_command.specs.Endings.{names_for_plan, names_behind};

use crate::counts::counted;
use crate::owners::told;
use crate::pictures::{drawn, gridded};
use bound_program::Bound;
use command_words::answer_lines::{Answer, Halt};
use command_words::{Input, Options};
use job_inputs::job_plans::planned_on;
use job_inputs::kept_files::{Kept, some_files_are_as_seen};
use job_inputs::{bound_input, expect_blocks, expect_input, expect_parting};
use loop_plan::planned_program::Planned;
use op_num::OutOfMemory;
use op_outside::Shelf;
use par_exec::Open;
use std::alloc::Global;
use tool_words::PlanJob;

// The files that a job reads, in the order in which it does.
fn awaited<'a>(
    alloc: Global,
    job: PlanJob<'a>,
    options: &Options<'a>,
    source: &'a str,
    mesh: &'a str,
) -> Result<Kept<'a>, OutOfMemory>
    ensures { IfOk result (λ kept. kept
        ≡ readings_of ((source.now ∷ mesh.now ∷ []) ++ names_behind (plan_job_of job.entry) (options_in options.now))) }
{
    let mut kept = Kept::new(alloc);
    expect_input(&mut kept, Input::InFiles { source, mesh })?;
    expect_parting(&mut kept, options.parting)?;
    expect_blocks(&mut kept, options.blocks)?;
    match job {
        PlanJob::Grids {
            output: Some(output),
            ..
        } => kept.push(output)?,
        PlanJob::TellsOwners
        | PlanJob::Counts { .. }
        | PlanJob::Draws { .. }
        | PlanJob::Grids { output: None, .. } => {}
    }
    Ok(kept)
}

// The answer of a job on a plan. The files that the job reads itself are the next in `kept`.
fn on_planned<'a, F: Shelf>(
    alloc: Global,
    shelf: &mut F,
    kept: &mut Kept<'a>,
    job: PlanJob<'a>,
    planned: &Planned<'_>,
) -> Result<Answer, Halt<'a>>
    requires lent { All (λ name. F.lends shelf.old name) (names_for_plan (plan_job_of job)) }
    requires next { AreNext (names_for_plan (plan_job_of job)) kept.old }
    ensures { AnswersFrom (F.told shelf.old) kept.old
        (λ files. OnPlanned (plan_job_of job.entry) (bound_of planned.now.bound) files (planned_of planned.now))
        (Rose (F.faults shelf.old) (F.faults shelf.new)) result }
{
    match job {
        PlanJob::TellsOwners => told(alloc, planned),
        PlanJob::Counts { plain } => counted(alloc, planned, plain),
        PlanJob::Draws { picture } => drawn(alloc, planned, picture),
        PlanJob::Grids { picture, output } => {
            gridded(alloc, shelf, kept, planned, picture, output)
        }
    }
}

// The answer of a job on the plan of a bound program. The files of the options, and those that the job reads itself,
// are the next in `kept`.
fn on_bound_plan<'a, F: Shelf>(
    alloc: Global,
    shelf: &mut F,
    kept: &mut Kept<'a>,
    job: PlanJob<'a>,
    options: &Options<'a>,
    bound: &Bound,
) -> Result<Answer, Halt<'a>>
    requires parting { All (λ name. F.lends shelf.old name) (names_by (options_in options.now).parting) }
    requires blocks { All (λ name. F.lends shelf.old name) (names_in_blocks (options_in options.now).blocks) }
    requires own { All (λ name. F.lends shelf.old name) (names_for_plan (plan_job_of job)) }
    requires next { AreNext (names_behind (plan_job_of job) (options_in options.now)) kept.old }
    requires within { AreWithin (options_in options.now) }
    requires fits { Fits (bound_of bound.now) }
    ensures { AnswersFrom (F.told shelf.old) kept.old
        (λ files. PlanJobAnswers (plan_job_of job.entry) (options_in options.now) files (bound_of bound.now))
        (Rose (F.faults shelf.old) (F.faults shelf.new)) result }
{
    let planned = planned_on(alloc, shelf, kept, options, bound, &Open)?;
    on_planned(alloc, shelf, kept, job, &planned)
}

/// The answer of a job on the plan of the program in a file over the mesh in a file, with these options, whose numbers
/// are in range: `op2`'s judgements up to the first refusal, and then the job's.
pub fn on_plan<'a, F: Shelf>(
    alloc: Global,
    shelf: &mut F,
    job: PlanJob<'a>,
    options: &Options<'a>,
    source: &'a str,
    mesh: &'a str,
) -> Result<Answer, Halt<'a>>
    requires input { All (λ name. F.lends shelf.old name) (source.now ∷ mesh.now ∷ []) }
    requires parting { All (λ name. F.lends shelf.old name) (names_by (options_in options.now).parting) }
    requires blocks { All (λ name. F.lends shelf.old name) (names_in_blocks (options_in options.now).blocks) }
    requires own { All (λ name. F.lends shelf.old name) (names_for_plan (plan_job_of job)) }
    requires within { AreWithin (options_in options.now) }
    ensures { AnswersOver (F.told shelf.old)
        ((source.now ∷ mesh.now ∷ []) ++ names_behind (plan_job_of job.entry) (options_in options.now))
        (λ files. BoundAnswers (PlanJobAnswers (plan_job_of job.entry) (options_in options.now) files) (InFiles source.now mesh.now) files)
        (Rose (F.faults shelf.old) (F.faults shelf.new)) result }
{
    some_files_are_as_seen();
    let mut kept = awaited(alloc, job, options, source, mesh)?;
    let bound = bound_input(
        alloc,
        shelf,
        &mut kept,
        Input::InFiles { source, mesh },
        &Open,
    )?;
    on_bound_plan(alloc, shelf, &mut kept, job, options, &bound)
}
