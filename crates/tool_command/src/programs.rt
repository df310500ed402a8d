// The jobs on a program over a mesh.

ghost use Rattle.std.specs.Prelude.{◌≡◌, ◌++◌, [], ◌∷◌, All, IfOk};
ghost use Rattle.op_outside.specs.Outside.{Rose};
ghost use Rattle.job_inputs.specs.Readings.{readings_of, AreNext};
ghost use Rattle.bound_program.specs.Values.{bound_of};
ghost use Rattle.bound_program.specs.Fits.{Fits};
ghost use Rattle.job_inputs.specs.Chains.{AnswersFrom, AnswersOver};
ghost use Rattle.tool_words.specs.Values.{job_of};
ghost use Rattle.tool_words.specs.Ranges.{HasFewRanks};
ghost use Rattle.command_words.specs.Words.{InFiles};
ghost use Rattle.answers.specs.Answers.{BoundAnswers};
ghost use Rattle.tool_command.specs.ToolAnswers.{OnBound};
ghost use Rattle.tool_command.specs.Endings.{names_for};

use crate::graphs::graphed;
use crate::partitions::taken;
use crate::picks::picked;
use bound_program::Bound;
use command_words::Input;
use command_words::answer_lines::{Answer, Halt};
use job_inputs::bound_input;
use job_inputs::kept_files::{Kept, some_files_are_as_seen};
use op_num::OutOfMemory;
use op_outside::Shelf;
use par_exec::Open;
use std::alloc::Global;
use tool_words::ProgramJob;

// The files that a job reads, in the order in which it does.
fn awaited<'a>(
    alloc: Global,
    job: ProgramJob<'a>,
    source: &'a str,
    mesh: &'a str,
) -> Result<Kept<'a>, OutOfMemory>
    ensures { IfOk result (λ kept. kept ≡ readings_of ((source.now ∷ mesh.now ∷ []) ++ names_for (job_of job.entry))) }
{
    let mut kept = Kept::new(alloc);
    kept.push(source)?;
    kept.push(mesh)?;
    match job {
        ProgramJob::Picks { output, .. } => kept.push(output)?,
        ProgramJob::Graphs { .. } => {}
        ProgramJob::TakesOwners { file, .. } => kept.push(file)?,
    }
    Ok(kept)
}

// The answer of a job on a bound program. The files that the job reads are the next in `kept`.
fn on_bound<'a, F: Shelf>(
    alloc: Global,
    shelf: &mut F,
    kept: &mut Kept<'a>,
    job: ProgramJob<'a>,
    bound: &Bound,
) -> Result<Answer, Halt<'a>>
    requires lent { All (λ name. F.lends shelf.old name) (names_for (job_of job)) }
    requires next { AreNext (names_for (job_of job)) kept.old }
    requires fits { Fits (bound_of bound.now) }
    requires few { HasFewRanks (job_of job) }
    ensures { AnswersFrom (F.told shelf.old) kept.old (λ files. OnBound (job_of job.entry) files (bound_of bound.now))
        (Rose (F.faults shelf.old) (F.faults shelf.new)) result }
{
    match job {
        ProgramJob::Picks {
            output,
            file,
            earlier,
        } => picked(alloc, shelf, kept, bound, output, file, earlier),
        ProgramJob::Graphs { map } => graphed(alloc, bound, map),
        ProgramJob::TakesOwners { ranks, file, set } => {
            taken(alloc, shelf, kept, bound, ranks, file, set)
        }
    }
}

/// The answer of a job on the program in a file over the mesh in a file: `op2`'s judgements up to the first refusal,
/// and then the job's. Its number of ranks, where it has one, is 1 to 64.
pub fn on_program<'a, F: Shelf>(
    alloc: Global,
    shelf: &mut F,
    job: ProgramJob<'a>,
    source: &'a str,
    mesh: &'a str,
) -> Result<Answer, Halt<'a>>
    requires input { All (λ name. F.lends shelf.old name) (source.now ∷ mesh.now ∷ []) }
    requires own { All (λ name. F.lends shelf.old name) (names_for (job_of job)) }
    requires few { HasFewRanks (job_of job) }
    ensures { AnswersOver (F.told shelf.old) ((source.now ∷ mesh.now ∷ []) ++ names_for (job_of job.entry))
        (λ files. BoundAnswers (OnBound (job_of job.entry) files) (InFiles source.now mesh.now) files)
        (Rose (F.faults shelf.old) (F.faults shelf.new)) result }
{
    some_files_are_as_seen();
    let mut kept = awaited(alloc, job, source, mesh)?;
    let bound = bound_input(
        alloc,
        shelf,
        &mut kept,
        Input::InFiles { source, mesh },
        &Open,
    )?;
    on_bound(alloc, shelf, &mut kept, job, &bound)
}
