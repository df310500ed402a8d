// The answer to the words: the judgements in order, up to the first refusal, and then what is asked for.

ghost use Rattle.std.specs.Prelude.{◌≡◌, ◌≤◌, [], ◌∷◌, ◌++◌, Ok, Err, All, map, length, string_bytes, IfOk, IfErr};
ghost use Rattle.op_outside.specs.Outside.{Rose};
ghost use Rattle.job_inputs.specs.Readings.{readings_of};
ghost use Rattle.mesh_decl.specs.declared.text.entry.TheConstants.{MESH_BYTES};
ghost use Rattle.command_words.specs.Words.{WordsAre, names_from, names_before, names_by, names_in_blocks, names_at, names_of, named_by};
ghost use Rattle.command_words.specs.Laws.{AreFew, AreWithin};
ghost use Rattle.answers.specs.Answers.{BoundAnswers, PlanAnswers, ChainAnswers, ConvertAnswers, CommandAnswers, Answers};
ghost use Rattle.command_words.specs.Values.{options_in, job_in, input_in, command_of};
ghost use Rattle.command_words.specs.Values.{chain_options_in, chain_job_in, IsInRange};
ghost use Rattle.command_words.specs.Halts.{StopsWhere};
ghost use Rattle.job_inputs.specs.Chains.{AnswersBy, AnswersOver};
ghost use Rattle.op2_command.specs.Chains.{RewriteAnswers};
ghost use Rattle.op2_command.specs.Writes.{CallAnswers};

use crate::chains::chained;
use crate::plans::planned;
use crate::sources::{restored, translated};
use command_words::answer_lines::{Answer, Failure, Halt, Limit, Refusal, done, refused};
use command_words::{
    Asked, ChainJob, ChainOptions, Input, Options, PlanJob, USAGE, VERSION, WordsRefusal,
    read_words,
};
use job_inputs::kept_files::{Kept, some_files_are_as_seen};
use job_inputs::{
    bound_input, entries_of, expect_blocks, expect_input, expect_parting, expect_schedule,
    expect_stretch, sole_file,
};
use mesh_decl::text::{Form, write_mesh};
use op_num::OutOfMemory;
use op_outside::Shelf;
use par_exec::{Crew, Gate, Phase};
use std::alloc::Global;
use std::marker::Sync;
use std::thread::Threads;

// The files that a job on a plan reads, in the order in which it does.
fn awaited<'a>(
    alloc: Global,
    options: &Options<'a>,
    input: Input<'a>,
) -> Result<Kept<'a>, OutOfMemory>
    ensures { IfOk result (λ kept. kept ≡ readings_of
        (names_from (input_in input.entry) ++ names_before (options_in options.now).stretch ++ names_by (options_in options.now).parting
        ++ names_in_blocks (options_in options.now).blocks ++ names_at (options_in options.now).schedule)) }
{
    let mut kept = Kept::new(alloc);
    expect_input(&mut kept, input)?;
    expect_stretch(&mut kept, options.stretch)?;
    expect_parting(&mut kept, options.parting)?;
    expect_blocks(&mut kept, options.blocks)?;
    expect_schedule(&mut kept, options.schedule)?;
    Ok(kept)
}

// The answer of a job on the plan of a program over a mesh.
fn to_plan<'a, F: Shelf, R: Threads + Sync, G: Gate + Sync>(
    crew: &Crew<'_, R, G>,
    shelf: &mut F,
    job: PlanJob,
    options: &Options<'a>,
    input: Input<'a>,
) -> Result<Answer, Halt<'a>>
    requires input { All (λ name. F.lends shelf.old name) (names_from (input_in input)) }
    requires state { All (λ name. F.lends shelf.old name) (names_before (options_in options.now).stretch) }
    requires parting { All (λ name. F.lends shelf.old name) (names_by (options_in options.now).parting) }
    requires plan { All (λ name. F.lends shelf.old name) (names_in_blocks (options_in options.now).blocks) }
    requires schedule { All (λ name. F.lends shelf.old name) (names_at (options_in options.now).schedule) }
    requires within { AreWithin (options_in options.now) }
    ensures { AnswersOver (F.told shelf.old)
        (names_from (input_in input.entry) ++ names_before (options_in options.now).stretch ++ names_by (options_in options.now).parting
        ++ names_in_blocks (options_in options.now).blocks ++ names_at (options_in options.now).schedule)
        (PlanAnswers (job_in job) (options_in options.now) (input_in input.entry))
        (Rose (F.faults shelf.old) (F.faults shelf.new)) result }
{
    some_files_are_as_seen();
    let mut kept = awaited(crew.alloc, options, input)?;
    let bound = bound_input(crew.alloc, shelf, &mut kept, input, crew.gate)?;
    crew.gate.phase(Phase::Bound);
    planned(crew, shelf, &mut kept, job, options, bound)
}

// The files that a job on chains reads, in the order in which it does.
fn awaited_by_chains<'a>(
    alloc: Global,
    options: &ChainOptions<'a>,
    input: Input<'a>,
) -> Result<Kept<'a>, OutOfMemory>
    ensures { IfOk result (λ kept. kept ≡ readings_of
        (names_from (input_in input.entry) ++ names_by (chain_options_in options.now).parting)) }
{
    let mut kept = Kept::new(alloc);
    expect_input(&mut kept, input)?;
    expect_parting(&mut kept, options.parting)?;
    Ok(kept)
}

// The answer of a job on the chains of a program over a mesh.
fn to_chains<'a, F: Shelf, G: Gate>(
    alloc: Global,
    shelf: &mut F,
    job: ChainJob,
    options: &ChainOptions<'a>,
    input: Input<'a>,
    gate: &G,
) -> Result<Answer, Halt<'a>>
    requires input { All (λ name. F.lends shelf.old name) (names_from (input_in input)) }
    requires parting { All (λ name. F.lends shelf.old name) (names_by (chain_options_in options.now).parting) }
    requires few { AreFew options.now.ranks }
    ensures { AnswersOver (F.told shelf.old) (names_from (input_in input.entry) ++ names_by (chain_options_in options.now).parting)
        (λ files. BoundAnswers (ChainAnswers (chain_job_in job) (chain_options_in options.now) files) (input_in input.entry) files)
        (Rose (F.faults shelf.old) (F.faults shelf.new)) result }
{
    some_files_are_as_seen();
    let mut kept = awaited_by_chains(alloc, options, input)?;
    let bound = bound_input(alloc, shelf, &mut kept, input, gate)?;
    gate.phase(Phase::Bound);
    chained(alloc, shelf, &mut kept, job, options, &bound)
}

// The answer that is the text of a mesh, written again.
fn rewritten<'a>(alloc: Global, form: Form, text: &[u8]) -> Result<Answer, Halt<'a>>
    requires { length text.now ≤ MESH_BYTES }
    ensures { AnswersBy (RewriteAnswers form text.now) result }
{
    let entries = entries_of(alloc, text)?;
    Ok(Answer::Done(write_mesh(alloc, &entries, form)?))
}

// The answer that is the mesh in a file, written again.
fn converted<'a, F: Shelf>(
    alloc: Global,
    shelf: &mut F,
    form: Form,
    mesh: &'a str,
) -> Result<Answer, Halt<'a>>
    requires { F.lends shelf.old mesh.now }
    ensures { AnswersOver (F.told shelf.old) (mesh.now ∷ []) (ConvertAnswers form mesh.now)
        (Rose (F.faults shelf.old) (F.faults shelf.new)) result }
{
    some_files_are_as_seen();
    let text = sole_file(alloc, shelf, mesh, Limit::MeshBytes)?;
    rewritten(alloc, form, &text)
}

// The answer to what is asked for.
fn to_asked<'a, F: Shelf, R: Threads + Sync, G: Gate + Sync>(
    rt: &R,
    alloc: Global,
    shelf: &mut F,
    asked: Asked<'a>,
    gate: &G,
) -> Result<Answer, Halt<'a>>
    requires lent { All (λ name. F.lends shelf.old name) (names_of (command_of asked)) }
    requires within { IsInRange asked }
    ensures { AnswersOver (F.told shelf.old) (names_of (command_of asked.entry)) (CommandAnswers (command_of asked.entry))
        (Rose (F.faults shelf.old) (F.faults shelf.new)) result }
{
    match asked {
        Asked::Plan {
            job,
            options,
            input,
        } => {
            let crew = Crew {
                threads: rt,
                alloc,
                workers: options.workers,
                gate,
            };
            to_plan(&crew, shelf, job, &options, input)
        }
        Asked::Chains {
            job,
            options,
            input,
        } => to_chains(alloc, shelf, job, &options, input, gate),
        Asked::Convert { form, mesh } => converted(alloc, shelf, form, mesh),
        Asked::Translate { source } => translated(alloc, shelf, source),
        Asked::Restore { source } => restored(alloc, shelf, source),
        Asked::Usage => Ok(done(alloc, USAGE)?),
        Asked::Version => Ok(done(alloc, VERSION)?),
    }
}

// What the words ask for, or what ends the call.
fn asked_by<'a>(alloc: Global, words: &'a Vec<String>) -> Result<Asked<'a>, Halt<'a>>
    ensures ok { IfOk result (λ a. WordsAre (map string_bytes words.now.items) (Ok (command_of a))) }
    ensures in_range { IfOk result IsInRange }
    ensures err { IfErr result (StopsWhere (λ r. WordsAre (map string_bytes words.now.items) (Err r))) }
{
    match read_words(alloc, words) {
        Ok(asked) => Ok(asked),
        Err(WordsRefusal::Usage) => Err(Halt::Refused(Refusal::Usage)),
        Err(WordsRefusal::OutOfMemory) => Err(Halt::Failed(Failure::OutOfMemory)),
    }
}

// The answer to the words, where nothing is refused.
fn to_words<'a, F: Shelf, R: Threads + Sync, G: Gate + Sync>(
    rt: &R,
    alloc: Global,
    words: &'a Vec<String>,
    shelf: &mut F,
    gate: &G,
) -> Result<Answer, Halt<'a>>
    requires { All (λ name. F.lends shelf.old name) (named_by (map string_bytes words.now.items)) }
    ensures { AnswersOver (F.told shelf.old) (named_by (map string_bytes words.now.items)) (Answers (map string_bytes words.now.items))
        (Rose (F.faults shelf.old) (F.faults shelf.new)) result }
{
    let asked = asked_by(alloc, words)?;
    to_asked(rt, alloc, shelf, asked, gate)
}

/// The answer to the words, or what failed before there is one. `gate` is told of what a run does.
pub fn answer_to<'a, F: Shelf, R: Threads + Sync, G: Gate + Sync>(
    rt: &R,
    alloc: Global,
    words: &'a Vec<String>,
    shelf: &mut F,
    gate: &G,
) -> Result<Answer, Failure<'a>>
    requires { All (λ name. F.lends shelf.old name) (named_by (map string_bytes words.now.items)) }
    ensures { CallAnswers (map string_bytes words.now.items) (F.told shelf.old) (Rose (F.faults shelf.old) (F.faults shelf.new)) result }
{
    match to_words(rt, alloc, words, shelf, gate) {
        Ok(answer) => Ok(answer),
        Err(Halt::Failed(failure)) => Err(failure),
        Err(Halt::Refused(refusal)) => match refused(alloc, &refusal) {
            Ok(answer) => Ok(answer),
            Err(_) => Err(Failure::OutOfMemory),
        },
    }
}
