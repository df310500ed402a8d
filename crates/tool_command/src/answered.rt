// The answer to the words.

ghost use Rattle.std.specs.Prelude.{◌≡◌, map, string_bytes, All};
ghost use Rattle.op_outside.specs.Outside.{Rose};
ghost use Rattle.job_inputs.specs.Chains.{AnswersOver};
ghost use Rattle.tool_words.specs.Words.{call_in};
ghost use Rattle.tool_words.specs.Values.{command_of, call_of, IsInRange};
ghost use Rattle.tool_command.specs.ToolAnswers.{CommandAnswers};
ghost use Rattle.tool_command.specs.Endings.{AreLent, AnswersWords, CallAnswers, names_of};

use crate::explain::explained;
use crate::gmsh::from_gmsh_file;
use crate::lines::refused_words;
use crate::planned::on_plan;
use crate::programs::on_program;
use command_words::answer_lines::{Answer, Failure, Halt, done, refused};
use op_outside::Shelf;
use std::alloc::Global;
use std::marker::Sync;
use std::thread::Threads;
use tool_words::{Asked, USAGE, VERSION, WordsRefusal, read_words};

// The answer to what is asked for.
fn to_asked<'a, R: Threads + Sync, F: Shelf>(
    rt: &R,
    alloc: Global,
    shelf: &mut F,
    asked: Asked<'a>,
) -> Result<Answer, Halt<'a>>
    requires lent { All (λ name. F.lends shelf.old name) (names_of (command_of asked)) }
    requires in_range { IsInRange asked }
    ensures { AnswersOver (F.told shelf.old) (names_of (command_of asked.entry)) (CommandAnswers (command_of asked.entry))
        (Rose (F.faults shelf.old) (F.faults shelf.new)) result }
{
    match asked {
        Asked::OnProgram { job, source, mesh } => on_program(alloc, shelf, job, source, mesh),
        Asked::OnPlan {
            job,
            options,
            source,
            mesh,
        } => on_plan(alloc, shelf, job, &options, source, mesh),
        Asked::Convert {
            file,
            dim,
            scale,
            writes_source,
        } => from_gmsh_file(rt, alloc, shelf, file, dim, scale, writes_source),
        Asked::Explain { call } => explained(rt, alloc, shelf, call),
        Asked::Usage => Ok(done(alloc, USAGE)?),
        Asked::Version => Ok(done(alloc, VERSION)?),
    }
}

// What the words ask for and its answer, where nothing is refused.
fn to_words<'a, R: Threads + Sync, F: Shelf>(
    rt: &R,
    alloc: Global,
    words: &'a Vec<String>,
    call: &'a Option<Vec<String>>,
    shelf: &mut F,
) -> Result<Answer, Halt<'a>>
    requires call { call_of call.now ≡ call_in (map string_bytes words.now.items) }
    requires lent { AreLent (λ name. F.lends shelf.old name) (map string_bytes words.now.items) }
    ensures { AnswersWords (map string_bytes words.now.items) (F.told shelf.old) (Rose (F.faults shelf.old) (F.faults shelf.new)) result }
{
    match read_words(alloc, words, call) {
        Ok(asked) => to_asked(rt, alloc, shelf, asked),
        Err(WordsRefusal::Usage) => Ok(refused_words(alloc)?),
        Err(WordsRefusal::OutOfMemory) => Err(Halt::Failed(Failure::OutOfMemory)),
    }
}

/// The answer to the words, or what failed before there is one. `call` is the call in them that is to be explained, if
/// they have one; `rt` starts the threads of a call's `--workers`.
pub fn answered<'a, R: Threads + Sync, F: Shelf>(
    rt: &R,
    alloc: Global,
    words: &'a Vec<String>,
    call: &'a Option<Vec<String>>,
    shelf: &mut F,
) -> Result<Answer, Failure<'a>>
    requires call { call_of call.now ≡ call_in (map string_bytes words.now.items) }
    requires lent { AreLent (λ name. F.lends shelf.old name) (map string_bytes words.now.items) }
    ensures { CallAnswers (map string_bytes words.now.items) (F.told shelf.old) (Rose (F.faults shelf.old) (F.faults shelf.new)) result }
{
    match to_words(rt, alloc, words, call, shelf) {
        Ok(answer) => Ok(answer),
        Err(Halt::Failed(failure)) => Err(failure),
        Err(Halt::Refused(refusal)) => match refused(alloc, &refusal) {
            Ok(answer) => Ok(answer),
            Err(_) => Err(Failure::OutOfMemory),
        },
    }
}
