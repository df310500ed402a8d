// The answer of `explain`.
ghost use Rattle.std.specs.Prelude.{◌≡◌, [], None, All, map, option_map, option_and_then, string_bytes, length, ◌≤◌, IfOk, IfErr, IfSome};
ghost use Rattle.std.specs.List.{find};
ghost use Rattle.op_outside.specs.Outside.{Rose};
ghost use Rattle.explanations.specs.Held.{held as held_by};
ghost use Rattle.command_words.specs.Words.{named_by};
ghost use Rattle.answers.specs.Answers.{Answers};
ghost use Rattle.command_words.specs.Halts.{answer_of, StopsWhere};
ghost use Rattle.explanations.specs.Texts.{has_name, all_texts};
ghost use Rattle.job_inputs.specs.Chains.{AnswersBy, AnswersOver};
ghost use Rattle.tool_command.specs.ExplainAnswers.{title, as_source, said_of, source_over, ExplainsAnswer, ExplainsCall, ExplainAnswers};
ghost use Rattle.tool_command.specs.Held.{AreHeld};
ghost use Rattle.tool_command.specs.Named.{source_by, program_by, named_program};

use crate::explain::held::hold_all;
use crate::explain::loops::text_of_loop;
use crate::explain::named::{Program, named_by};
use crate::explain::words::text_by;
use command_words::answer_lines::{Answer, Halt, SOURCE_BYTES};
use explanations::held_files::HeldFiles;
use explanations::wrong_words::put_wrong;
use explanations::{explain_status, explain_text};
use op_num::OutOfMemory;
use op_outside::Shelf;
use op2_command::answer_to;
use par_exec::Open;
use std::alloc::Global;
use std::marker::Sync;
use std::thread::Threads;

// The bytes of the source that is held under a name, if they are no more than a source may have.
fn source_held<'a>(held: &'a HeldFiles, name: Option<&str>) -> Option<&'a [u8]>
    ensures small { IfSome result (λ s. length s.now ≤ SOURCE_BYTES) }
    ensures source { option_map (λ s. s.now) result
        ≡ option_and_then (λ n. option_and_then as_source (held_by held.now n)) (option_map (λ n. n.now) name.entry) }
{
    let bytes = held.bytes(name?)?;
    if bytes.len() as u64 > SOURCE_BYTES {
        None
    } else {
        Some(bytes)
    }
}

// What is said of a refusal.
fn said_of_refusal(
    alloc: Global,
    words: &Vec<String>,
    status: u8,
    line: &[u8],
    source: Option<&[u8]>,
) -> Result<Vec<u8>, OutOfMemory>
    ensures { IfOk result (λ v. v.items ≡ said_of (map string_bytes words.now.items)
        (record { status = status; out = []; line = line.now }) (option_map (λ s. s.now) source.entry)) }
{
    let mut text = explain_status(alloc, status, line, source)?;
    if status == 2 {
        put_wrong(alloc, &mut text, words)?;
    }
    Ok(text)
}

// What is said of an answer of `op2`.
fn said_of(
    alloc: Global,
    words: &Vec<String>,
    answer: &Answer,
    source: Option<&[u8]>,
) -> Result<Vec<u8>, OutOfMemory>
    ensures { IfOk result (λ v. v.items
        ≡ said_of (map string_bytes words.now.items) (answer_of answer.now) (option_map (λ s. s.now) source.entry)) }
{
    match answer {
        Answer::Done(_) => explain_status(alloc, 0, b"", source),
        Answer::Faulted { line, .. } => explain_status(alloc, 9, line, source),
        Answer::Refused { status, line } => said_of_refusal(alloc, words, *status, line, source),
    }
}

// What `op2` answers to the words over files that are held, of which none fails to be read.
fn answer_over<'a, R: Threads + Sync>(
    rt: &R,
    alloc: Global,
    held: &HeldFiles,
    words: &'a Vec<String>,
) -> Result<Answer, Halt<'a>>
    ensures ok { IfOk result (λ x. Answers (map string_bytes words.now.items) (held_by held.now) (answer_of x)) }
    ensures err { IfErr result (StopsWhere (λ _. ⊥)) }
{
    let mut shelf = held.lent();
    match answer_to(rt, alloc, words, &mut shelf, &Open) {
        Ok(answer) => Ok(answer),
        Err(failure) => Err(Halt::Failed(failure)),
    }
}

// The line of an answer; none where all is well.
fn line_of(answer: &Answer) -> &[u8]
    ensures { result.now ≡ (answer_of answer.now).line }
{
    match answer {
        Answer::Done(_) => b"",
        Answer::Faulted { line, .. } => line.as_slice(),
        Answer::Refused { line, .. } => line.as_slice(),
    }
}

// The same, explained.
fn explained_over<'a, R: Threads + Sync>(
    rt: &R,
    alloc: Global,
    held: &HeldFiles,
    words: &'a Vec<String>,
    source: Option<&str>,
    program: Option<Program<'a>>,
) -> Result<Answer, Halt<'a>>
    requires source { option_map (λ n. n.now) source ≡ source_by (map string_bytes words.now.items) }
    requires program { option_map named_program program ≡ program_by (map string_bytes words.now.items) }
    ensures { AnswersBy (ExplainsAnswer (map string_bytes words.now.items) (held_by held.now)) result }
{
    let source = source_held(held, source);
    let answer = answer_over(rt, alloc, held, words)?;
    let mut text = said_of(alloc, words, &answer, source)?;
    let loop_text = text_of_loop(rt, alloc, held, program, line_of(&answer), source)?;
    text.extend_from_slice(&loop_text)?;
    Ok(Answer::Done(text))
}

// What a call of `op2` with the words means.
fn explained_call<'a, R: Threads + Sync, F: Shelf>(
    rt: &R,
    alloc: Global,
    shelf: &mut F,
    words: &'a Vec<String>,
) -> Result<Answer, Halt<'a>>
    requires { All (λ name. F.lends shelf.old name) (named_by (map string_bytes words.now.items)) }
    ensures { AnswersOver (F.told shelf.old) (named_by (map string_bytes words.now.items))
        (ExplainsCall (map string_bytes words.now.items)) (Rose (F.faults shelf.old) (F.faults shelf.new)) result }
{
    let named = named_by(alloc, words)?;
    let held = hold_all(alloc, shelf, &named.files)?;
    explained_over(rt, alloc, &held, words, named.source, named.program)
}

/// The answer of `explain`: the text of the error that the words behind the first name, as `access 4`; or, for the
/// words of a call of `op2`, the name of the program first, what `op2` answers to them, explained. Each file that they
/// name is read once, `op2` does its work once over what was read, and nothing of its output is given.
///
/// A file that is missing is refused, also where `op2` would not come to read it; one that could not be read is a
/// failure, where the shelf's count of faults rose, and so is want of memory. `rt` starts the threads of `--workers`.
pub fn explained<'a, R: Threads + Sync, F: Shelf>(
    rt: &R,
    alloc: Global,
    shelf: &mut F,
    words: &'a Vec<String>,
) -> Result<Answer, Halt<'a>>
    requires { All (λ name. F.lends shelf.old name) (named_by (map string_bytes words.now.items)) }
    ensures { AnswersOver (F.told shelf.old) (named_by (map string_bytes words.now.items))
        (ExplainAnswers (map string_bytes words.now.items)) (Rose (F.faults shelf.old) (F.faults shelf.new)) result }
{
    let found = text_by(alloc, words)?;
    match found {
        Some(text) => Ok(Answer::Done(explain_text(alloc, text)?)),
        None => explained_call(rt, alloc, shelf, words),
    }
}
