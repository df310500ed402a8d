// `op2 check` over two texts in memory.
ghost use Rattle.std.specs.Prelude.{◌≡◌, map, option_map, string_bytes, IfOk, OnOk};
ghost use Rattle.op_outside.specs.Memory.{sure_held};
ghost use Rattle.answers.specs.Answers.{Answers};
ghost use Rattle.command_words.specs.Halts.{answer_of};
ghost use Rattle.tool_command.specs.Judged.{check_words, no_files, with_file, both_texts, refusal_line, IsJudged};

use command_words::answer_lines::{Answer, Failure};
use op_num::OutOfMemory;
use op_outside::SureShelf;
use op2_command::answer_to;
use par_exec::Open;
use std::alloc::{AllocError, Global};
use std::marker::Sync;
use std::thread::Threads;

/// The name under which the source is held.
pub const SOURCE: &str = "source";

/// The name under which the mesh text is held.
pub const MESH: &str = "mesh";

// The words that judge the one over the other.
fn check_words(alloc: Global) -> Result<Vec<String>, OutOfMemory>
    ensures { IfOk result (λ words. map string_bytes words.items ≡ check_words) }
{
    let mut words = Vec::new(alloc);
    words.push(String::from_str(alloc, "op2")?)?;
    words.push(String::from_str(alloc, "check")?)?;
    words.push(String::from_str(alloc, SOURCE)?)?;
    words.push(String::from_str(alloc, MESH)?)?;
    Ok(words)
}

// Holds one file more.
fn hold(alloc: Global, held: &mut SureShelf, name: &str, bytes: Vec<u8>) -> Result<(), OutOfMemory>
    ensures { OnOk result (sure_held held.new ≡ with_file name.now bytes.items (sure_held held.old)) }
{
    held.hold(String::from_str(alloc, name)?, bytes)?;
    Ok(())
}

// No files.
fn hold_none(alloc: Global) -> SureShelf
    ensures { sure_held result ≡ no_files }
{
    SureShelf::new(alloc)
}

// Files that are the two texts.
fn hold_both(alloc: Global, source: Vec<u8>, mesh: Vec<u8>) -> Result<SureShelf, OutOfMemory>
    ensures { IfOk result (λ held. sure_held held ≡ both_texts source.items mesh.items) }
{
    let mut held = hold_none(alloc);
    hold(alloc, &mut held, SOURCE, source)?;
    hold(alloc, &mut held, MESH, mesh)?;
    Ok(held)
}

// What `op2` answers to the words over files that are held, of which none fails to be read.
fn answer_over<R: Threads + Sync>(
    rt: &R,
    alloc: Global,
    held: &mut SureShelf,
    words: &Vec<String>,
) -> Result<Answer, OutOfMemory>
    ensures { IfOk result (λ x. Answers (map string_bytes words.now.items) (sure_held held.old) (answer_of x)) }
{
    match answer_to(rt, alloc, words, held, &Open) {
        Ok(answer) => Ok(answer),
        Err(Failure::OutOfMemory) => Err(AllocError),
        Err(Failure::Unread(_)) => unreachable!(),
    }
}

// The line of an answer with another status than 0.
fn refusal_line(answer: Answer) -> Option<Vec<u8>>
    ensures { option_map (λ v. v.items) result ≡ refusal_line (answer_of answer) }
{
    match answer {
        Answer::Done(_) => None,
        Answer::Faulted { line, .. } => Some(line),
        Answer::Refused { status: 0, .. } => None,
        Answer::Refused { line, .. } => Some(line),
    }
}

/// The line with which `op2 check` refuses a source over a mesh text, or none where it takes them: where its answer has
/// status 0. An error is want of memory. `op2` does its whole work, on one rank; `rt` would start threads, and none is
/// asked for.
pub fn check_refusal<R: Threads + Sync>(
    rt: &R,
    alloc: Global,
    source: Vec<u8>,
    mesh: Vec<u8>,
) -> Result<Option<Vec<u8>>, OutOfMemory>
    ensures { IfOk result (λ line. IsJudged source.items mesh.items (option_map (λ v. v.items) line)) }
{
    let words = check_words(alloc)?;
    let mut held = hold_both(alloc, source, mesh)?;
    let answer = answer_over(rt, alloc, &mut held, &words)?;
    Ok(refusal_line(answer))
}
