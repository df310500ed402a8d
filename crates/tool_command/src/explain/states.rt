// What the state before an item says of the arguments of its loop.
ghost use Rattle.std.specs.Prelude.{◌≡◌, ◌≤◌, length, map, option_map, string_bytes, Ok, IfOk, IfErr};
ghost use Rattle.bound_program.specs.Values.{bound_of};
ghost use Rattle.bound_program.specs.Fits.{Fits};
ghost use Rattle.command_words.specs.declared.answer_lines.limits.TheConstants.{STATE_BYTES};
ghost use Rattle.command_words.specs.Lines as lines;
ghost use Rattle.command_words.specs.Halts.{answer_of, StopsWhere};
ghost use Rattle.explanations.specs.Faults.{item_in};
ghost use Rattle.explanations.specs.Values.{free_loop_in, shown_arguments};
ghost use Rattle.answers.specs.Answers.{Answers};
ghost use Rattle.answers.specs.Judgements.{AccessesAre};
ghost use Rattle.explanations.specs.Held.{held as held_by};
ghost use Rattle.tool_command.specs.Named.{named_program};
ghost use Rattle.tool_command.specs.Loops.{state_words, as_state, StateTells, files_begun, ValuesOf};

use crate::explain::named::Program;
use bound_program::Bound;
use command_words::answer_lines::{Answer, Halt, STATE_BYTES};
use command_words::{Input, Stretch};
use explanations::error_loops::{free_loop_in, item_in, put_arguments};
use explanations::held_files::HeldFiles;
use job_inputs::chosen_by;
use op_num::OutOfMemory;
use op2_command::answer_to;
use par_exec::Open;
use std::alloc::{AllocError, Global};
use std::marker::Sync;
use std::thread::Threads;

// The words of a call that writes the state before an item.
fn state_words(
    alloc: Global,
    source: &str,
    mesh: &str,
    item: u64,
) -> Result<Vec<String>, OutOfMemory>
    ensures { IfOk result (λ v. map string_bytes v.items ≡ state_words source.now mesh.now item) }
{
    let mut words = Vec::new(alloc);
    words.push(String::from_str(alloc, "op2")?)?;
    words.push(String::from_str(alloc, "state")?)?;
    words.push(String::from_str(alloc, "--at")?)?;
    words.push(item.to_string(alloc)?)?;
    words.push(String::from_str(alloc, "--")?)?;
    words.push(String::from_str(alloc, source)?)?;
    words.push(String::from_str(alloc, mesh)?)?;
    Ok(words)
}

// The output of an answer.
fn output_of(alloc: Global, answer: Answer) -> Vec<u8>
    ensures { result.items ≡ (answer_of answer).out }
{
    match answer {
        Answer::Done(out) => out,
        Answer::Faulted { out, .. } => out,
        Answer::Refused { .. } => Vec::new(alloc),
    }
}

// What `op2` writes to these words over files that are held.
fn written_to<R: Threads + Sync>(
    rt: &R,
    alloc: Global,
    held: &HeldFiles,
    words: &Vec<String>,
) -> Result<Vec<u8>, OutOfMemory>
    ensures { IfOk result (λ v. (x : lines.Answer)
        × Answers (map string_bytes words.now.items) (held_by held.now) x × (v.items ≡ x.out)) }
{
    let mut shelf = held.lent();
    match answer_to(rt, alloc, words, &mut shelf, &Open) {
        Ok(answer) => Ok(output_of(alloc, answer)),
        Err(_) => Err(AllocError),
    }
}

// What was written, where it is no more than a file of a state may have.
fn as_state(out: &[u8]) -> &[u8]
    ensures same { result.now ≡ as_state out.now }
    ensures few { length result.now ≤ STATE_BYTES }
{
    if out.len() as u64 > STATE_BYTES {
        &[]
    } else {
        out
    }
}

// The arguments of a loop, where the program begins.
fn arguments_of(
    alloc: Global,
    bound: &Bound,
    line: &[u8],
    site: u32,
) -> Result<Vec<u8>, OutOfMemory>
    requires { Fits (bound_of bound.now) }
    ensures { IfOk result (λ v. v.items ≡ shown_arguments (bound_of bound.now) line.now site) }
{
    let mut text = Vec::new(alloc);
    put_arguments(&mut text, bound, line, site)?;
    Ok(text)
}

// What a state says of the arguments of a loop, where what was written tells one.
fn told_by_state<'a>(
    alloc: Global,
    bound: Bound,
    out: &[u8],
    line: &[u8],
    site: u32,
) -> Result<Vec<u8>, Halt<'a>>
    requires fits { Fits (bound_of bound) }
    requires obeyed { AccessesAre (bound_of bound) (Ok tt) }
    ensures ok { IfOk result (λ v. StateTells out.now (bound_of bound) line.now site v.items) }
    ensures err { IfErr result (StopsWhere (λ _. ⊥)) }
{
    match chosen_by(alloc, bound, Stretch::From(""), as_state(out)) {
        Ok(chosen) => Ok(arguments_of(alloc, &chosen.bound, line, site)?),
        Err(Halt::Refused(_)) => Ok(Vec::new(alloc)),
        Err(Halt::Failed(failure)) => Err(Halt::Failed(failure)),
    }
}

// The files of a program whose run begins where it does, if it comes from files.
fn files_begun<'a>(program: Program<'a>) -> Option<(&'a str, &'a str)>
    ensures { option_map (λ n. (n.0.now, n.1.now)) result ≡ files_begun (named_program program.entry) }
{
    match program.input {
        Input::InFiles { source, mesh } if program.from_start => Some((source, mesh)),
        _ => None,
    }
}

/// What the loop in which a fault is handed to its kernel for the element before the item, of which the line tells;
/// nothing where it is no Free loop, where the program doesn't come from files, or where it goes on from a state.
///
/// The program runs again up to the item. An error is want of memory.
pub fn values_before<'a, R: Threads + Sync>(
    rt: &R,
    alloc: Global,
    held: &HeldFiles,
    program: Program<'_>,
    bound: Bound,
    line: &[u8],
) -> Result<Vec<u8>, Halt<'a>>
    requires fits { Fits (bound_of bound) }
    requires obeyed { AccessesAre (bound_of bound) (Ok tt) }
    ensures ok { IfOk result (λ v. ValuesOf (files_begun (named_program program.entry)) (held_by held.now) (bound_of bound) line.now
        (item_in line.now) (free_loop_in (bound_of bound) line.now) v.items) }
    ensures err { IfErr result (StopsWhere (λ _. ⊥)) }
{
    let Some((source, mesh)) = files_begun(program) else {
        return Ok(Vec::new(alloc));
    };
    let (Some(item), Some(site)) = (item_in(line), free_loop_in(&bound, line)) else {
        return Ok(Vec::new(alloc));
    };
    let words = state_words(alloc, source, mesh, item)?;
    let out = written_to(rt, alloc, held, &words)?;
    told_by_state(alloc, bound, &out, line, site)
}
