// What is said of the loop that a line of `op2` is about.
ghost use Rattle.std.specs.Prelude.{◌≤◌, length, option_map, Ok, IfOk, IfErr, IfSome, IfNone};
ghost use Rattle.explanations.specs.Held.{held as held_by};
ghost use Rattle.bound_program.specs.Values.{bound_of};
ghost use Rattle.bound_program.specs.Fits.{Fits};
ghost use Rattle.command_words.specs.Refusal.{Refusal as Cause};
ghost use Rattle.command_words.specs.Values.{input_in};
ghost use Rattle.command_words.specs.declared.answer_lines.limits.TheConstants.{SOURCE_BYTES};
ghost use Rattle.command_words.specs.Lines.{refused};
ghost use Rattle.command_words.specs.Halts.{StopsWhere};
ghost use Rattle.answers.specs.Answers.{BoundAnswers};
ghost use Rattle.answers.specs.Judgements.{AccessesAre};
ghost use Rattle.job_inputs.specs.Inputs.{IsBoundIn};
ghost use Rattle.job_inputs.specs.Chains.{Never};
ghost use Rattle.tool_command.specs.Named.{named_program};
ghost use Rattle.tool_command.specs.Loops.{FaultOf, LoopOver, LoopIsTold, LoopOfSource, LoopOf};

use crate::explain::named::Program;
use crate::explain::states::values_before;
use bound_program::Bound;
use command_words::Input;
use command_words::answer_lines::Halt;
use explanations::error_loops::{put_fault_loop, tells_fault, text_of_access};
use explanations::held_files::HeldFiles;
use job_inputs::kept_files::Kept;
use job_inputs::{bound_input, expect_input};
use par_exec::Open;
use std::alloc::Global;
use std::marker::Sync;
use std::thread::Threads;

// The program over files that are held, bound again; none where it is refused.
fn bound_again<'a>(
    alloc: Global,
    held: &HeldFiles,
    input: Input<'a>,
) -> Result<Option<Bound>, Halt<'a>>
    ensures some { IfOk result (λ o. IfSome o (λ b. IsBoundIn (input_in input.entry) (bound_of b) (held_by held.now))) }
    ensures none { IfOk result (λ o. IfNone o
        ((r : Cause) × BoundAnswers Never (input_in input.entry) (held_by held.now) (refused r))) }
    ensures fits { IfOk result (λ o. IfSome o (λ b. Fits (bound_of b))) }
    ensures obeyed { IfOk result (λ o. IfSome o (λ b. AccessesAre (bound_of b) (Ok tt))) }
    ensures err { IfErr result (StopsWhere (λ _. ⊥)) }
{
    let mut shelf = held.lent();
    let mut kept = Kept::new(alloc);
    expect_input(&mut kept, input)?;
    match bound_input(alloc, &mut shelf, &mut kept, input, &Open) {
        Ok(bound) => Ok(Some(bound)),
        Err(Halt::Refused(_)) => Ok(None),
        Err(Halt::Failed(failure)) => Err(Halt::Failed(failure)),
    }
}

// What is said of a fault of this bound program.
fn text_of_bound<'a, R: Threads + Sync>(
    rt: &R,
    alloc: Global,
    held: &HeldFiles,
    program: Program<'_>,
    bound: Bound,
    line: &[u8],
    source: &[u8],
) -> Result<Vec<u8>, Halt<'a>>
    requires fits { Fits (bound_of bound) }
    requires obeyed { AccessesAre (bound_of bound) (Ok tt) }
    ensures ok { IfOk result (λ v. FaultOf (named_program program.entry) (held_by held.now) (bound_of bound) line.now source.now v.items) }
    ensures err { IfErr result (StopsWhere (λ _. ⊥)) }
{
    let mut out = Vec::new(alloc);
    put_fault_loop(&mut out, &bound, source, line)?;
    let values = values_before(rt, alloc, held, program, bound, line)?;
    out.extend_from_slice(&values)?;
    Ok(out)
}

// What is said of a fault of this program over files.
fn text_over<'a, R: Threads + Sync>(
    rt: &R,
    alloc: Global,
    held: &HeldFiles,
    program: Program<'a>,
    line: &[u8],
    source: &[u8],
) -> Result<Vec<u8>, Halt<'a>>
    ensures ok { IfOk result (λ v. LoopOver (named_program program.entry) (held_by held.now) line.now source.now v.items) }
    ensures err { IfErr result (StopsWhere (λ _. ⊥)) }
{
    match bound_again(alloc, held, program.input)? {
        Some(bound) => text_of_bound(rt, alloc, held, program, bound, line, source),
        None => Ok(Vec::new(alloc)),
    }
}

// What is said of a fault.
fn text_of_fault<'a, R: Threads + Sync>(
    rt: &R,
    alloc: Global,
    held: &HeldFiles,
    program: Option<Program<'a>>,
    line: &[u8],
    source: &[u8],
) -> Result<Vec<u8>, Halt<'a>>
    ensures ok { IfOk result (λ v. LoopIsTold (option_map named_program program.entry) (held_by held.now) line.now source.now v.items) }
    ensures err { IfErr result (StopsWhere (λ _. ⊥)) }
{
    match program {
        Some(program) => text_over(rt, alloc, held, program, line, source),
        None => Ok(Vec::new(alloc)),
    }
}

// What is said of the loop that a line is about, over a source.
fn text_of_source<'a, R: Threads + Sync>(
    rt: &R,
    alloc: Global,
    held: &HeldFiles,
    program: Option<Program<'a>>,
    line: &[u8],
    source: &[u8],
) -> Result<Vec<u8>, Halt<'a>>
    requires { length source.now ≤ SOURCE_BYTES }
    ensures ok { IfOk result (λ v. LoopOfSource (option_map named_program program.entry) (held_by held.now) line.now source.now v.items) }
    ensures err { IfErr result (StopsWhere (λ _. ⊥)) }
{
    if tells_fault(line) {
        text_of_fault(rt, alloc, held, program, line, source)
    } else {
        Ok(text_of_access(alloc, source, line)?)
    }
}

/// What is said of the loop that a line of `op2` is about: where it tells a fault, the loop in which that is, its turn,
/// and what a Free loop handed to its kernel; where it refuses an access, the first loop that makes its kernel break
/// the rule, and its argument. Nothing is said without a source.
///
/// `program` is the program over the files that are held, if there is one, and `source` the bytes of the source, no
/// more than `SOURCE_BYTES`. An error is want of memory.
pub fn text_of_loop<'a, R: Threads + Sync>(
    rt: &R,
    alloc: Global,
    held: &HeldFiles,
    program: Option<Program<'a>>,
    line: &[u8],
    source: Option<&[u8]>,
) -> Result<Vec<u8>, Halt<'a>>
    requires { IfSome source (λ s. length s.now ≤ SOURCE_BYTES) }
    ensures ok { IfOk result (λ v. LoopOf (option_map named_program program.entry) (held_by held.now) line.now
        (option_map (λ s. s.now) source.entry) v.items) }
    ensures err { IfErr result (StopsWhere (λ _. ⊥)) }
{
    match source {
        Some(source) => text_of_source(rt, alloc, held, program, line, source),
        None => Ok(Vec::new(alloc)),
    }
}
