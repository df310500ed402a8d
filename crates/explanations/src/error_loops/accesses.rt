// What is said of the loop and the argument of a refused access.
ghost use Rattle.std.specs.Prelude.{◌≡◌, ◌++◌, ◌+◌, ◌<◌, ◌^◌, Some, codes, length, slice_get, OnOk, IfOk};
ghost use Rattle.std.specs.Fmt.{decimal};
ghost use Rattle.c_tree.specs.View.{program_of};
ghost use Rattle.kernel_model.specs.Resolved.{IsResolvedProgram};
ghost use Rattle.explanations.specs.Calls.{call_of};
ghost use Rattle.explanations.specs.Judgements.{judgement_in};
ghost use Rattle.explanations.specs.Accesses.{shown_call, shown_arg, shown_argument, shown, Tells, TellsOver, IsTold};

use crate::error_loops::arguments::{parameter_at, token_of};
use crate::error_loops::calls::{LoopCall, calls_in};
use crate::error_loops::first::{First, first_giving};
use crate::error_loops::judgements::{Judgement, judgement_in};
use crate::error_loops::placed::put_placed;
use crate::error_loops::reading::{Source, source_of};
use c_tree::{LoopArg, Pos, Token, pos_of};
use op_num::{OutOfMemory, put_u64};
use std::alloc::Global;

// A loop, with its line of the source.
fn put_call(
    out: &mut Vec<u8>,
    source: &[u8],
    places: &[Pos],
    call: &LoopCall<'_>,
) -> Result<(), OutOfMemory>
    ensures { OnOk result (out.new.items ≡ out.old.items ++ shown_call source.now places.now (call_of call.now)) }
{
    out.extend_from_slice(b"loop ")?;
    out.extend_from_slice(call.kernel.name.bytes())?;
    put_placed(out, source, pos_of(places, call.at))
}

// An argument by its number from 0, with its line of the source.
fn put_arg(
    out: &mut Vec<u8>,
    source: &[u8],
    places: &[Pos],
    number: usize,
    arg: &LoopArg,
) -> Result<(), OutOfMemory>
    requires { number < 2 ^ 63 }
    ensures { OnOk result (out.new.items ≡ out.old.items ++ shown_arg source.now places.now number (Some arg.now)) }
{
    out.extend_from_slice(b"argument ")?;
    put_u64(out, number as u64 + 1)?;
    put_placed(out, source, pos_of(places, token_of(arg)))
}

// The argument of this number, if there is one.
fn put_arg_at(
    out: &mut Vec<u8>,
    source: &[u8],
    places: &[Pos],
    args: &[LoopArg],
    number: usize,
) -> Result<(), OutOfMemory>
    ensures { OnOk result (out.new.items ≡ out.old.items ++ shown_arg source.now places.now number (slice_get args.now number)) }
{
    match args.get(number) {
        Some(arg) => put_arg(out, source, places, number, arg),
        None => Ok(()),
    }
}

// The same, if a number is told.
fn put_argument(
    out: &mut Vec<u8>,
    source: &[u8],
    places: &[Pos],
    args: &[LoopArg],
    number: Option<usize>,
) -> Result<(), OutOfMemory>
    ensures { OnOk result (out.new.items ≡ out.old.items ++ shown_argument source.now places.now args.now number) }
{
    match number {
        Some(number) => put_arg_at(out, source, places, args, number),
        None => Ok(()),
    }
}

// The loop that gives a judgement, and the argument that is judged.
fn put_first(
    out: &mut Vec<u8>,
    source: &[u8],
    tokens: &[Token],
    places: &[Pos],
    judgement: Judgement,
    first: &First<'_>,
) -> Result<(), OutOfMemory>
    ensures { OnOk result (out.new.items ≡ out.old.items
        ++ shown source.now tokens.now places.now judgement (call_of first.now.call.now) first.now.kernel.now) }
{
    put_call(out, source, places, first.call)?;
    let number = parameter_at(tokens, first.kernel, judgement.at);
    put_argument(out, source, places, first.call.args, number)
}

// The text of a judgement, over a source that is read.
fn text_over(
    alloc: Global,
    source: &[u8],
    read: &Source,
    judgement: Judgement,
) -> Result<Vec<u8>, OutOfMemory>
    requires { IsResolvedProgram read.now.types }
    ensures { IfOk result (λ v. Tells source.now judgement read.now.tokens.items (program_of read.now.program) read.now.types v.items) }
{
    let mut out = Vec::new(alloc);
    let calls = calls_in(alloc, &read.program.main.body)?;
    if let Some(first) = first_giving(alloc, &read.types, &calls, judgement)? {
        let places = &read.program.places;
        put_first(&mut out, source, &read.tokens, places, judgement, &first)?;
    }
    Ok(out)
}

// The text of a judgement.
fn text_of(alloc: Global, source: &[u8], judgement: Judgement) -> Result<Vec<u8>, OutOfMemory>
    requires { length source.now + 2 < 2 ^ 32 }
    ensures { IfOk result (λ v. TellsOver source.now judgement v.items) }
{
    match source_of(alloc, source)? {
        Some(read) => text_over(alloc, source, &read, judgement),
        None => Ok(Vec::new(alloc)),
    }
}

/// Which loop and which argument a refused access is about: the first loop in the source whose arguments make its
/// kernel break that rule at that place, with its line of the source, and the argument that it gives the parameter
/// there, by its number from 1, with its line.
///
/// `source` has the bytes of the source, fewer than 2^32 - 2, and `line` what `op2` answers to it. Nothing is said of a
/// line that tells of no access. An error is want of memory.
pub fn text_of_access(alloc: Global, source: &[u8], line: &[u8]) -> Result<Vec<u8>, OutOfMemory>
    requires { length source.now + 2 < 2 ^ 32 }
    ensures { IfOk result (λ v. IsTold source.now (judgement_in line.now) v.items) }
{
    match judgement_in(line) {
        Some(judgement) => text_of(alloc, source, judgement),
        None => Ok(Vec::new(alloc)),
    }
}
