// The reader of state files.
ghost use Rattle.std.specs.Prelude.{◌≡◌, ◌≤◌, ◌<◌, ◌+◌, ◌^◌, IfOk, IfErr, MatchOption, length, take, drop};
ghost use Rattle.bound_program.specs.Values.{bound_of};
ghost use Rattle.checkpoint.specs.Cut.{state_of};
ghost use Rattle.checkpoint.specs.Reading.{mark, IsSplit, HasNoMark, lines_in, Says, SaysNone, Refused};
ghost use Rattle.checkpoint.specs.Judged.{TextSays, TextSaysNone, behind as moved_behind, line_in};

use crate::State;
use crate::state_texts::dats::take_dats;
use crate::state_texts::lines::{take_end, take_item};
use crate::state_texts::refusals::StateRefusal;
use crate::state_texts::vars::take_vars;
use bound_program::Bound;
use memchr::memmem;
use op_num::texts::line_texts::Lines;
use std::alloc::Global;

// How a state begins, behind the line before it.
const MARK: [u8; 12] = *b"\nop2state 1\n";

// Where the last mark begins, the end of one line and the line `op2state 1`.
#[tactic(auto, using(crate::proofs::state_texts::Marks::mark_found))]
fn last_mark(bytes: &[u8]) -> Option<usize>
    ensures { MatchOption result (HasNoMark bytes.now)
        (λ at. (at + length mark ≤ length bytes.now) × IsSplit bytes.now (take at bytes.now) (drop (at + length mark) bytes.now)) }
{
    memmem::rfind(bytes, &MARK)
}

// How many lines end in these bytes.
fn count_lines(bytes: &[u8]) -> usize
    ensures count { result ≡ lines_in bytes.now }
    ensures few { result ≤ length bytes.now }
{
    bytes.iter().filter(|b| **b == b'\n').count()
}

// The refusal of a line that stands behind so many others.
fn behind(refusal: StateRefusal, lines: u64) -> StateRefusal
    requires { line_in refusal + lines < 2 ^ 64 }
    ensures { result ≡ moved_behind lines refusal }
{
    match refusal {
        StateRefusal::Header { line } => StateRefusal::Header { line: line + lines },
        StateRefusal::Item { line } => StateRefusal::Item { line: line + lines },
        StateRefusal::Shape { line } => StateRefusal::Shape { line: line + lines },
        StateRefusal::Value { line } => StateRefusal::Value { line: line + lines },
        StateRefusal::End { line } => StateRefusal::End { line: line + lines },
        StateRefusal::OutOfMemory => StateRefusal::OutOfMemory,
    }
}

// The state that the text behind the mark says. A refusal counts its lines from 1.
fn read_text(alloc: Global, text: &[u8], bound: &Bound) -> Result<State, StateRefusal>
    requires text { length text.now + 1 < 2 ^ 32 }
    requires items { length bound.now.trace.items < 2 ^ 32 }
    ensures says { IfOk result (λ s. TextSays (bound_of bound.now) text.now (state_of s)) }
    ensures refused { IfErr result (Refused (TextSaysNone (bound_of bound.now) text.now)) }
{
    let mut lines = Lines::new(text);
    let item = take_item(&mut lines, bound)?;
    let vars = take_vars(alloc, &mut lines, &bound.vars)?;
    let dats = take_dats(alloc, &mut lines, &bound.mesh)?;
    take_end(&mut lines)?;
    Ok(State { item, vars, dats })
}

/// The state that a state file tells of the program `bound`. Its text begins behind the last line `op2state 1` of the
/// file that isn't the first; what stands before was printed. `bytes` is the whole file, of fewer than 2^32 - 1 bytes,
/// so that 32 bits count its lines. The state has the shape of the program, which can be cut before its item, so that
/// `tail` goes on from it.
///
/// # Errors
/// The first line of the text that isn't the one awaited there, with its number in the file, from 1: `Header` (line 1)
/// where no text begins, else `Item`, `Shape`, `Value` or `End`. A line that is missing, or has no LF, is refused as
/// the one that is awaited there. It fails otherwise only for want of memory.
pub fn read_state(alloc: Global, bytes: &[u8], bound: &Bound) -> Result<State, StateRefusal>
    requires bytes { length bytes.now + 1 < 2 ^ 32 }
    requires items { length bound.now.trace.items < 2 ^ 32 }
    ensures says { IfOk result (λ s. Says (bound_of bound.now) bytes.now (state_of s)) }
    ensures refused { IfErr result (Refused (SaysNone (bound_of bound.now) bytes.now)) }
{
    let Some(at) = last_mark(bytes) else {
        return Err(StateRefusal::Header { line: 1 });
    };
    let (front, marked) = bytes.split_at(at);
    let (_, text) = marked.split_at(MARK.len());
    match read_text(alloc, text, bound) {
        Ok(state) => Ok(state),
        Err(refusal) => Err(behind(refusal, count_lines(front) as u64 + 2)),
    }
}
