// Lines of a state text, each judged as the one that is awaited.
ghost use Rattle.std.specs.Prelude.{◌≡◌, ◌<◌, ◌++◌, ◌^◌, ℕ, [], ◌∷◌, IfOk, IfSome, OnOk, MatchOption, MatchResult, length, codes};
ghost use Rattle.std.specs.Fmt.{decimal};
ghost use Rattle.bound_program.specs.Values.{BoundValue, bound_of};
ghost use Rattle.checkpoint.specs.Reading.{Item as ItemLine, Exactly, Values as ValuesLine, Done};
ghost use Rattle.checkpoint.specs.Judged.{FitsAmong, RefusesAmong, JudgesAmong, PushJudges, ToldIs};

use crate::can_cut;
use crate::state_texts::refusals::StateRefusal;
use bound_program::Bound;
use itoa::Buffer;
use op_num::texts::line_texts::{Lines, Words};
use op_num::{OutOfMemory, read_i32, read_u64};

/// Takes the next line where it is this one, which is given without its LF.
pub fn take_exactly(lines: &mut Lines, line: &[u8]) -> Result<(), StateRefusal>
    ensures { (b : BoundValue) (k : ℕ)
        → JudgesAmong b k (Exactly (line.now ++ codes "\n") ∷ []) lines.old lines.new (λ _. []) result }
{
    let number = u64::from(lines.taken()) + 1;
    let Some(next) = lines.next() else {
        return Err(StateRefusal::Shape { line: number });
    };
    if next != line {
        return Err(StateRefusal::Shape { line: number });
    }
    Ok(())
}

// Appends the values that a line spells, so many between single spaces, and says whether it spells that.
fn told_values(line: &[u8], count: usize, values: &mut Vec<i32>) -> Result<bool, OutOfMemory>
    ensures { IfOk result (ToldIs line.now count values.old.items values.new.items) }
{
    if count == 0 {
        return Ok(line.is_empty());
    }
    let mut words = Words::new(line);
    for _told in 0..count {
        let Some(word) = words.next() else {
            return Ok(false);
        };
        let Ok(value) = read_i32(word) else {
            return Ok(false);
        };
        values.push(value)?;
    }
    Ok(words.next().is_none())
}

/// Takes a line of so many values, and appends them.
pub fn take_values(
    lines: &mut Lines,
    count: usize,
    values: &mut Vec<i32>,
) -> Result<(), StateRefusal>
    ensures { (b : BoundValue) (k : ℕ)
        → PushJudges b k (ValuesLine count ∷ []) lines.old lines.new values.old.items values.new.items result }
{
    let number = u64::from(lines.taken()) + 1;
    let Some(line) = lines.next() else {
        return Err(StateRefusal::Value { line: number });
    };
    if !told_values(line, count, values)? {
        return Err(StateRefusal::Value { line: number });
    }
    Ok(())
}

// The number in a line `item K`, in digits without leading zeros.
fn told_item(line: &[u8]) -> Option<u32>
    ensures item { MatchOption result ((k : ℕ) → k < 2 ^ 32 → line.now ≡ codes "item " ++ decimal k → ⊥)
        (λ k. line.now ≡ codes "item " ++ decimal k) }
    ensures small { IfSome result (λ k. k < 2 ^ 32) }
{
    op_num::number_is_read();
    let digits = line.strip_prefix(b"item ")?;
    let item = match read_u64(digits) {
        Ok(number) if number <= u32::MAX as u64 => number as u32,
        _ => return None,
    };
    let mut buffer = Buffer::new();
    if buffer.format(item).as_bytes() != digits {
        return None;
    }
    Some(item)
}

/// Takes the line of the item before which the program was cut, and gives its number.
pub fn take_item(lines: &mut Lines, bound: &Bound) -> Result<u32, StateRefusal>
    requires { length bound.now.trace.items < 2 ^ 32 }
    ensures { MatchResult result
        (λ k. FitsAmong (bound_of bound.now) k (ItemLine ∷ []) lines.old lines.new [])
        (λ e. (k : ℕ) → RefusesAmong (bound_of bound.now) k (ItemLine ∷ []) lines.old e) }
{
    op_num::number_is_read();
    let number = u64::from(lines.taken()) + 1;
    let Some(line) = lines.next() else {
        return Err(StateRefusal::Item { line: number });
    };
    let Some(item) = told_item(line) else {
        return Err(StateRefusal::Item { line: number });
    };
    if !can_cut(bound, item) {
        return Err(StateRefusal::Item { line: number });
    }
    Ok(item)
}

/// Takes the last line, behind which nothing stands.
pub fn take_end(lines: &mut Lines) -> Result<(), StateRefusal>
    ensures judged { (b : BoundValue) (k : ℕ) → JudgesAmong b k (Done ∷ []) lines.old lines.new (λ _. []) result }
    ensures rest { OnOk result (lines.new.rest ≡ []) }
{
    let number = u64::from(lines.taken()) + 1;
    if !lines.take(b"done\n") {
        return Err(StateRefusal::End { line: number });
    }
    if !lines.rest().is_empty() {
        return Err(StateRefusal::End { line: number });
    }
    Ok(())
}
