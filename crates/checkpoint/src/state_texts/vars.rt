// The variables of a state text.
ghost use Rattle.std.specs.Prelude.{◌≡◌, ◌++◌, ℕ, map, IfOk, OnOk, length, codes};
ghost use Rattle.std.specs.List.{flat_map};
ghost use Rattle.bound_program.specs.Values.{BoundValue, var_of};
ghost use Rattle.checkpoint.specs.Cut.{starts};
ghost use Rattle.checkpoint.specs.Reading.{var_line, awaited_var, awaited_vars};
ghost use Rattle.checkpoint.specs.Judged.{JudgesAmong};

use crate::state_texts::lines::{take_exactly, take_values};
use crate::state_texts::refusals::StateRefusal;
use bound_program::Var;
use mesh_decl::Values;
use op_num::texts::line_texts::Lines;
use op_num::{OutOfMemory, put_u64};
use std::alloc::Global;

// Writes the line of a variable of this number with so many cells, without its LF.
fn write_var_line(text: &mut Vec<u8>, number: u64, count: usize) -> Result<(), OutOfMemory>
    ensures { OnOk result (text.new.items ++ codes "\n" ≡ var_line number count) }
{
    text.clear();
    text.extend_from_slice(b"var ")?;
    put_u64(text, number)?;
    text.push(b' ')?;
    put_u64(text, count as u64)?;
    Ok(())
}

// Takes the line of a variable of this number with so many cells, and that of its values.
fn take_var(
    alloc: Global,
    text: &mut Vec<u8>,
    lines: &mut Lines,
    number: u64,
    count: usize,
) -> Result<Values, StateRefusal>
    ensures judged { (b : BoundValue) (k : ℕ) → JudgesAmong b k (awaited_var number count) lines.old lines.new (λ v. v) result }
    ensures count { IfOk result (λ v. length v ≡ count) }
{
    write_var_line(text, number, count)?;
    take_exactly(lines, text)?;
    let mut values = Vec::with_capacity(alloc, count)?;
    take_values(lines, count, &mut values)?;
    Ok(Values::new(values))
}

/// Takes the lines of the variables that aren't `const`, and gives their values in order.
pub fn take_vars(
    alloc: Global,
    lines: &mut Lines,
    vars: &[Var],
) -> Result<Vec<Values>, StateRefusal>
    ensures judged { (b : BoundValue) (k : ℕ) → JudgesAmong b k (awaited_vars 0 (starts (map var_of vars.now))) lines.old lines.new
        (λ v. flat_map (λ z. z) v.items) result }
    ensures shape { IfOk result (λ v. map length v.items ≡ map length (starts (map var_of vars.now))) }
{
    let mut text = Vec::new(alloc);
    let mut told = Vec::new(alloc);
    for var in vars {
        if !var.is_const {
            let count = var.start.as_slice().len();
            let values = take_var(alloc, &mut text, lines, told.len() as u64, count)?;
            told.push(values)?;
        }
    }
    Ok(told)
}
