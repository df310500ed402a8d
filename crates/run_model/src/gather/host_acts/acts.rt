// The statements of `main` that are no loop, on the cells of all variables.

ghost use Rattle.std.specs.Prelude.{◌≡◌, ◌<◌, ◌≤◌, ◌+◌, ◌⊎◌, [], ℕ, pos, List, length, map, option_map, slice_index_or, FitsSigned, IfOk};
ghost use Rattle.std.specs.Int.{w32};
ghost use Rattle.schedule_model.specs.Cells.{Store};
ghost use Rattle.schedule_model.specs.Sequential.{with_variables};
ghost use Rattle.kernel_model.specs.View.{rexpr_of};
ghost use Rattle.bound_program.specs.HostExpr.{value, closed};
ghost use Rattle.bound_program.specs.Values.{act_of, closed_act, told_act_of, Line};
ghost use Rattle.bound_program.specs.Fits.{ActFits};
ghost use Rattle.run_model.specs.Hosts.{variables_of, with_zeros, act_run};
ghost use Rattle.run_model.specs.Arguments.{var_width};
ghost use Rattle.run_model.specs.Memory.{Holds, memory_length, var_start};
ghost use Rattle.run_model.specs.Acts.{program_of, Begins, assignment_of, ActEnds, GivesValues, PrintsLine, values_in, component_in};
ghost use Rattle.run_model.specs.Acts.{new_value_in};

use crate::gather::print_line;
use bound_program::trace::{host_value, told_values_are_closed};
use bound_program::{Act, ToldAct, Var};
use kernel_model::operators::{index_of, stored_value};
use kernel_model::types::views::Place;
use kernel_model::types::{AssignOp, KernelFault, Pos, RExpr};
use op_num::{OutOfMemory, Text};
use std::alloc::Global;

/// All variables, and where each begins among the cells of all of them.
#[derive(Drop)]
pub struct Variables<'a> {
    pub vars: &'a [Var],
    pub starts: &'a [usize],
}

/// An assignment to a variable: the values of its told names; its index, where it is an array; the sign and its place;
/// the right side; the place of the variable's name.
#[derive(Drop)]
pub struct Assignment<'a> {
    pub told: &'a [i32],
    pub index: &'a Option<RExpr>,
    pub op: AssignOp,
    pub op_at: Pos,
    pub value: &'a RExpr,
    pub at: Pos,
}

// The cells of a variable.
fn var_place(all: &Variables<'_>, var: u32) -> Place
    requires begins { Begins all.now }
    requires var { var < length (program_of all.now).vars }
    ensures from { result.from ≡ var_start (program_of all.now) var }
    ensures count { result.count ≡ var_width (program_of all.now) var }
    ensures within { result.from + result.count ≤ memory_length (program_of all.now) }
{
    crate::memory_holds();
    Place {
        from: all.starts[var as usize],
        count: all.vars[var as usize].start.as_slice().len(),
    }
}

// Sets cells to 0, from a place on.
fn clear_cells(cells: &mut [i32], place: Place)
    requires { place.from + place.count ≤ length cells.old }
    ensures zeros { (i : ℕ) → i < place.count → slice_index_or cells.new (place.from + i) (pos 0) ≡ pos 0 }
    ensures others { (k : ℕ) → (k < place.from) ⊎ (place.from + place.count ≤ k)
        → slice_index_or cells.new k (pos 0) ≡ slice_index_or cells.old k (pos 0) }
{
    let from = place.from;
    let count = place.count;
    for i in 0..count {
        cells[from + i] = 0;
    }
}

// Sets the cells of a variable to 0.
fn clear(all: &Variables<'_>, var: u32, cells: &mut [i32])
    requires begins { Begins all.now }
    requires var { var < length (program_of all.now).vars }
    requires cells { length cells.old ≡ memory_length (program_of all.now) }
    ensures { (s : Store) → Holds (program_of all.now) cells.old s
        → Holds (program_of all.now) cells.new (with_variables (with_zeros var (variables_of s)) s) }
{
    crate::memory_holds();
    clear_cells(cells, var_place(all, var));
}

// The value of an expression whose told names have the values `told`.
fn value_of(e: &RExpr, told: &[i32], cells: &[i32]) -> Result<i32, KernelFault>
    ensures { result ≡ value [] cells.now (closed told.now (rexpr_of e.now)) }
{
    told_values_are_closed();
    host_value(e, told, cells)
}

// The component that an assignment stores to: a scalar's first.
fn component_of(
    told: &[i32],
    index: &Option<RExpr>,
    at: Pos,
    count: usize,
    cells: &[i32],
) -> Result<usize, KernelFault>
    ensures value { result ≡ component_in cells.now count at (option_map (closed told.now) (option_map rexpr_of index.now)) }
    ensures within { 0 < count → IfOk result (λ i. i < count) }
{
    match index {
        None => Ok(0),
        Some(e) => {
            let z = value_of(e, told, cells)?;
            index_of(count, at, z)
        }
    }
}

// The value of a cell, or 0 where there is none.
fn cell_at(cells: &[i32], place: usize) -> i32
    ensures { result ≡ slice_index_or cells.now place (pos 0) }
{
    if place < cells.len() { cells[place] } else { 0 }
}

// What an assignment stores in the cell at a place.
fn new_value(all: &Assignment<'_>, cells: &[i32], place: usize) -> Result<i32, KernelFault>
    ensures value { result ≡ new_value_in cells.now place all.now.op all.now.op_at (closed all.now.told.now (rexpr_of all.now.value.now)) }
    ensures range { IfOk result (FitsSigned w32) }
{
    let x = value_of(all.value, all.told, cells)?;
    stored_value(all.op, all.op_at, cell_at(cells, place), x)
}

// Assigns to a cell of a variable, up to the first fault.
fn assign(
    known: &Variables<'_>,
    var: u32,
    all: &Assignment<'_>,
    cells: &mut [i32],
) -> Result<(), KernelFault>
    requires begins { Begins known.now }
    requires var { var < length (program_of known.now).vars }
    requires some { 0 < var_width (program_of known.now) var }
    requires cells { length cells.old ≡ memory_length (program_of known.now) }
    ensures { (s : Store) (out : List ℕ) → Holds (program_of known.now) cells.old s
        → ActEnds (program_of known.now) cells.new s out out result
        (act_run (program_of known.now) s (assignment_of var all.now)) }
{
    crate::memory_holds();
    let place = var_place(known, var);
    let i = component_of(all.told, all.index, all.at, place.count, cells)?;
    let z = new_value(all, cells, place.from + i)?;
    cells[place.from + i] = z;
    Ok(())
}

// Puts the values of expressions behind each other, up to the first fault.
fn put_values(
    values: &mut Vec<i32>,
    told: &[i32],
    all: &[RExpr],
    cells: &[i32],
) -> Result<Result<(), KernelFault>, OutOfMemory>
    requires { values.old.items ≡ [] }
    ensures { IfOk result (λ r. GivesValues r values.new.items (values_in cells.now (map (closed told.now) (map rexpr_of all.now)))) }
{
    for e in all {
        match value_of(e, told, cells) {
            Ok(z) => values.push(z)?,
            Err(fault) => return Ok(Err(fault)),
        }
    }
    Ok(Ok(()))
}

// Prints a text with its values, up to the first fault.
fn put_line(
    alloc: Global,
    text: &Text,
    told: &[i32],
    all: &[RExpr],
    cells: &[i32],
    out: &mut Vec<u8>,
) -> Result<Result<(), KernelFault>, OutOfMemory>
    ensures { IfOk result (λ r. PrintsLine text.now out.old.items out.new.items r
        (values_in cells.now (map (closed told.now) (map rexpr_of all.now)))) }
{
    let mut values = Vec::new(alloc);
    if let Err(fault) = put_values(&mut values, told, all, cells)? {
        return Ok(Err(fault));
    }
    print_line(out, text, &values)?;
    Ok(Ok(()))
}

// Prints a text with values of the variables.
fn put_text(
    alloc: Global,
    known: &Variables<'_>,
    text: &Text,
    told: &[i32],
    all: &[RExpr],
    cells: &[i32],
    out: &mut Vec<u8>,
) -> Result<Result<(), KernelFault>, OutOfMemory>
    ensures { IfOk result (λ r. (s : Store) → Holds (program_of known.now) cells.now s
        → ActEnds (program_of known.now) cells.now s out.old.items out.new.items r
        (act_run (program_of known.now) s (Line text.now (map (closed told.now) (map rexpr_of all.now))))) }
{
    crate::memory_holds();
    put_line(alloc, text, told, all, cells, out)
}

// Does what a statement does whose told names have the values `told`.
fn run_closed(
    alloc: Global,
    known: &Variables<'_>,
    act: &Act,
    told: &[i32],
    cells: &mut [i32],
    out: &mut Vec<u8>,
) -> Result<Result<(), KernelFault>, OutOfMemory>
    requires begins { Begins known.now }
    requires fits { ActFits (program_of known.now) (closed_act told.now (act_of act.now)) }
    requires cells { length cells.old ≡ memory_length (program_of known.now) }
    ensures { IfOk result (λ r. (s : Store) → Holds (program_of known.now) cells.old s
        → ActEnds (program_of known.now) cells.new s out.old.items out.new.items r
        (act_run (program_of known.now) s (closed_act told.now (act_of act.now)))) }
{
    match act {
        Act::Clear { var } => {
            clear(known, *var, cells);
            Ok(Ok(()))
        }
        Act::Assign {
            var,
            index,
            op,
            op_at,
            value,
            at,
        } => {
            let all = Assignment {
                told,
                index,
                op: *op,
                op_at: *op_at,
                value,
                at: *at,
            };
            Ok(assign(known, *var, &all, cells))
        }
        Act::Line { text, values } => put_text(alloc, known, text, told, values, cells, out),
        Act::Print { .. } => unreachable!(),
        Act::Exit => Ok(Ok(())),
    }
}

/// Does what a statement of `main` does that prints no dat, up to its first fault: an assignment that faults stores
/// nothing, and a line whose values have a fault prints nothing.
///
/// `cells` are the cells of all variables, one variable after another; what is printed goes behind `out`.
///
/// # Errors
/// Want of memory alone; a fault is in the answer.
pub fn run_act(
    alloc: Global,
    known: &Variables<'_>,
    act: &ToldAct,
    cells: &mut [i32],
    out: &mut Vec<u8>,
) -> Result<Result<(), KernelFault>, OutOfMemory>
    requires begins { Begins known.now }
    requires fits { ActFits (program_of known.now) (told_act_of act.now) }
    requires cells { length cells.old ≡ memory_length (program_of known.now) }
    ensures { IfOk result (λ r. (s : Store) → Holds (program_of known.now) cells.old s
        → ActEnds (program_of known.now) cells.new s out.old.items out.new.items r
        (act_run (program_of known.now) s (told_act_of act.now))) }
{
    run_closed(alloc, known, &act.act, &act.told, cells, out)
}
