// The cells of variables that loops read, and those into which they reduce, with their slots.

ghost use Rattle.std.specs.Prelude.{◌≡◌, ℕ, ◌+◌, ◌^◌, ◌<◌, ◌++◌, [], OnOk, IfOk, length, map};
ghost use Rattle.bound_program.specs.Values.{bound_of};
ghost use Rattle.bound_program.specs.Fits.{Fits};
ghost use Rattle.run_model.specs.Variables.{VarsBegin};
ghost use Rattle.run_model.specs.Hosts.{variable_cells};
ghost use Rattle.run_model.specs.Windows.{numbers};
ghost use Rattle.rank_state.specs.declared.scalars.Scalar.TheVariants.{Value, Amount};
ghost use Rattle.rank_state.specs.Windows.{index};
ghost use Rattle.rank_layout.specs.Tables.{slots as slots_of};
ghost use Rattle.rank_layout.specs.Numbered.{ArgNamed};
ghost use Rattle.rank_layout.specs.Made.{row_of, AreSiteScalars};
ghost use Rattle.rank_layout.specs.Scalars.{is_on, names, operation_by, cell_scalars, cell_operations, new_scalars, new_operations};
ghost use Rattle.rank_layout.specs.Scalars.{AreOperations, slots_before};

use crate::sites::args_of;
use bound_program::{Access, Arg, Bound};
use op_num::OutOfMemory;
use rank_state::{Operation, Scalar};
use std::alloc::Global;

// How a loop merges amounts by an access, if it does.
fn operation_of(access: Access) -> Option<Operation>
    ensures { result ≡ operation_by access }
{
    match access {
        Access::Inc => Some(Operation::Sum),
        Access::Min => Some(Operation::Least),
        Access::Max => Some(Operation::Greatest),
        _ => None,
    }
}

// Whether an argument is on the variable.
fn is_on(var: u32, arg: Arg) -> bool
    ensures { result ≡ is_on var arg }
{
    match arg {
        Arg::Dat { .. } => false,
        Arg::Global { var: other, .. } => other == var,
    }
}

// Whether one of the arguments is on the variable.
fn is_named(var: u32, args: &[Arg]) -> bool
    ensures { result ≡ names var args.now }
{
    for arg in args {
        if is_on(var, *arg) {
            return true;
        }
    }
    false
}

// Cells that are read.
fn push_values(from: usize, count: usize, scalars: &mut Vec<Scalar>) -> Result<(), OutOfMemory>
    requires { from + count < 2 ^ 64 }
    ensures { OnOk result (scalars.new.items ≡ scalars.old.items ++ map (λ i. Value (from + i)) (numbers count)) }
{
    for i in 0..count {
        scalars.push(Scalar::Value { at: from + i })?;
    }
    Ok(())
}

// Cells into which amounts are merged, with the slots that come next.
fn push_amounts(
    how: Operation,
    from: usize,
    count: usize,
    slots: &mut Vec<Operation>,
    scalars: &mut Vec<Scalar>,
) -> Result<(), OutOfMemory>
    requires { from + count < 2 ^ 64 }
    ensures slots { OnOk result (slots.new.items ≡ slots.old.items ++ map (λ i. how) (numbers count)) }
    ensures scalars { OnOk result (scalars.new.items
        ≡ scalars.old.items ++ map (λ i. Amount (from + i) (length slots.old.items + i) how) (numbers count)) }
{
    for i in 0..count {
        scalars.push(Scalar::Amount {
            at: from + i,
            slot: slots.len(),
            how,
        })?;
        slots.push(how)?;
    }
    Ok(())
}

// The cells of a variable, with the slots that come next where amounts are merged into them.
fn push_cells(
    how: Option<Operation>,
    from: usize,
    count: usize,
    slots: &mut Vec<Operation>,
    scalars: &mut Vec<Scalar>,
) -> Result<(), OutOfMemory>
    requires { from + count < 2 ^ 64 }
    ensures slots { OnOk result (slots.new.items ≡ slots.old.items ++ cell_operations how count) }
    ensures scalars { OnOk result (scalars.new.items
        ≡ scalars.old.items ++ cell_scalars how from (length slots.old.items) count) }
{
    match how {
        None => push_values(from, count, scalars),
        Some(how) => push_amounts(how, from, count, slots, scalars),
    }
}

// The cells of an argument's variable, unless an earlier argument is on it.
fn push_argument(
    bound: &Bound,
    starts: &[usize],
    earlier: &[Arg],
    arg: Arg,
    slots: &mut Vec<Operation>,
    scalars: &mut Vec<Scalar>,
) -> Result<(), OutOfMemory>
    requires named { ArgNamed (bound_of bound.now) arg }
    requires starts { VarsBegin (bound_of bound.now).vars starts.now }
    requires few { length (variable_cells (bound_of bound.now)) < 2 ^ 64 }
    ensures slots { OnOk result (slots.new.items ≡ slots.old.items ++ new_operations (bound_of bound.now) earlier.now arg) }
    ensures scalars { OnOk result (scalars.new.items
        ≡ scalars.old.items ++ new_scalars (bound_of bound.now) (length slots.old.items) earlier.now arg) }
{
    match arg {
        Arg::Dat { .. } => Ok(()),
        Arg::Global { var, access } => {
            if is_named(var, earlier) {
                return Ok(());
            }
            let count = bound.vars[var as usize].start.as_slice().len();
            push_cells(
                operation_of(access),
                starts[var as usize],
                count,
                slots,
                scalars,
            )
        }
    }
}

// The cells of a loop's arguments on variables, each once, with the slots that come next.
fn site_scalars(
    alloc: Global,
    bound: &Bound,
    site: usize,
    starts: &[usize],
    slots: &mut Vec<Operation>,
) -> Result<Vec<Scalar>, OutOfMemory>
    requires fits { Fits (bound_of bound.now) }
    requires site { site < length (bound_of bound.now).sites }
    requires starts { VarsBegin (bound_of bound.now).vars starts.now }
    requires few { length (variable_cells (bound_of bound.now)) < 2 ^ 64 }
    requires slots { AreOperations (slots_before (bound_of bound.now) site) slots.old.items }
    ensures slots { OnOk result (AreOperations (slots_before (bound_of bound.now) (site + 1)) slots.new.items) }
    ensures scalars { IfOk result (λ v. AreSiteScalars (bound_of bound.now) site v.items) }
{
    bound_plan::frames_have_cells();
    let args = args_of(bound, site);
    let mut scalars = Vec::new(alloc);
    for i in 0..args.len() {
        push_argument(bound, starts, &args[..i], args[i], slots, &mut scalars)?;
    }
    Ok(scalars)
}

/// By loop, the cells of its arguments on variables, each once; `slots` is lent empty, and gets how each slot is
/// merged. `starts` says where each variable begins among the cells of all.
///
/// # Errors
/// Want of memory alone.
pub fn loop_scalars(
    alloc: Global,
    bound: &Bound,
    starts: &[usize],
    slots: &mut Vec<Operation>,
) -> Result<Vec<Vec<Scalar>>, OutOfMemory>
    requires fits { Fits (bound_of bound.now) }
    requires starts { VarsBegin (bound_of bound.now).vars starts.now }
    requires few { length (variable_cells (bound_of bound.now)) < 2 ^ 64 }
    requires empty { slots.old.items ≡ [] }
    ensures slots { OnOk result (AreOperations (slots_of (bound_of bound.now)) slots.new.items) }
    ensures count { IfOk result (λ v. length v.items ≡ length (bound_of bound.now).sites) }
    ensures scalars { IfOk result (λ v. (s : ℕ) → s < length (bound_of bound.now).sites
        → AreSiteScalars (bound_of bound.now) s (row_of v.items s)) }
{
    let mut scalars = Vec::with_capacity(alloc, bound.sites.len())?;
    for site in 0..bound.sites.len() {
        scalars.push(site_scalars(alloc, bound, site, starts, slots)?)?;
    }
    Ok(scalars)
}

// The number of a scalar's cell.
fn index_of(scalar: Scalar) -> usize
    ensures { result ≡ index scalar }
{
    match scalar {
        Scalar::Value { at } => at,
        Scalar::Amount { at, .. } => at,
    }
}

// The numbers of the scalars' cells.
fn indices_of(alloc: Global, scalars: &[Scalar]) -> Result<Vec<usize>, OutOfMemory>
    ensures { IfOk result (λ v. v.items ≡ map index scalars.now) }
{
    let mut indices = Vec::with_capacity(alloc, scalars.len())?;
    for scalar in scalars {
        indices.push(index_of(*scalar))?;
    }
    Ok(indices)
}

/// By loop, the numbers of its scalars' cells.
///
/// # Errors
/// Want of memory alone.
pub fn loop_indices(alloc: Global, scalars: &[Vec<Scalar>]) -> Result<Vec<Vec<usize>>, OutOfMemory>
    ensures count { IfOk result (λ v. length v.items ≡ length scalars.now) }
    ensures indices { IfOk result (λ v. (s : ℕ) → s < length scalars.now → row_of v.items s ≡ map index (row_of scalars.now s)) }
{
    let mut indices = Vec::with_capacity(alloc, scalars.len())?;
    for list in scalars {
        indices.push(indices_of(alloc, list)?)?;
    }
    Ok(indices)
}
