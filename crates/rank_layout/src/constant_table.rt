// The cells of the constants among the cells of all variables.

ghost use Rattle.std.specs.Prelude.{◌≡◌, ◌+◌, ◌^◌, ◌<◌, ◌≤◌, IfOk, IfSome, length, map, sum_by};
ghost use Rattle.bound_program.specs.Values.{bound_of, var_of};
ghost use Rattle.bound_program.specs.Fits.{ConstantsFit, constant_cells};
ghost use Rattle.run_model.specs.Variables.{VarsBegin};
ghost use Rattle.run_model.specs.Hosts.{variable_cells};
ghost use Rattle.run_model.specs.Kernels.{constants};
ghost use Rattle.bound_plan.specs.Variables.{variable_index};
ghost use Rattle.rank_layout.specs.Constants.{NumberedFrom};

use bound_program::{Bound, Var};
use op_num::OutOfMemory;
use std::alloc::Global;

// As many zeros as there are constants.
fn zeros(alloc: Global, vars: &[Var]) -> Result<Vec<usize>, OutOfMemory>
    ensures { IfOk result (λ v. length v.items ≡ sum_by constant_cells (map var_of vars.now)) }
{
    let mut table = Vec::new(alloc);
    for var in vars {
        if var.constant.is_some() {
            table.resize(table.len() + var.start.as_slice().len(), 0)?;
        }
    }
    Ok(table)
}

// The cells of a variable that begins there go to its constants, if it has some.
fn put_constants(var: &Var, start: usize, table: &mut [usize])
    requires start { start + length var.now.start < 2 ^ 64 }
    requires table { IfSome var.now.constant (λ first. first + length var.now.start ≤ length table.old) }
    ensures { NumberedFrom var.now.constant (length var.now.start) start table.old table.new }
{
    if let Some(first) = var.constant {
        let count = var.start.as_slice().len();
        for i in 0..count {
            table[first as usize + i] = start + i;
        }
    }
}

// The cells of all variables go to their constants.
fn put_all(bound: &Bound, starts: &[usize], table: &mut [usize])
    requires fit { ConstantsFit (bound_of bound.now) }
    requires starts { VarsBegin (bound_of bound.now).vars starts.now }
    requires few { length (variable_cells (bound_of bound.now)) < 2 ^ 64 }
    requires table { length table.old ≡ length (constants (bound_of bound.now)) }
    ensures { table.new ≡ map (variable_index (bound_of bound.now)) (constants (bound_of bound.now)) }
{
    run_model::constants_are_read();
    for (v, var) in bound.vars.iter().enumerate() {
        put_constants(var, starts[v], table);
    }
}

/// By the number that kernels give a constant, its cell's number among the cells of all variables; `starts` says where
/// each variable begins among these.
///
/// # Errors
/// Want of memory alone.
pub fn constant_table(
    alloc: Global,
    bound: &Bound,
    starts: &[usize],
) -> Result<Vec<usize>, OutOfMemory>
    requires fit { ConstantsFit (bound_of bound.now) }
    requires starts { VarsBegin (bound_of bound.now).vars starts.now }
    requires few { length (variable_cells (bound_of bound.now)) < 2 ^ 64 }
    ensures { IfOk result (λ v. v.items ≡ map (variable_index (bound_of bound.now)) (constants (bound_of bound.now))) }
{
    run_model::constants_are_read();
    let mut table = zeros(alloc, &bound.vars)?;
    put_all(bound, starts, &mut table);
    Ok(table)
}
