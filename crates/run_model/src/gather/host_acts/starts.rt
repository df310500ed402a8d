// Where variables begin.

ghost use Rattle.std.specs.Prelude.{◌<◌, ◌^◌, IfOk, map};
ghost use Rattle.bound_program.specs.Values.{var_of};
ghost use Rattle.run_model.specs.Memory.{memory_length};
ghost use Rattle.run_model.specs.Variables.{of_vars, VarsBegin};

use bound_program::Var;
use op_num::OutOfMemory;
use std::alloc::Global;

/// Where each variable begins among the cells of all of them, whose number is below 2^64.
///
/// # Errors
/// Want of memory alone.
pub fn variable_starts(alloc: Global, vars: &[Var]) -> Result<Vec<usize>, OutOfMemory>
    requires { memory_length (of_vars (map var_of vars.now)) < 2 ^ 64 }
    ensures { IfOk result (λ v. VarsBegin (map var_of vars.now) v.items) }
{
    crate::memory_holds();
    let mut starts = Vec::with_capacity(alloc, vars.len())?;
    let mut next = 0;
    for var in vars {
        starts.push(next)?;
        next += var.start.as_slice().len();
    }
    Ok(starts)
}
