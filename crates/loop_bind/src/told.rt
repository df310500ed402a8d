// The `const` variables of blocks start with the values that were told to them.

ghost use Rattle.std.specs.Prelude.{◌≡◌, ◌∷◌, [], map, IfOk, OnOk};
ghost use Rattle.bound_program.specs.Values.{var_of};
ghost use Rattle.bound_program.specs.Unrolling.{told_of};
ghost use Rattle.loop_bind.specs.Weights.{started, with_told};

use bound_program::Var;
use bound_program::trace::Told;
use mesh_decl::Values;
use op_num::OutOfMemory;
use std::alloc::Global;

// One cell.
fn one_cell(alloc: Global, value: i32) -> Result<Values, OutOfMemory>
    ensures { IfOk result (λ zs. zs ≡ value ∷ []) }
{
    let mut cells = Vec::new(alloc);
    cells.push(value)?;
    Ok(Values::new(cells))
}

// The variable of that number starts with the value, which is in this cell.
#[tactic(auto, using(crate::proofs::Started::started_set, crate::proofs::Started::started_past))]
fn set_start(vars: &mut Vec<Var>, told: Told, cell: Values)
    requires { cell ≡ told.value ∷ [] }
    ensures { map var_of vars.new.items ≡ started told.var told.value (map var_of vars.old.items) }
{
    let var = told.var as usize;
    if var < vars.len() {
        vars[var].start = cell;
    }
}

// The variable of that number starts with the value.
fn start(alloc: Global, vars: &mut Vec<Var>, told: Told) -> Result<(), OutOfMemory>
    ensures { OnOk result (map var_of vars.new.items ≡ started told.var told.value (map var_of vars.old.items)) }
{
    let cell = one_cell(alloc, told.value)?;
    set_start(vars, told, cell);
    Ok(())
}

/// Lays the values that were told into the variables.
pub fn with_told(alloc: Global, values: &[Told], vars: &mut Vec<Var>) -> Result<(), OutOfMemory>
    ensures { OnOk result (map var_of vars.new.items ≡ with_told (map told_of values.now) (map var_of vars.old.items)) }
{
    for told in values {
        start(alloc, vars, *told)?;
    }
    Ok(())
}
