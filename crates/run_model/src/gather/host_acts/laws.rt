// What the cells of all variables hold.

ghost use Rattle.run_model.specs.Variables.{VariablesHold, CellsAreHeld};

/// A law: the values of all variables in a store, one variable after another, hold that store; and a list that holds a
/// store is those values.
pub fn variables_hold()
    ensures hold { VariablesHold }
    ensures are { CellsAreHeld }
{
    crate::memory_holds();
}
