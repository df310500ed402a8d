// Which cells the indices of a kernel's arguments name.

ghost use Rattle.std.specs.Prelude.{◌≡◌, ℕ, ◌||◌, nat_eq};
ghost use Rattle.access_check.specs.Indices.{names_of, expr_names, stmt_names};

use kernel_model::types::{RExpr, RStmt};

/// Whether the table says that an index names the cell.
pub fn is_named(named: &[bool], cell: u32) -> bool
    ensures { result ≡ names_of named.now cell }
{
    match named.get(cell as usize) {
        Some(is_named) => *is_named,
        None => true,
    }
}

// Notes one cell, where the table has it.
fn note_cell(named: &mut [bool], cell: u32)
    ensures { (k : ℕ) → names_of named.new k ≡ (nat_eq cell k || names_of named.old k) }
{
    if (cell as usize) < named.len() {
        named[cell as usize] = true;
    }
}

// Notes the cells that static indices in an expression name, and those that it names itself where it is such an index.
// A chain of operators, each the left operand of the one before it, is gone along by a loop.
#[cycle(notes)]
#[tactic(auto, using(lemmas::proofs::Truth::or_assoc))]
fn note_names(e: &RExpr, is_index: bool, named: &mut [bool])
    ensures { (k : ℕ) → names_of named.new k ≡ (expr_names is_index e.now k || names_of named.old k) }
{
    let mut rest = e;
    let mut of_index = is_index;
    loop {
        match rest {
            RExpr::Number(_) | RExpr::Constant(_) => return,
            RExpr::Scalar(cell) => {
                if of_index {
                    note_cell(named, *cell);
                }
                return;
            }
            RExpr::Arg { index, .. } => {
                of_index = true;
                rest = index;
            }
            RExpr::Local { index, .. } => {
                of_index = false;
                rest = index;
            }
            RExpr::Const { index, .. } => {
                of_index = false;
                rest = index;
            }
            RExpr::Unary { operand, .. } => rest = operand,
            RExpr::Binary { left, right, .. } => {
                note_names(right, of_index, named);
                rest = left;
            }
            RExpr::Choice {
                condition,
                if_true,
                if_false,
            } => {
                note_names(if_false, false, named);
                note_names(if_true, false, named);
                of_index = false;
                rest = condition;
            }
            RExpr::Paren(inner) => rest = inner,
            RExpr::Extremum { first, second, .. } => {
                note_names(second, false, named);
                of_index = false;
                rest = first;
            }
            RExpr::Absolute(operand) => {
                of_index = false;
                rest = operand;
            }
        }
    }
}

/// Notes the cells that static indices in a statement name.
#[cycle(statements)]
#[tactic(auto, using(lemmas::proofs::Truth::or_assoc))]
pub fn note_indices(st: &RStmt, named: &mut [bool])
    ensures { (k : ℕ) → names_of named.new k ≡ (stmt_names st.now k || names_of named.old k) }
{
    match st {
        RStmt::Block(all) => {
            for inner in all {
                note_indices(inner, named);
            }
        }
        RStmt::Declare { .. } => {}
        RStmt::SetScalar { value, .. } => note_names(value, false, named),
        RStmt::SetLocal { index, value, .. } => {
            note_names(value, false, named);
            note_names(index, false, named);
        }
        RStmt::SetArg { index, value, .. } => {
            note_names(value, false, named);
            note_names(index, true, named);
        }
        RStmt::If {
            condition,
            then,
            otherwise,
        } => {
            note_indices(otherwise, named);
            note_indices(then, named);
            note_names(condition, false, named);
        }
        RStmt::For { body, .. } => note_indices(body, named),
    }
}
