// Whether a kernel is what every resolved kernel is.

ghost use Rattle.std.specs.Prelude.{◌≡◌, ◌≢◌, ◌+◌, ◌≤◌, ◌↔◌, IsTrue};
ghost use Rattle.kernel_model.specs.Resolved.{CountersKept, ExprWithin, IsFormOf, IsResolved, MissesCell, StmtWithin, StoresOnly};

use crate::types::expressions::{ElementForm, RExpr};
use crate::types::kernels::RKernel;
use crate::types::statements::RStmt;

/// Whether a kernel is resolved, where the constants have `consts` cells in all: each parameter, cell of a local and
/// cell of a constant that it names is there, the index of `*p` is the number 0, no statement in the body of a `for`
/// stores to the cell of its counter, and each parameter has its place.
pub fn is_resolved(kernel: &RKernel, consts: usize) -> bool
    ensures { IsTrue result ↔ IsResolved consts kernel.now }
{
    let statement = &kernel.body.statement;
    kernel.body.param_places.len() == kernel.params as usize
        && is_within(statement, kernel.params, kernel.scratch, consts)
        && keeps_counters(statement)
}

fn are_cells(from: u32, count: u32, all: usize) -> bool
    ensures { IsTrue result ↔ (from + count ≤ all) }
{
    from as usize + count as usize <= all
}

fn has_form(form: ElementForm, index: &RExpr) -> bool
    ensures { IsTrue result ↔ IsFormOf form index.now }
{
    match form {
        ElementForm::Index => true,
        ElementForm::Deref => matches!(index, RExpr::Number(0)),
    }
}

fn is_expr_within(e: &RExpr, params: u32, scratch: u32, consts: usize) -> bool
    ensures { IsTrue result ↔ ExprWithin params scratch consts e.now }
{
    match e {
        RExpr::Number(n) => {
            let _number = *n;
            true
        }
        RExpr::Scalar(k) => *k < scratch,
        RExpr::Constant(k) => (*k as usize) < consts,
        RExpr::Arg {
            param,
            form,
            index,
            ..
        } => {
            *param < params
                && has_form(*form, index)
                && is_expr_within(index, params, scratch, consts)
        }
        RExpr::Local {
            from,
            count,
            form,
            index,
            ..
        } => {
            are_cells(*from, *count, scratch as usize)
                && has_form(*form, index)
                && is_expr_within(index, params, scratch, consts)
        }
        RExpr::Const {
            from,
            count,
            form,
            index,
            ..
        } => {
            are_cells(*from, *count, consts)
                && has_form(*form, index)
                && is_expr_within(index, params, scratch, consts)
        }
        RExpr::Unary { operand, .. } => is_expr_within(operand, params, scratch, consts),
        RExpr::Binary { left, right, .. } => {
            is_expr_within(left, params, scratch, consts)
                && is_expr_within(right, params, scratch, consts)
        }
        RExpr::Choice {
            condition,
            if_true,
            if_false,
        } => {
            is_expr_within(condition, params, scratch, consts)
                && is_expr_within(if_true, params, scratch, consts)
                && is_expr_within(if_false, params, scratch, consts)
        }
        RExpr::Paren(inner) => is_expr_within(inner, params, scratch, consts),
        RExpr::Extremum { first, second, .. } => {
            is_expr_within(first, params, scratch, consts)
                && is_expr_within(second, params, scratch, consts)
        }
        RExpr::Absolute(operand) => is_expr_within(operand, params, scratch, consts),
    }
}

fn is_within(st: &RStmt, params: u32, scratch: u32, consts: usize) -> bool
    ensures { IsTrue result ↔ StmtWithin params scratch consts st.now }
{
    match st {
        RStmt::Block(all) => {
            for inner in all {
                if !is_within(inner, params, scratch, consts) {
                    return false;
                }
            }
            true
        }
        RStmt::Declare { from, count } => are_cells(*from, *count, scratch as usize),
        RStmt::SetScalar { cell, value, .. } => {
            *cell < scratch && is_expr_within(value, params, scratch, consts)
        }
        RStmt::SetLocal {
            from,
            count,
            form,
            index,
            value,
            ..
        } => {
            are_cells(*from, *count, scratch as usize)
                && has_form(*form, index)
                && is_expr_within(index, params, scratch, consts)
                && is_expr_within(value, params, scratch, consts)
        }
        RStmt::SetArg {
            param,
            form,
            index,
            value,
            ..
        } => {
            *param < params
                && has_form(*form, index)
                && is_expr_within(index, params, scratch, consts)
                && is_expr_within(value, params, scratch, consts)
        }
        RStmt::If {
            condition,
            then,
            otherwise,
        } => {
            is_expr_within(condition, params, scratch, consts)
                && is_within(then, params, scratch, consts)
                && is_within(otherwise, params, scratch, consts)
        }
        RStmt::For {
            counter,
            past,
            body,
            ..
        } => {
            *counter < scratch && *past < 0x8000_0000 && is_within(body, params, scratch, consts)
        }
    }
}

// Whether the cell isn't among those that are stored to.
fn misses_cells(from: u32, count: u32, cell: u32) -> bool
    ensures { IsTrue result ↔ MissesCell cell from count }
{
    cell < from || cell - from >= count
}

// Whether no statement stores to that cell of the locals.
fn misses(st: &RStmt, cell: u32) -> bool
    ensures { IsTrue result ↔ StoresOnly (λ j. j ≢ cell) st.now }
{
    match st {
        RStmt::Block(all) => {
            for inner in all {
                if !misses(inner, cell) {
                    return false;
                }
            }
            true
        }
        RStmt::Declare { from, count } => misses_cells(*from, *count, cell),
        RStmt::SetScalar { cell: stored, .. } => *stored != cell,
        RStmt::SetLocal { from, count, .. } => misses_cells(*from, *count, cell),
        RStmt::SetArg { .. } => true,
        RStmt::If {
            then,
            otherwise,
            ..
        } => misses(then, cell) && misses(otherwise, cell),
        RStmt::For { counter, body, .. } => *counter != cell && misses(body, cell),
    }
}

fn keeps_counters(st: &RStmt) -> bool
    ensures { IsTrue result ↔ CountersKept st.now }
{
    match st {
        RStmt::Block(all) => {
            for inner in all {
                if !keeps_counters(inner) {
                    return false;
                }
            }
            true
        }
        RStmt::If {
            then,
            otherwise,
            ..
        } => keeps_counters(then) && keeps_counters(otherwise),
        RStmt::For { counter, body, .. } => misses(body, *counter) && keeps_counters(body),
        _ => true,
    }
}
