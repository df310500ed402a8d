// The expressions of `main` with the meanings of their names.

ghost use Rattle.std.specs.Prelude.{◌≡◌, IfOk};
ghost use Rattle.c_tree.specs.View.{expr_of};
ghost use Rattle.kernel_model.specs.View.{rexpr_of};
ghost use Rattle.bound_program.specs.HostExpr.{is_static};
ghost use Rattle.main_declarations.specs.Names.{scope_of};
ghost use Rattle.main_declarations.specs.Expressions.{first_token, read, cells_of, resolved, judged_static, judged_value};
ghost use Rattle.bound_program.specs.Unrolling.{asked_of};
ghost use Rattle.bound_program.specs.Refusals.{JudgesBy};

use crate::names::scopes::{Cells, Meaning, Scope};
use bound_program::refusals::{BindRefusal, place};
use bound_program::trace::{Asked, host_value};
use c_tree::{Expr, Pos};
use kernel_model::types::{ElementForm, RExpr};
use op_num::OutOfMemory;
use std::alloc::Global;

/// The number of the first token of an expression.
pub fn first_token(e: &Expr) -> usize
    ensures { result ≡ first_token (expr_of e.now) }
{
    match e {
        Expr::Number(n) => n.at,
        Expr::Name(x) => x.at,
        Expr::Index { name, .. } => name.at,
        Expr::Deref { at, .. } => *at,
        Expr::Unary { at, .. } => *at,
        Expr::Binary { left, .. } => first_token(left),
        Expr::Choice { condition, .. } => first_token(condition),
        Expr::Paren { at, .. } => *at,
        Expr::Extremum { at, .. } => *at,
        Expr::Absolute { at, .. } => *at,
    }
}

/// A name as a value; what is no value stands for 0.
pub fn read(meaning: Option<Meaning>) -> RExpr
    ensures { rexpr_of result ≡ read meaning }
{
    match meaning {
        Some(Meaning::Extern(z)) => RExpr::Number(z),
        Some(Meaning::Fixed(z, _)) => RExpr::Number(z),
        Some(Meaning::FixedLater(k, _)) => RExpr::Constant(k),
        Some(Meaning::Turning(k)) => RExpr::Constant(k),
        Some(Meaning::Variable(cells)) => RExpr::Scalar(cells.from),
        _ => RExpr::Number(0),
    }
}

/// The cells of a variable; none of another name.
pub fn cells_of(meaning: Option<Meaning>) -> Cells
    ensures { result ≡ cells_of meaning }
{
    match meaning {
        Some(Meaning::Variable(cells)) => cells,
        _ => Cells {
            var: 0,
            from: 0,
            count: 0,
            is_array: false,
            of_file: false,
        },
    }
}

// The expression that `resolved` gives, in a box.
#[cycle(resolved)]
fn resolved_box(
    alloc: Global,
    places: &[Pos],
    scope: &Scope,
    e: &Expr,
) -> Result<Box<RExpr>, OutOfMemory>
    ensures { IfOk result (λ r. rexpr_of r.value ≡ resolved places.now (scope_of scope.now) (expr_of e.now)) }
{
    let resolved = resolved(alloc, places, scope, e)?;
    let boxed = Box::new(alloc, resolved)?;
    Ok(boxed)
}

/// An expression with the meanings of its names.
#[cycle(resolved)]
pub fn resolved(
    alloc: Global,
    places: &[Pos],
    scope: &Scope,
    e: &Expr,
) -> Result<RExpr, OutOfMemory>
    ensures { IfOk result (λ r. rexpr_of r ≡ resolved places.now (scope_of scope.now) (expr_of e.now)) }
{
    match e {
        Expr::Number(n) => Ok(RExpr::Number(n.value)),
        Expr::Name(x) => Ok(read(scope.means(&x.name))),
        Expr::Index { name, index } => {
            let cells = cells_of(scope.means(&name.name));
            Ok(RExpr::Local {
                from: cells.from,
                count: cells.count,
                form: ElementForm::Index,
                index: resolved_box(alloc, places, scope, index)?,
                at: place(places, name.at),
            })
        }
        Expr::Deref { name, .. } => {
            let cells = cells_of(scope.means(&name.name));
            Ok(RExpr::Local {
                from: cells.from,
                count: cells.count,
                form: ElementForm::Deref,
                index: Box::new(alloc, RExpr::Number(0))?,
                at: place(places, name.at),
            })
        }
        Expr::Unary { op, operand, .. } => Ok(RExpr::Unary {
            op: *op,
            operand: resolved_box(alloc, places, scope, operand)?,
        }),
        Expr::Binary {
            op,
            at,
            left,
            right,
        } => Ok(RExpr::Binary {
            op: *op,
            left: resolved_box(alloc, places, scope, left)?,
            right: resolved_box(alloc, places, scope, right)?,
            at: place(places, *at),
        }),
        Expr::Choice {
            condition,
            if_true,
            if_false,
            ..
        } => Ok(RExpr::Choice {
            condition: resolved_box(alloc, places, scope, condition)?,
            if_true: resolved_box(alloc, places, scope, if_true)?,
            if_false: resolved_box(alloc, places, scope, if_false)?,
        }),
        Expr::Paren { inner, .. } => {
            Ok(RExpr::Paren(resolved_box(alloc, places, scope, inner)?))
        }
        Expr::Extremum {
            which,
            first,
            second,
            ..
        } => Ok(RExpr::Extremum {
            which: *which,
            first: resolved_box(alloc, places, scope, first)?,
            second: resolved_box(alloc, places, scope, second)?,
        }),
        Expr::Absolute { operand, .. } => {
            Ok(RExpr::Absolute(resolved_box(alloc, places, scope, operand)?))
        }
    }
}

/// Whether an expression names no cell of a variable, so that it is known before the run.
pub fn is_static(e: &RExpr) -> bool
    ensures { result ≡ is_static (rexpr_of e.now) }
{
    match e {
        RExpr::Number(_) => true,
        RExpr::Scalar(_) => false,
        RExpr::Constant(_) => true,
        RExpr::Arg { .. } => false,
        RExpr::Local { .. } => false,
        RExpr::Const { .. } => false,
        RExpr::Unary { operand, .. } => is_static(operand),
        RExpr::Binary { left, right, .. } => is_static(left) && is_static(right),
        RExpr::Choice {
            condition,
            if_true,
            if_false,
        } => is_static(condition) && is_static(if_true) && is_static(if_false),
        RExpr::Paren(inner) => is_static(inner),
        RExpr::Extremum { first, second, .. } => is_static(first) && is_static(second),
        RExpr::Absolute(operand) => is_static(operand),
    }
}

/// An expression that must be static.
pub fn judged_static(
    alloc: Global,
    places: &[Pos],
    scope: &Scope,
    e: &Expr,
) -> Result<Asked, BindRefusal>
    ensures { JudgesBy asked_of result (judged_static places.now (scope_of scope.now) (expr_of e.now)) }
{
    let value = resolved(alloc, places, scope, e)?;
    let at = place(places, first_token(e));
    if !is_static(&value) {
        return Err(BindRefusal::ControlNotStatic { at });
    }
    Ok(Asked { value, at })
}

/// The value of an expression that must be static, and is evaluated in the order of the text.
pub fn judged_value(
    alloc: Global,
    places: &[Pos],
    scope: &Scope,
    e: &Expr,
) -> Result<i32, BindRefusal>
    ensures { JudgesBy (λ z. z) result (judged_value places.now (scope_of scope.now) (expr_of e.now)) }
{
    let asked = judged_static(alloc, places, scope, e)?;
    match host_value(&asked.value, &[], &[]) {
        Ok(z) => Ok(z),
        Err(_) => Err(BindRefusal::ControlNotStatic { at: asked.at }),
    }
}
