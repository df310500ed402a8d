// Expressions: the rules that they break, and what they mean in a kernel.

ghost use Rattle.std.specs.Prelude.{◌≡◌, false, pos, IfOk};
ghost use Rattle.c_tree.specs.View.{expr_of};
ghost use Rattle.c_tree.specs.Places.{pos_of};
ghost use Rattle.name_resolution.specs.First.{least_from};
ghost use Rattle.name_resolution.specs.Scopes.{means, scope};
ghost use Rattle.name_resolution.specs.Numbers.{ExprFits};
ghost use Rattle.kernel_model.specs.View.{rexpr_of};
ghost use Rattle.name_resolution.specs.Kernels.{name_breaches, expr_breaches, element, single, value};

use crate::breaches::Breach;
use crate::decls::{Decl, Scope, Sort, Use, judge_use};
use c_tree::{BinaryOp, Expr, Ident, Pos, pos_of};
use kernel_model::types::{ElementForm, RExpr};
use op_num::OutOfMemory;
use std::alloc::Global;

// Judges a name in an expression.
fn judge_name(
    first: &mut Option<Breach>,
    known: Scope<'_>,
    in_kernel: bool,
    is_indexed: bool,
    name: &Ident,
)
    ensures { first.new ≡ least_from first.old
        (name_breaches in_kernel (scope known.entry.file.now.entries known.entry.own.now.entries) is_indexed name.now) }
{
    let how = Use {
        in_kernel,
        is_indexed,
        is_target: false,
        is_fixed: false,
    };
    judge_use(first, how, name.at, known.means(&name.name));
}

/// Judges the names of an expression, from its end. So a chain of operators, each the left operand of the one before
/// it, is gone along by a loop, and the recursion goes by level of nesting.
#[cycle(judges)]
#[tactic(auto, using(crate::proofs::Swap::least_behind))]
pub fn judge_expr(first: &mut Option<Breach>, known: Scope<'_>, in_kernel: bool, expr: &Expr)
    ensures { first.new ≡ least_from first.old
        (expr_breaches in_kernel (scope known.entry.file.now.entries known.entry.own.now.entries) (expr_of expr.now)) }
{
    let mut rest = expr;
    loop {
        match rest {
            Expr::Number(_) => return,
            Expr::Name(name) => return judge_name(first, known, in_kernel, false, name),
            Expr::Index { name, index } => {
                judge_expr(first, known, in_kernel, index);
                return judge_name(first, known, in_kernel, true, name);
            }
            Expr::Deref { name, .. } => return judge_name(first, known, in_kernel, true, name),
            Expr::Unary { operand, .. } => rest = operand,
            Expr::Binary { left, right, .. } => {
                judge_expr(first, known, in_kernel, right);
                rest = left;
            }
            Expr::Choice {
                condition,
                if_true,
                if_false,
                ..
            } => {
                judge_expr(first, known, in_kernel, if_false);
                judge_expr(first, known, in_kernel, if_true);
                rest = condition;
            }
            Expr::Paren { inner, .. } => rest = inner,
            Expr::Extremum {
                first: one,
                second: other,
                ..
            } => {
                judge_expr(first, known, in_kernel, other);
                rest = one;
            }
            Expr::Absolute { operand, .. } => rest = operand,
        }
    }
}

// An element of what is declared so, the index given.
fn element(
    alloc: Global,
    decl: Decl,
    form: ElementForm,
    index: RExpr,
    at: Pos,
) -> Result<RExpr, OutOfMemory>
    requires { ExprFits (rexpr_of index) }
    ensures value { IfOk result (λ r. rexpr_of r ≡ element decl form (rexpr_of index) at) }
    ensures fits { IfOk result (λ r. ExprFits (rexpr_of r)) }
{
    let index = Box::new(alloc, index)?;
    let (from, count) = (decl.from, decl.count);
    match decl.sort {
        Sort::Param => Ok(RExpr::Arg {
            param: from,
            form,
            index,
            at,
        }),
        _ if decl.of_file => Ok(RExpr::Const {
            from,
            count,
            form,
            index,
            at,
        }),
        _ => Ok(RExpr::Local {
            from,
            count,
            form,
            index,
            at,
        }),
    }
}

// A variable that is declared so.
fn single(decl: Decl) -> RExpr
    ensures value { rexpr_of result ≡ single decl }
    ensures fits { ExprFits (rexpr_of result) }
{
    if decl.of_file {
        RExpr::Constant(decl.from)
    } else {
        RExpr::Scalar(decl.from)
    }
}

// A binary operator, and its right operand.
#[derive(Drop)]
struct Operation {
    op: BinaryOp,
    right: Box<RExpr>,
    at: Pos,
}

// What an expression means: down the operators of its chain to the leftmost operand, and back up.
#[cycle(values)]
#[tactic(auto, using(crate::proofs::Chains::over_push, crate::proofs::Chains::fits_push, crate::proofs::Chains::fits_pop))]
fn chain_value(
    alloc: Global,
    places: &[Pos],
    known: Scope<'_>,
    expr: &Expr,
) -> Result<RExpr, OutOfMemory>
    ensures value { IfOk result (λ r.
        rexpr_of r ≡ value places.now
        (scope known.entry.file.now.entries known.entry.own.now.entries) (expr_of expr.now)) }
    ensures fits { IfOk result (λ r. ExprFits (rexpr_of r)) }
{
    let mut operations = Vec::new(alloc);
    let mut rest = expr;
    'down: while let Expr::Binary {
        op,
        at,
        left,
        right,
    } = rest
    {
        let right = value(alloc, places, known, right)?;
        operations.push(Operation {
            op: *op,
            right: Box::new(alloc, right)?,
            at: pos_of(places, *at),
        })?;
        rest = left;
    }
    let mut whole = value(alloc, places, known, rest)?;
    'up: while let Some(operation) = operations.pop() {
        whole = RExpr::Binary {
            op: operation.op,
            left: Box::new(alloc, whole)?,
            right: operation.right,
            at: operation.at,
        };
    }
    Ok(whole)
}

// What an expression of a kernel means, in a box.
#[cycle(values)]
fn value_box(
    alloc: Global,
    places: &[Pos],
    known: Scope<'_>,
    expr: &Expr,
) -> Result<Box<RExpr>, OutOfMemory>
    ensures value { IfOk result (λ r.
        rexpr_of r.value ≡ value places.now
        (scope known.entry.file.now.entries known.entry.own.now.entries) (expr_of expr.now)) }
    ensures fits { IfOk result (λ r. ExprFits (rexpr_of r.value)) }
{
    let value = value(alloc, places, known, expr)?;
    let boxed = Box::new(alloc, value)?;
    Ok(boxed)
}

/// What an expression of a kernel means, where it breaks no rule.
#[cycle(values)]
pub fn value(
    alloc: Global,
    places: &[Pos],
    known: Scope<'_>,
    expr: &Expr,
) -> Result<RExpr, OutOfMemory>
    ensures value { IfOk result (λ r.
        rexpr_of r ≡ value places.now
        (scope known.entry.file.now.entries known.entry.own.now.entries) (expr_of expr.now)) }
    ensures fits { IfOk result (λ r. ExprFits (rexpr_of r)) }
{
    match expr {
        Expr::Number(number) => Ok(RExpr::Number(number.value)),
        Expr::Name(name) => Ok(single(known.decl(&name.name))),
        Expr::Index { name, index } => {
            let index = value(alloc, places, known, index)?;
            let at = pos_of(places, name.at);
            element(alloc, known.decl(&name.name), ElementForm::Index, index, at)
        }
        Expr::Deref { name, .. } => {
            let index = RExpr::Number(0);
            let at = pos_of(places, name.at);
            element(alloc, known.decl(&name.name), ElementForm::Deref, index, at)
        }
        Expr::Unary { op, operand, .. } => Ok(RExpr::Unary {
            op: *op,
            operand: value_box(alloc, places, known, operand)?,
        }),
        Expr::Binary {
            op,
            at,
            left,
            right,
        } => {
            let left = chain_value(alloc, places, known, left)?;
            let left = Box::new(alloc, left)?;
            Ok(RExpr::Binary {
                op: *op,
                left,
                right: value_box(alloc, places, known, right)?,
                at: pos_of(places, *at),
            })
        }
        Expr::Choice {
            condition,
            if_true,
            if_false,
            ..
        } => Ok(RExpr::Choice {
            condition: value_box(alloc, places, known, condition)?,
            if_true: value_box(alloc, places, known, if_true)?,
            if_false: value_box(alloc, places, known, if_false)?,
        }),
        Expr::Paren { inner, .. } => Ok(RExpr::Paren(value_box(alloc, places, known, inner)?)),
        Expr::Extremum {
            which,
            first,
            second,
            ..
        } => Ok(RExpr::Extremum {
            which: *which,
            first: value_box(alloc, places, known, first)?,
            second: value_box(alloc, places, known, second)?,
        }),
        Expr::Absolute { operand, .. } => {
            Ok(RExpr::Absolute(value_box(alloc, places, known, operand)?))
        }
    }
}
