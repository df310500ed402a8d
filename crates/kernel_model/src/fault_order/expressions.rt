// Which expressions may fault.

ghost use Rattle.std.specs.Prelude.{◌≡◌, ◌||◌};
ghost use Rattle.kernel_model.specs.Effects.{may_be_out, may_be_zero, may_be_no_shift, operator_may_fault, sign_may_fault};
ghost use Rattle.kernel_model.specs.Effects.{count_at, may_fault};

use crate::types::RExpr;
use c_tree::{AssignOp, BinaryOp};

/// How many components an argument has; 0 for one that is not there.
pub fn count_at(counts: &[u32], argument: u32) -> u32
    ensures { result ≡ count_at counts.now argument }
{
    match counts.get(argument as usize) {
        Some(count) => *count,
        None => 0,
    }
}

/// Whether an index may be out: it is no number below the count.
pub fn may_be_out(count: u32, index: &RExpr) -> bool
    ensures { result ≡ may_be_out count index.now }
{
    match index {
        RExpr::Number(n) => *n < 0 || *n as u32 >= count,
        _ => true,
    }
}

// Whether a divisor may be 0: it is no other number.
fn may_be_zero(divisor: &RExpr) -> bool
    ensures { result ≡ may_be_zero divisor.now }
{
    match divisor {
        RExpr::Number(n) => *n == 0,
        _ => true,
    }
}

// Whether nothing may be shifted by it: it is no number from 0 to 31.
fn may_be_no_shift(by: &RExpr) -> bool
    ensures { result ≡ may_be_no_shift by.now }
{
    match by {
        RExpr::Number(n) => *n < 0 || 31 < *n,
        _ => true,
    }
}

// Whether an operator may fault with that on its right.
fn operator_may_fault(op: BinaryOp, right: &RExpr) -> bool
    ensures { result ≡ operator_may_fault op right.now }
{
    match op {
        BinaryOp::ShiftLeft | BinaryOp::ShiftRight => may_be_no_shift(right),
        BinaryOp::Div | BinaryOp::Rem => may_be_zero(right),
        _ => false,
    }
}

// Whether the sign of an assignment may.
fn sign_may_fault(op: AssignOp, value: &RExpr) -> bool
    ensures { result ≡ sign_may_fault op value.now }
{
    match op {
        AssignOp::ShiftLeft | AssignOp::ShiftRight => may_be_no_shift(value),
        AssignOp::Div | AssignOp::Rem => may_be_zero(value),
        _ => false,
    }
}

/// Whether an assignment of a value by that sign may fault, its target aside.
pub fn assigning_may_fault(op: AssignOp, value: &RExpr, counts: &[u32]) -> bool
    ensures { result ≡ (sign_may_fault op value.now || may_fault counts.now value.now) }
{
    sign_may_fault(op, value) || may_fault(value, counts)
}

/// Whether an expression may fault, over arguments with so many components. A chain of operators, each the left operand
/// of the one before it, is gone along by a loop.
pub fn may_fault(e: &RExpr, counts: &[u32]) -> bool
    ensures { result ≡ may_fault counts.now e.now }
{
    let mut rest = e;
    loop {
        match rest {
            RExpr::Number(_) | RExpr::Scalar(_) | RExpr::Constant(_) => return false,
            RExpr::Arg { param, index, .. } => return may_be_out(count_at(counts, *param), index),
            RExpr::Local { count, index, .. } => return may_be_out(*count, index),
            RExpr::Const { count, index, .. } => return may_be_out(*count, index),
            RExpr::Unary { operand, .. } => rest = operand,
            RExpr::Binary {
                op,
                left,
                right,
                ..
            } => {
                if operator_may_fault(*op, right) || may_fault(right, counts) {
                    return true;
                }
                rest = left;
            }
            RExpr::Choice {
                condition,
                if_true,
                if_false,
            } => {
                if may_fault(if_true, counts) || may_fault(if_false, counts) {
                    return true;
                }
                rest = condition;
            }
            RExpr::Paren(inner) => rest = inner,
            RExpr::Extremum { first, second, .. } => {
                if may_fault(second, counts) {
                    return true;
                }
                rest = first;
            }
            RExpr::Absolute(operand) => rest = operand,
        }
    }
}
