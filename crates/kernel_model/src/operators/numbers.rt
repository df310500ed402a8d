// The operators on numbers, with the place of a fault.

ghost use Rattle.std.specs.Prelude.{◌≡◌, ℤ, pos, Ok, Err};
ghost use Rattle.kernel_model.specs.Numbers.{apply, apply_unary, sum, difference, product, and_bits, or_bits, xor_bits, complement};
ghost use Rattle.kernel_model.specs.Numbers.{negated, magnitude, truth, is_settled, extremum};
ghost use Rattle.kernel_model.specs.Meaning.{index_in, stored};
ghost use Rattle.kernel_model.specs.Placed.{placed};

use crate::types::{Fault, KernelFault};
use c_tree::{AssignOp, BinaryOp, MinMax, Pos, UnaryOp};
use op_num::reductions::{Greatest, Least, Merge};
use op_num::{abs, div, rem, shl, shr, wrap_add, wrap_mul, wrap_neg, wrap_sub};

/// The sum of two numbers, which wraps.
pub fn add(a: i32, b: i32) -> i32
    ensures { result ≡ sum a b }
{
    wrap_add(a, b)
}

/// The difference of two numbers, which wraps.
pub fn sub(a: i32, b: i32) -> i32
    ensures { result ≡ difference a b }
{
    wrap_sub(a, b)
}

/// The product of two numbers, which wraps.
pub fn mul(a: i32, b: i32) -> i32
    ensures { result ≡ product a b }
{
    wrap_mul(a, b)
}

fn and(a: i32, b: i32) -> i32
    ensures { result ≡ and_bits a b }
{
    a & b
}

fn or(a: i32, b: i32) -> i32
    ensures { result ≡ or_bits a b }
{
    a | b
}

fn xor(a: i32, b: i32) -> i32
    ensures { result ≡ xor_bits a b }
{
    a ^ b
}

fn flipped(a: i32) -> i32
    ensures { result ≡ complement a }
{
    !a
}

fn minus(a: i32) -> i32
    ensures { result ≡ negated a }
{
    wrap_neg(a)
}

/// The value of `ABS(a)`.
pub fn absolute(a: i32) -> i32
    ensures { result ≡ magnitude a }
{
    abs(a)
}

fn at_place(value: Result<i32, Fault>, at: Pos) -> Result<i32, KernelFault>
    ensures { result ≡ placed value at }
{
    match value {
        Ok(v) => Ok(v),
        Err(kind) => Err(KernelFault { kind, at }),
    }
}

fn divided(a: i32, b: i32, at: Pos) -> Result<i32, KernelFault>
    ensures { result ≡ apply BinaryOp.Div at a b }
{
    at_place(div(a, b), at)
}

fn rest_of(a: i32, b: i32, at: Pos) -> Result<i32, KernelFault>
    ensures { result ≡ apply BinaryOp.Rem at a b }
{
    at_place(rem(a, b), at)
}

fn shifted_up(a: i32, b: i32, at: Pos) -> Result<i32, KernelFault>
    ensures { result ≡ apply BinaryOp.ShiftLeft at a b }
{
    at_place(shl(a, b), at)
}

fn shifted_down(a: i32, b: i32, at: Pos) -> Result<i32, KernelFault>
    ensures { result ≡ apply BinaryOp.ShiftRight at a b }
{
    at_place(shr(a, b), at)
}

/// A test as a number: 1 where it holds, else 0.
pub fn truth_of(test: bool) -> i32
    ensures { result ≡ truth test }
{
    if test { 1 } else { 0 }
}

/// The value of `MIN(a, b)` or `MAX(a, b)`.
pub fn extreme(which: MinMax, a: i32, b: i32) -> i32
    ensures { result ≡ extremum which a b }
{
    match which {
        MinMax::Min => Least::merge(a, b),
        MinMax::Max => Greatest::merge(a, b),
    }
}

/// The value of a unary operator.
pub fn apply_unary_op(op: UnaryOp, a: i32) -> i32
    ensures { result ≡ apply_unary op a }
{
    match op {
        UnaryOp::Minus => minus(a),
        UnaryOp::Plus => a,
        UnaryOp::Not => truth_of(a == 0),
        UnaryOp::Complement => flipped(a),
    }
}

/// Whether the left side of `||` or `&&` alone tells the value.
pub fn settles(op: BinaryOp, a: i32) -> bool
    ensures { result ≡ is_settled op a }
{
    match op {
        BinaryOp::LogicalOr => a != 0,
        BinaryOp::LogicalAnd => a == 0,
        _ => false,
    }
}

/// The value of a binary operator at that place, or its fault.
pub fn apply_op(op: BinaryOp, at: Pos, a: i32, b: i32) -> Result<i32, KernelFault>
    ensures { result ≡ apply op at a b }
{
    match op {
        BinaryOp::LogicalOr => Ok(truth_of(a != 0 || b != 0)),
        BinaryOp::LogicalAnd => Ok(truth_of(a != 0 && b != 0)),
        BinaryOp::BitOr => Ok(or(a, b)),
        BinaryOp::BitXor => Ok(xor(a, b)),
        BinaryOp::BitAnd => Ok(and(a, b)),
        BinaryOp::Equal => Ok(truth_of(a == b)),
        BinaryOp::NotEqual => Ok(truth_of(a != b)),
        BinaryOp::Less => Ok(truth_of(a < b)),
        BinaryOp::Greater => Ok(truth_of(a > b)),
        BinaryOp::LessEqual => Ok(truth_of(a <= b)),
        BinaryOp::GreaterEqual => Ok(truth_of(a >= b)),
        BinaryOp::ShiftLeft => shifted_up(a, b, at),
        BinaryOp::ShiftRight => shifted_down(a, b, at),
        BinaryOp::Add => Ok(add(a, b)),
        BinaryOp::Sub => Ok(sub(a, b)),
        BinaryOp::Mul => Ok(mul(a, b)),
        BinaryOp::Div => divided(a, b, at),
        BinaryOp::Rem => rest_of(a, b, at),
    }
}

/// What an assignment stores over the old value, or the fault of its operator.
pub fn stored_value(op: AssignOp, at: Pos, old: i32, value: i32) -> Result<i32, KernelFault>
    ensures { result ≡ stored op at old value }
{
    match op {
        AssignOp::Set => Ok(value),
        AssignOp::Add => apply_op(BinaryOp::Add, at, old, value),
        AssignOp::Sub => apply_op(BinaryOp::Sub, at, old, value),
        AssignOp::Mul => apply_op(BinaryOp::Mul, at, old, value),
        AssignOp::Div => apply_op(BinaryOp::Div, at, old, value),
        AssignOp::Rem => apply_op(BinaryOp::Rem, at, old, value),
        AssignOp::ShiftLeft => apply_op(BinaryOp::ShiftLeft, at, old, value),
        AssignOp::ShiftRight => apply_op(BinaryOp::ShiftRight, at, old, value),
        AssignOp::BitAnd => apply_op(BinaryOp::BitAnd, at, old, value),
        AssignOp::BitOr => apply_op(BinaryOp::BitOr, at, old, value),
        AssignOp::BitXor => apply_op(BinaryOp::BitXor, at, old, value),
    }
}

/// The index as a number of a cell below `count`, or the fault that it is out.
pub fn index_of(count: usize, at: Pos, index: i32) -> Result<usize, KernelFault>
    ensures { result ≡ index_in count at index }
{
    if index >= 0 && (index as usize) < count {
        Ok(index as usize)
    } else {
        Err(KernelFault {
            kind: Fault::Index,
            at,
        })
    }
}
