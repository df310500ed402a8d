// Which expressions are written in the same tokens.

ghost use Rattle.std.specs.Prelude.{◌≡◌};
ghost use Rattle.kernel_model.specs.SameTokens.{same_form, same_which, same_unary, same_op, same_tokens};

use c_tree::{BinaryOp, MinMax, UnaryOp};
use kernel_model::types::{ElementForm, RExpr};

/// Whether two elements are written in the same form, with an index or with `*`.
pub fn is_same_form(a: ElementForm, b: ElementForm) -> bool
    ensures { result ≡ same_form a b }
{
    match (a, b) {
        (ElementForm::Index, ElementForm::Index) => true,
        (ElementForm::Deref, ElementForm::Deref) => true,
        _ => false,
    }
}

fn is_same_which(a: MinMax, b: MinMax) -> bool
    ensures { result ≡ same_which a b }
{
    match (a, b) {
        (MinMax::Min, MinMax::Min) => true,
        (MinMax::Max, MinMax::Max) => true,
        _ => false,
    }
}

fn is_same_unary(a: UnaryOp, b: UnaryOp) -> bool
    ensures { result ≡ same_unary a b }
{
    match (a, b) {
        (UnaryOp::Minus, UnaryOp::Minus) => true,
        (UnaryOp::Plus, UnaryOp::Plus) => true,
        (UnaryOp::Not, UnaryOp::Not) => true,
        (UnaryOp::Complement, UnaryOp::Complement) => true,
        _ => false,
    }
}

fn is_same_op(a: BinaryOp, b: BinaryOp) -> bool
    ensures { result ≡ same_op a b }
{
    match (a, b) {
        (BinaryOp::LogicalOr, BinaryOp::LogicalOr) => true,
        (BinaryOp::LogicalAnd, BinaryOp::LogicalAnd) => true,
        (BinaryOp::BitOr, BinaryOp::BitOr) => true,
        (BinaryOp::BitXor, BinaryOp::BitXor) => true,
        (BinaryOp::BitAnd, BinaryOp::BitAnd) => true,
        (BinaryOp::Equal, BinaryOp::Equal) => true,
        (BinaryOp::NotEqual, BinaryOp::NotEqual) => true,
        (BinaryOp::Less, BinaryOp::Less) => true,
        (BinaryOp::Greater, BinaryOp::Greater) => true,
        (BinaryOp::LessEqual, BinaryOp::LessEqual) => true,
        (BinaryOp::GreaterEqual, BinaryOp::GreaterEqual) => true,
        (BinaryOp::ShiftLeft, BinaryOp::ShiftLeft) => true,
        (BinaryOp::ShiftRight, BinaryOp::ShiftRight) => true,
        (BinaryOp::Add, BinaryOp::Add) => true,
        (BinaryOp::Sub, BinaryOp::Sub) => true,
        (BinaryOp::Mul, BinaryOp::Mul) => true,
        (BinaryOp::Div, BinaryOp::Div) => true,
        (BinaryOp::Rem, BinaryOp::Rem) => true,
        _ => false,
    }
}

// Whether both expressions are written in the same tokens. A chain of operators, each the left operand of the one
// before it, is gone along by a loop.
#[cycle(same)]
#[tactic(auto, using(crate::proofs::Chains::same_swap))]
fn is_same_chain(a: &RExpr, b: &RExpr) -> bool
    ensures { result ≡ same_tokens a.now b.now }
{
    let mut one = a;
    let mut other = b;
    'down: loop {
        match one {
            RExpr::Binary {
                op,
                left,
                right,
                ..
            } => match other {
                RExpr::Binary {
                    op: other_op,
                    left: other_left,
                    right: other_right,
                    ..
                } => {
                    if !is_same_op(*op, *other_op) || !is_same(right, other_right) {
                        return false;
                    }
                    one = left;
                    other = other_left;
                }
                _ => return false,
            },
            _ => return is_same(one, other),
        }
    }
}

/// Whether both expressions are written in the same tokens: they are the same tree, places aside.
#[cycle(same)]
pub fn is_same(a: &RExpr, b: &RExpr) -> bool
    ensures { result ≡ same_tokens a.now b.now }
{
    match a {
        RExpr::Number(n) => match b {
            RExpr::Number(m) => *n == *m,
            _ => false,
        },
        RExpr::Scalar(k) => match b {
            RExpr::Scalar(j) => *k == *j,
            _ => false,
        },
        RExpr::Constant(k) => match b {
            RExpr::Constant(j) => *k == *j,
            _ => false,
        },
        RExpr::Arg {
            param,
            form,
            index,
            ..
        } => match b {
            RExpr::Arg {
                param: other,
                form: other_form,
                index: other_index,
                ..
            } => {
                *param == *other && is_same_form(*form, *other_form) && is_same(index, other_index)
            }
            _ => false,
        },
        RExpr::Local {
            from,
            count,
            form,
            index,
            ..
        } => match b {
            RExpr::Local {
                from: other,
                count: other_count,
                form: other_form,
                index: other_index,
                ..
            } => {
                *from == *other
                    && *count == *other_count
                    && is_same_form(*form, *other_form)
                    && is_same(index, other_index)
            }
            _ => false,
        },
        RExpr::Const {
            from,
            count,
            form,
            index,
            ..
        } => match b {
            RExpr::Const {
                from: other,
                count: other_count,
                form: other_form,
                index: other_index,
                ..
            } => {
                *from == *other
                    && *count == *other_count
                    && is_same_form(*form, *other_form)
                    && is_same(index, other_index)
            }
            _ => false,
        },
        RExpr::Unary { op, operand } => match b {
            RExpr::Unary {
                op: other,
                operand: other_operand,
            } => is_same_unary(*op, *other) && is_same(operand, other_operand),
            _ => false,
        },
        RExpr::Binary {
            op,
            left,
            right,
            ..
        } => match b {
            RExpr::Binary {
                op: other,
                left: other_left,
                right: other_right,
                ..
            } => {
                is_same_op(*op, *other)
                    && is_same_chain(left, other_left)
                    && is_same(right, other_right)
            }
            _ => false,
        },
        RExpr::Choice {
            condition,
            if_true,
            if_false,
        } => match b {
            RExpr::Choice {
                condition: other,
                if_true: other_true,
                if_false: other_false,
            } => {
                is_same(condition, other)
                    && is_same(if_true, other_true)
                    && is_same(if_false, other_false)
            }
            _ => false,
        },
        RExpr::Paren(inner) => match b {
            RExpr::Paren(other) => is_same(inner, other),
            _ => false,
        },
        RExpr::Extremum {
            which,
            first,
            second,
        } => match b {
            RExpr::Extremum {
                which: other,
                first: other_first,
                second: other_second,
            } => {
                is_same_which(*which, *other)
                    && is_same(first, other_first)
                    && is_same(second, other_second)
            }
            _ => false,
        },
        RExpr::Absolute(operand) => match b {
            RExpr::Absolute(other) => is_same(operand, other),
            _ => false,
        },
    }
}
