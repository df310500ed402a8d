// What expressions print, put into a list that is made from its end. So a chain of operators, each the left operand of
// the one before it, is gone along by a loop, and the recursion goes by level of nesting.

ghost use Rattle.std.specs.Prelude.{◌≡◌, IfOk, reverse};
ghost use Rattle.c_tree.specs.Signs.{sign_of, unary_sign_of, min_max_word_of};
ghost use Rattle.c_tree.specs.View.{expr_of};
ghost use Rattle.c_show.specs.Ahead.{sign_first, name_first, enclosed_first, indexed_first, expr_first};
ghost use Rattle.c_tree.specs.declared.lexer.tokens.Sign.TheVariants.{Star};

use crate::put_tokens::{put_name, put_number, put_sign, put_word};
use c_tree::lexer::{Kind, Sign, Word};
use c_tree::{BinaryOp, Expr, Ident, MinMax, UnaryOp};
use op_num::OutOfMemory;

// The sign of a binary operator.
fn binary_sign(op: BinaryOp) -> Sign
    ensures { result ≡ sign_of op }
{
    match op {
        BinaryOp::LogicalOr => Sign::OrOr,
        BinaryOp::LogicalAnd => Sign::AndAnd,
        BinaryOp::BitOr => Sign::Or,
        BinaryOp::BitXor => Sign::Xor,
        BinaryOp::BitAnd => Sign::And,
        BinaryOp::Equal => Sign::EqualEqual,
        BinaryOp::NotEqual => Sign::NotEqual,
        BinaryOp::Less => Sign::Less,
        BinaryOp::Greater => Sign::Greater,
        BinaryOp::LessEqual => Sign::LessEqual,
        BinaryOp::GreaterEqual => Sign::GreaterEqual,
        BinaryOp::ShiftLeft => Sign::Shl,
        BinaryOp::ShiftRight => Sign::Shr,
        BinaryOp::Add => Sign::Plus,
        BinaryOp::Sub => Sign::Minus,
        BinaryOp::Mul => Sign::Star,
        BinaryOp::Div => Sign::Slash,
        BinaryOp::Rem => Sign::Percent,
    }
}

// The sign of a unary operator.
fn unary_sign(op: UnaryOp) -> Sign
    ensures { result ≡ unary_sign_of op }
{
    match op {
        UnaryOp::Minus => Sign::Minus,
        UnaryOp::Plus => Sign::Plus,
        UnaryOp::Not => Sign::Not,
        UnaryOp::Complement => Sign::Tilde,
    }
}

// The word of `MIN` or `MAX`.
fn min_max_word(which: MinMax) -> Word
    ensures { result ≡ min_max_word_of which }
{
    match which {
        MinMax::Min => Word::Min,
        MinMax::Max => Word::Max,
    }
}

/// Puts what an expression prints before what is there.
#[cycle(expressions)]
pub fn put_expr(out: &mut Vec<Kind>, expr: &Expr) -> Result<(), OutOfMemory>
    ensures { IfOk result (λ _. reverse out.new.items ≡ expr_first (expr_of expr.now) (reverse out.old.items)) }
{
    let mut rest = expr;
    loop {
        match rest {
            Expr::Binary {
                op,
                left,
                right,
                ..
            } => {
                put_expr(out, right)?;
                put_sign(out, binary_sign(*op))?;
                rest = left;
            }
            Expr::Choice {
                condition,
                if_true,
                if_false,
                ..
            } => {
                put_expr(out, if_false)?;
                put_sign(out, Sign::Colon)?;
                put_expr(out, if_true)?;
                put_sign(out, Sign::Question)?;
                rest = condition;
            }
            Expr::Number(number) => return put_number(out, *number),
            Expr::Name(name) => return put_name(out, name),
            Expr::Index { name, index } => return put_indexed(out, name, index),
            Expr::Deref { name, .. } => return put_deref(out, name),
            Expr::Unary { op, operand, .. } => {
                put_expr(out, operand)?;
                return put_sign(out, unary_sign(*op));
            }
            Expr::Paren { inner, .. } => return put_enclosed(out, inner),
            Expr::Extremum {
                which,
                first,
                second,
                ..
            } => {
                put_sign(out, Sign::RightParen)?;
                put_expr(out, second)?;
                put_sign(out, Sign::Comma)?;
                put_expr(out, first)?;
                put_sign(out, Sign::LeftParen)?;
                return put_word(out, min_max_word(*which));
            }
            Expr::Absolute { operand, .. } => {
                put_enclosed(out, operand)?;
                return put_word(out, Word::Abs);
            }
        }
    }
}

/// Puts `x[i]`.
#[cycle(expressions)]
pub fn put_indexed(out: &mut Vec<Kind>, name: &Ident, index: &Expr) -> Result<(), OutOfMemory>
    ensures { IfOk result (λ _. reverse out.new.items ≡ indexed_first name.now (expr_of index.now) (reverse out.old.items)) }
{
    put_sign(out, Sign::RightBracket)?;
    put_expr(out, index)?;
    put_sign(out, Sign::LeftBracket)?;
    put_name(out, name)
}

/// Puts `*x`.
pub fn put_deref(out: &mut Vec<Kind>, name: &Ident) -> Result<(), OutOfMemory>
    ensures { IfOk result (λ _. reverse out.new.items ≡ sign_first Star (name_first name.now (reverse out.old.items))) }
{
    put_name(out, name)?;
    put_sign(out, Sign::Star)
}

/// Puts `(a)`.
#[cycle(expressions)]
pub fn put_enclosed(out: &mut Vec<Kind>, inner: &Expr) -> Result<(), OutOfMemory>
    ensures { IfOk result (λ _. reverse out.new.items ≡ enclosed_first (expr_of inner.now) (reverse out.old.items)) }
{
    put_sign(out, Sign::RightParen)?;
    put_expr(out, inner)?;
    put_sign(out, Sign::LeftParen)
}
