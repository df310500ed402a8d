// Declarations of variables (ISO C 6.7) and assignments (ISO C 6.5.16), which kernels and `main` share.

use crate::expressions::{Expr, Ident, NumberLiteral};

/// One declared variable.
#[derive(Drop)]
pub enum Declr {
    /// `x`
    Plain(Ident),
    /// `x = a`
    Init { name: Ident, value: Expr },
    /// `x[5]`
    Array { name: Ident, length: NumberLiteral },
}

/// `int x, y = 1;` or `const int x = 1;`; `at` is its `int`.
#[derive(Drop)]
pub struct Declaration {
    pub is_const: bool,
    pub at: usize,
    pub declrs: Vec<Declr>,
}

/// The target of an assignment.
#[derive(Drop)]
pub enum Place {
    /// `x`
    Name(Ident),
    /// `x[i]`
    Index { name: Ident, index: Expr },
    /// `*x`; `at` is its `*`
    Deref { at: usize, name: Ident },
}

/// The sign of an assignment.
#[derive(Clone, Copy, PartialEq, Eq, Debug)]
pub enum AssignOp {
    /// `=`
    Set,
    /// `+=`
    Add,
    /// `-=`
    Sub,
    /// `*=`
    Mul,
    /// `/=`
    Div,
    /// `%=`
    Rem,
    /// `<<=`
    ShiftLeft,
    /// `>>=`
    ShiftRight,
    /// `&=`
    BitAnd,
    /// `|=`
    BitOr,
    /// `^=`
    BitXor,
}

/// `x += a;`; `at` is the sign.
#[derive(Drop)]
pub struct Assignment {
    pub place: Place,
    pub op: AssignOp,
    pub at: usize,
    pub value: Expr,
}
