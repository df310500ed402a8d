// Expressions (ISO C 6.5). A field `at` is the number, among the tokens of the source from 0, of the token that the
// field's comment names.

use crate::lexer::{Name, Text};

/// A name, and the number of its token.
#[derive(Drop)]
pub struct Ident {
    pub name: Name,
    pub at: usize,
}

/// A number, and the number of its token.
#[derive(Clone, Copy, PartialEq, Eq, Debug)]
pub struct NumberLiteral {
    pub value: i32,
    pub at: usize,
}

/// A text, and the number of its token.
#[derive(Drop)]
pub struct TextLiteral {
    pub text: Text,
    pub at: usize,
}

/// A binary operator, its sign beside it.
#[derive(Clone, Copy, PartialEq, Eq, Debug)]
pub enum BinaryOp {
    /// `||`
    LogicalOr,
    /// `&&`
    LogicalAnd,
    /// `|`
    BitOr,
    /// `^`
    BitXor,
    /// `&`
    BitAnd,
    /// `==`
    Equal,
    /// `!=`
    NotEqual,
    /// `<`
    Less,
    /// `>`
    Greater,
    /// `<=`
    LessEqual,
    /// `>=`
    GreaterEqual,
    /// `<<`
    ShiftLeft,
    /// `>>`
    ShiftRight,
    /// `+`
    Add,
    /// `-`
    Sub,
    /// `*`
    Mul,
    /// `/`
    Div,
    /// `%`
    Rem,
}

/// A unary operator, its sign beside it.
#[derive(Clone, Copy, PartialEq, Eq, Debug)]
pub enum UnaryOp {
    /// `-`
    Minus,
    /// `+`
    Plus,
    /// `!`
    Not,
    /// `~`
    Complement,
}

/// Which of two values `MIN(a, b)` or `MAX(a, b)` gives.
#[derive(Clone, Copy, PartialEq, Eq, Debug)]
pub enum MinMax {
    Min,
    Max,
}

/// An expression. Parentheses, unary `+` and `*p` are kept as they are written.
pub enum Expr {
    /// `5`
    Number(NumberLiteral),
    /// `x`
    Name(Ident),
    /// `x[i]`
    Index {
        name: Ident,
        index: Box<Expr>,
    },
    /// `*x`; `at` is its `*`
    Deref {
        at: usize,
        name: Ident,
    },
    /// `-a`; `at` is the operator
    Unary {
        op: UnaryOp,
        at: usize,
        operand: Box<Expr>,
    },
    /// `a + b`; `at` is the operator
    Binary {
        op: BinaryOp,
        at: usize,
        left: Box<Expr>,
        right: Box<Expr>,
    },
    /// `c ? a : b`; `at` is its `?`
    Choice {
        at: usize,
        condition: Box<Expr>,
        if_true: Box<Expr>,
        if_false: Box<Expr>,
    },
    /// `(a)`; `at` is its `(`
    Paren {
        at: usize,
        inner: Box<Expr>,
    },
    /// `MIN(a, b)` or `MAX(a, b)`; `at` is the word
    Extremum {
        which: MinMax,
        at: usize,
        first: Box<Expr>,
        second: Box<Expr>,
    },
    /// `ABS(a)`; `at` is the word
    Absolute {
        at: usize,
        operand: Box<Expr>,
    },
}

// A chain of operators, each the left operand of the one before it, is taken apart by a loop, so that dropping an
// expression recurses by level of nesting alone.
impl Drop for Expr {
    fn drop(mut self) {
        loop {
            match self {
                Expr::Binary {
                    op: _,
                    at: _,
                    left,
                    right: _right,
                } => self = Box::into_inner(left),
                Expr::Choice {
                    at: _,
                    condition,
                    if_true: _if_true,
                    if_false: _if_false,
                } => self = Box::into_inner(condition),
                Expr::Number(_) => return,
                Expr::Name(_name) => return,
                Expr::Index {
                    name: _name,
                    index: _index,
                } => return,
                Expr::Deref { at: _, name: _name } => return,
                Expr::Unary {
                    op: _,
                    at: _,
                    operand: _operand,
                } => return,
                Expr::Paren {
                    at: _,
                    inner: _inner,
                } => return,
                Expr::Extremum {
                    which: _,
                    at: _,
                    first: _first,
                    second: _second,
                } => return,
                Expr::Absolute {
                    at: _,
                    operand: _operand,
                } => return,
            }
        }
    }
}
