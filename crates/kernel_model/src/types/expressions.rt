// Expressions (ISO C 6.5) over numbered parameters and cells. A field `at` is the place in the source that a fault or
// a refusal names.

use c_tree::{BinaryOp, MinMax, Pos, UnaryOp};

/// How an element of a parameter or of an array is written.
#[derive(Clone, Copy, PartialEq, Eq, Debug)]
pub enum ElementForm {
    /// `p[i]`
    Index,
    /// `*p`, whose index is the number 0
    Deref,
}

/// An expression. Parentheses, unary `+` and `*p` are kept as they are written.
pub enum RExpr {
    /// `5`
    Number(i32),
    /// a local variable or the counter of a `for`: the number of its cell among the kernel's locals
    Scalar(u32),
    /// a constant that is no array: the number of its cell among the constants
    Constant(u32),
    /// an element of the parameter of that number, from 0; `at` is the parameter's name
    Arg {
        param: u32,
        form: ElementForm,
        index: Box<RExpr>,
        at: Pos,
    },
    /// an element of a local array, whose `count` cells stand from the cell `from` on; `at` is its name
    Local {
        from: u32,
        count: u32,
        form: ElementForm,
        index: Box<RExpr>,
        at: Pos,
    },
    /// an element of a constant array, whose `count` cells stand from the cell `from` on; `at` is its name
    Const {
        from: u32,
        count: u32,
        form: ElementForm,
        index: Box<RExpr>,
        at: Pos,
    },
    /// `-a`
    Unary {
        op: UnaryOp,
        operand: Box<RExpr>,
    },
    /// `a + b`; `at` is the operator
    Binary {
        op: BinaryOp,
        left: Box<RExpr>,
        right: Box<RExpr>,
        at: Pos,
    },
    /// `c ? a : b`
    Choice {
        condition: Box<RExpr>,
        if_true: Box<RExpr>,
        if_false: Box<RExpr>,
    },
    /// `(a)`
    Paren(Box<RExpr>),
    /// `MIN(a, b)` or `MAX(a, b)`
    Extremum {
        which: MinMax,
        first: Box<RExpr>,
        second: Box<RExpr>,
    },
    /// `ABS(a)`
    Absolute(Box<RExpr>),
}

// A chain of operators, each the left operand of the one before it, is taken apart by a loop, so that dropping an
// expression recurses by level of nesting alone.
impl Drop for RExpr {
    fn drop(mut self) {
        loop {
            match self {
                RExpr::Binary {
                    op: _,
                    left,
                    right: _right,
                    at: _,
                } => self = Box::into_inner(left),
                RExpr::Choice {
                    condition,
                    if_true: _if_true,
                    if_false: _if_false,
                } => self = Box::into_inner(condition),
                RExpr::Number(_) | RExpr::Scalar(_) | RExpr::Constant(_) => return,
                RExpr::Arg {
                    param: _,
                    form: _,
                    index: _index,
                    at: _,
                } => return,
                RExpr::Local {
                    from: _,
                    count: _,
                    form: _,
                    index: _index,
                    at: _,
                } => return,
                RExpr::Const {
                    from: _,
                    count: _,
                    form: _,
                    index: _index,
                    at: _,
                } => return,
                RExpr::Unary {
                    op: _,
                    operand: _operand,
                } => return,
                RExpr::Paren(_inner) => return,
                RExpr::Extremum {
                    which: _,
                    first: _first,
                    second: _second,
                } => return,
                RExpr::Absolute(_operand) => return,
            }
        }
    }
}
