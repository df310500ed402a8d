// Statements (ISO C 6.8) over numbered parameters and cells.

use crate::types::expressions::{ElementForm, RExpr};
use c_tree::{AssignOp, Pos};

/// A statement. `op_at` is the place of an assignment's sign, `at` that of the name of its target.
#[derive(Drop)]
pub enum RStmt {
    /// statements in order; `;` is a block of none
    Block(Vec<RStmt>),
    /// the declaration of a variable or an array: `count` cells of the locals from the cell `from` on become 0
    Declare {
        from: u32,
        count: u32,
    },
    /// an assignment to the local variable at that cell, or its initializer
    SetScalar {
        cell: u32,
        op: AssignOp,
        op_at: Pos,
        value: RExpr,
    },
    /// an assignment to an element of a local array, whose `count` cells stand from the cell `from` on
    SetLocal {
        from: u32,
        count: u32,
        form: ElementForm,
        index: RExpr,
        at: Pos,
        op: AssignOp,
        op_at: Pos,
        value: RExpr,
    },
    /// an assignment to an element of a parameter
    SetArg {
        param: u32,
        form: ElementForm,
        index: RExpr,
        at: Pos,
        op: AssignOp,
        op_at: Pos,
        value: RExpr,
    },
    /// `if (a) .. else ..`; without `else` the last part is a block of none
    If {
        condition: RExpr,
        then: Box<RStmt>,
        otherwise: Box<RStmt>,
    },
    /// `for (int i = first; i < past; i++) ..`, where `counter` is the cell of `i`
    For {
        counter: u32,
        first: u32,
        past: u32,
        body: Box<RStmt>,
    },
}
