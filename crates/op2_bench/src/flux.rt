// The kernel, as resolving its names gives it.

use kernel_model::types::{
    AssignOp, BinaryOp, ElementForm, Name, Pos, RBody, RExpr, RKernel, RStmt,
};
use std::alloc::{AllocError, Global};

fn at(column: u32) -> Pos {
    Pos { line: 1, column }
}

// The element 0 of a parameter.
fn first_of(alloc: Global, param: u32) -> Result<RExpr, AllocError> {
    Ok(RExpr::Arg {
        param,
        form: ElementForm::Index,
        index: Box::new(alloc, RExpr::Number(0))?,
        at: at(1),
    })
}

fn binary(alloc: Global, op: BinaryOp, left: RExpr, right: RExpr) -> Result<RExpr, AllocError> {
    Ok(RExpr::Binary {
        op,
        left: Box::new(alloc, left)?,
        right: Box::new(alloc, right)?,
        at: at(1),
    })
}

fn paren(alloc: Global, e: RExpr) -> Result<RExpr, AllocError> {
    Ok(RExpr::Paren(Box::new(alloc, e)?))
}

// `p[0] op= f;`
fn changes(param: u32, op: AssignOp) -> RStmt {
    RStmt::SetArg {
        param,
        form: ElementForm::Index,
        index: RExpr::Number(0),
        at: at(1),
        op,
        op_at: at(1),
        value: RExpr::Scalar(0),
    }
}

/// The kernel `flux`, with its six parameters and its local `f`.
pub fn flux(alloc: Global) -> Result<RKernel, AllocError> {
    let change = binary(
        alloc,
        BinaryOp::Sub,
        first_of(alloc, 0)?,
        first_of(alloc, 1)?,
    )?;
    let area = binary(
        alloc,
        BinaryOp::Add,
        first_of(alloc, 2)?,
        first_of(alloc, 3)?,
    )?;
    let value = binary(
        alloc,
        BinaryOp::Div,
        paren(alloc, change)?,
        paren(alloc, area)?,
    )?;
    let declares = RStmt::Declare { from: 0, count: 1 };
    let sets = RStmt::SetScalar {
        cell: 0,
        op: AssignOp::Set,
        op_at: at(1),
        value,
    };
    let all = [
        declares,
        sets,
        changes(4, AssignOp::Sub),
        changes(5, AssignOp::Add),
    ];
    Ok(RKernel {
        name: Name::new(Vec::new(alloc)),
        params: 6,
        scratch: 1,
        body: RBody {
            param_places: vec![in alloc; at(1); 6]?,
            statement: RStmt::Block(Vec::from_array(alloc, all)?),
        },
    })
}
