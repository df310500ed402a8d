// Kernels that no source has: `is_resolved` finds a store to the counter of a `for`.

use kernel_model::types::{AssignOp, Name, Pos, RBody, RExpr, RKernel, RStmt, is_resolved};
use std::alloc::{AllocError, Global};
use std::test::Fail;

const AT: Pos = Pos { line: 1, column: 1 };

// A kernel whose `for` has its counter in that cell, and stores to the cell 0.
fn storing(alloc: Global, counter: u32) -> Result<RKernel, AllocError> {
    let store = RStmt::SetScalar {
        cell: 0,
        op: AssignOp::Set,
        op_at: AT,
        value: RExpr::Number(1),
    };
    Ok(RKernel {
        name: Name::new(b"k".to_vec(alloc)?),
        params: 0,
        scratch: 2,
        body: RBody {
            param_places: Vec::new(alloc),
            statement: RStmt::For {
                counter,
                first: 0,
                past: 3,
                body: Box::new(alloc, store)?,
            },
        },
    })
}

#[test]
fn a_store_to_a_counter_is_found(rt: HostRuntime) -> Result<(), Fail> {
    let alloc = rt.alloc();
    assert!(rt; is_resolved(&storing(alloc, 1)?, 0));
    assert!(rt; !is_resolved(&storing(alloc, 0)?, 0));
    Ok(())
}
