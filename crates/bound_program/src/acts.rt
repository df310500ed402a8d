// What `main` does, as a list.

ghost use Rattle.std.specs.Prelude.{◌≡◌, IfOk, []};

use c_tree::{AssignOp, Pos};
use kernel_model::types::RExpr;
use op_num::{OutOfMemory, Text};
use std::alloc::Global;
use std::sync::Arc;

/// A statement of `main` that is no loop. Its expressions are those of a kernel without parameters and constants, whose
/// local cells are the cells of all variables, one variable after another; names that are known before the run are
/// constants.
#[derive(Drop)]
pub enum Act {
    /// the declaration of a variable: its cells become 0
    Clear {
        var: u32,
    },
    /// an assignment to a variable, or its initializer; `at` is the place of the variable's name, `op_at` that of the
    /// sign
    Assign {
        var: u32,
        index: Option<RExpr>,
        op: AssignOp,
        op_at: Pos,
        value: RExpr,
        at: Pos,
    },
    /// `op_printf`, with a value for each `%d` of its text
    Line {
        text: Text,
        values: Vec<RExpr>,
    },
    /// `op_print_dat_to_txtfile`
    Print {
        dat: u32,
        file: Text,
    },
    /// `op_exit`
    Exit,
}

/// A statement with the values of the names that were told when `main` was unrolled: in its expressions `Constant(k)`
/// is the name whose value is the k-th of `told`. The items of all turns of a `for` share one `act`.
#[derive(Drop)]
pub struct ToldAct {
    pub act: Arc<Act, Global>,
    pub told: Vec<i32>,
}

impl ToldAct {
    ghost use Rattle.bound_program.specs.Values.{act_of, closed_act, told_act_of};

    /// A statement without names that are told.
    pub fn new(alloc: Global, act: Act) -> Result<ToldAct, OutOfMemory>
        ensures { IfOk result (λ x. told_act_of x ≡ closed_act [] (act_of act)) }
    {
        let act = Arc::new(alloc, act)?;
        let told = Vec::new(alloc);
        Ok(ToldAct { act, told })
    }
}

/// An item of the trace, by the number of its loop.
#[derive(Drop)]
pub enum Item {
    /// a Free loop
    Free { site: u32 },
    /// the merging of the globals that the Free loop before it reduces
    Reduce { site: u32 },
    /// an Ordered loop
    Ordered { site: u32 },
    /// a statement that is no loop
    Host { act: ToldAct },
}
