// What the elements of a loop that run in rows have in common, and the room that they take.

ghost use Rattle.std.specs.Prelude.{IfOk};
ghost use Rattle.kernel_runs.specs.RowLoops.{HasRowRoom};

use crate::row_batches::ways::LocalVia;
use kernel_code::Code;
use kernel_columns::{Column, Numbers, ROWS};
use kernel_model::types::views::Place;
use op_num::reductions::Access;
use rank_state::Scalar;
use std::alloc::{AllocError, Global};

/// A column of the frame that has a component of a dat's elements: those that arguments reach in one way. Arguments
/// with one dat, map and index share it.
#[derive(Clone, Copy)]
pub struct RowColumn {
    /// The number of the way among those of the loop.
    pub way: usize,
    /// The cell of the rank's buffer that holds the component of the element with the local number 0.
    pub cell: usize,
    /// How many cells each element has, at least one.
    pub dim: usize,
    /// What the arguments that share it may do together: OP_RW where some read and others write.
    pub access: Access,
}

/// A loop on a rank, whose elements run in rows. A row of the frame has a cell for each of `columns`, and behind them
/// one for each of `scalars`.
#[derive(Drop)]
pub struct RowLoop<'a> {
    /// The code of the loop's kernel.
    pub code: &'a Code<'a>,
    /// The different ways in which arguments reach elements: by no map or by a map and an index.
    pub ways: &'a [Option<LocalVia<'a>>],
    /// The components of arguments on dats, each with its own way.
    pub columns: &'a [RowColumn],
    /// The cells of arguments on variables.
    pub scalars: &'a [Scalar],
    /// Where the cells of each of the kernel's arguments stand in a row's frame.
    pub places: &'a [Place],
    /// Pairs of numbers of ways that must not lead from one place to one element.
    pub pairs: &'a [(usize, usize)],
    /// Whether the places of a batch must differ, as where an argument without a map is stored to.
    pub differ: bool,
    /// The values of the constants, and those of all variables' cells.
    pub constants: &'a [i32],
    pub variables: &'a [i32],
}

/// Room for a batch. What stands there means nothing between two batches.
#[derive(Drop)]
pub struct RowRoom {
    /// The local numbers of the elements that each way reaches.
    pub numbers: Vec<Numbers>,
    /// The columns of the arguments' cells.
    pub frame: Vec<Column>,
    /// The columns of the code's slots.
    pub scratch: Vec<Column>,
}

impl RowRoom {
    /// Room for batches of loops with at most so many ways, columns and scalars together, and slots.
    pub fn new(
        alloc: Global,
        ways: usize,
        columns: usize,
        slots: usize,
    ) -> Result<RowRoom, AllocError>
        ensures { IfOk result (λ r. HasRowRoom ways columns slots r) }
    {
        Ok(RowRoom {
            numbers: vec![in alloc; [0; ROWS]; ways]?,
            frame: vec![in alloc; [0; ROWS]; columns]?,
            scratch: vec![in alloc; [0; ROWS]; slots]?,
        })
    }
}
