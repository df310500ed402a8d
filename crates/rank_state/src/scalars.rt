// The cells of variables that an element's windows have behind those of dats.

/// How amounts are merged into a cell, as OP_INC, OP_MIN and OP_MAX of the OP2 API do it.
#[derive(Clone, Copy, PartialEq, Eq, Debug)]
pub enum Operation {
    /// their sum
    Sum,
    /// the least
    Least,
    /// the greatest
    Greatest,
}

/// A cell of a variable in an element's windows; `at` is its number among the cells of all variables.
#[derive(Clone, Copy, PartialEq, Eq, Debug)]
pub enum Scalar {
    /// a cell that the loop reads
    Value {
        at: usize,
    },
    /// a cell into which the loop reduces, with the number of its partial on each rank
    Amount {
        at: usize,
        slot: usize,
        how: Operation,
    },
}
