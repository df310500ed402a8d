// What the machine looks up while it runs, made once for a program, its distribution and its plan.

ghost use Rattle.std.specs.Prelude.{◌≡◌, ◌<◌, length};
ghost use Rattle.rank_layout.specs.Made as the;

use rank_state::{Operation, Scalar};

/// Tables of a bound program on several ranks with its plan. A variable's cell goes by its number among the cells of
/// all variables.
#[derive(Drop)]
pub struct MachineTables {
    /// The constants' cells, by the numbers that kernels give them.
    pub constants: Vec<usize>,
    /// Where each variable begins among the cells of all variables.
    pub starts: Vec<usize>,
    /// How each slot of the partials is merged.
    pub slots: Vec<Operation>,
    /// By loop, the cells of its arguments on variables, in the order of the arguments.
    pub scalars: Vec<Vec<Scalar>>,
    /// By loop, the numbers of the same cells.
    pub indices: Vec<Vec<usize>>,
    /// By loop and argument, whether the loop modifies the argument's dat; `true` for one on a variable.
    pub writes: Vec<Vec<bool>>,
    /// By loop, whether no part of its kernel that may fault can run after a store through an argument.
    pub faults_first: Vec<bool>,
    /// The most places of a loop, by rank.
    pub places: Vec<usize>,
    /// The most cells of an element's frame.
    pub stride: usize,
    /// The most spans of an element's frame or of a message.
    pub spans: usize,
}

/// The row of a table for the loop numbered `site`.
pub fn row_of<T: Drop>(rows: &[Vec<T>], site: u32) -> &[T]
    requires { site < length rows.now }
    ensures { result.now ≡ the.row_of rows.now site }
{
    &rows[site as usize]
}
