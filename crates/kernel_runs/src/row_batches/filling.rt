// Columns that are filled for a batch, in the first rows: with the components that the loop reads, and with units where
// it reduces.

ghost use Rattle.std.specs.Prelude.{◌≡◌, ◌<◌, ◌≤◌, ◌+◌, ℕ, [], length, get_or};
ghost use Rattle.kernel_columns.specs.declared.columns.TheConstants.{ROWS};
ghost use Rattle.kernel_columns.specs.Rows.{at_row};
ghost use Rattle.rank_state.specs.Windows.{index, first, Reads};
ghost use Rattle.kernel_runs.specs.RowLoops.{column_in, scalar_in};
ghost use Rattle.kernel_runs.specs.Filled.{ColumnStands, ColumnsStand, IsFilled};

use crate::row_batches::rows::RowColumn;
use kernel_columns::{Column, Numbers, gather};
use op_num::reductions::{Access, Greatest, Least, Merge, Sum};
use rank_state::{Operation, Scalar};

/// The same number in each of the first rows, at most 64.
pub fn fill_with(column: &mut Column, number: i32, rows: usize)
    requires { rows ≤ ROWS }
    ensures { (l : ℕ) → l < rows → at_row l column.new ≡ number }
{
    for l in 0..rows {
        column[l] = number;
    }
}

// Fills a column of a dat's component.
fn fill_column(
    column: &RowColumn,
    numbers: &[Numbers],
    memory: &[i32],
    cells: &mut Column,
    rows: usize,
)
    requires stands { ColumnStands numbers.now rows (length memory.now) column.now }
    requires few { rows ≤ ROWS }
    ensures { IsFilled numbers.now rows memory.now column.now cells.new }
{
    match column.access {
        Access::Read | Access::Rw => gather(
            memory,
            &numbers[column.way],
            column.cell,
            column.dim,
            cells,
            rows,
        ),
        Access::Write => {}
        Access::Inc => fill_with(cells, Sum::unit(), rows),
        Access::Min => fill_with(cells, Least::unit(), rows),
        Access::Max => fill_with(cells, Greatest::unit(), rows),
    }
}

/// Fills the columns of the dats' components, the first ones of the frame.
pub fn fill_columns(
    columns: &[RowColumn],
    numbers: &[Numbers],
    memory: &[i32],
    frame: &mut [Column],
    rows: usize,
)
    requires stand { ColumnsStand numbers.now rows (length memory.now) columns.now }
    requires room { length columns.now ≤ length frame.old }
    requires few { rows ≤ ROWS }
    ensures { (c : ℕ) → c < length columns.now
        → IsFilled numbers.now rows memory.now (column_in columns.now c) (get_or frame.new c []) }
{
    for (c, column) in columns.iter().enumerate() {
        fill_column(column, numbers, memory, &mut frame[c], rows);
    }
}

// The first value of a scalar.
fn first_value(variables: &[i32], scalar: Scalar) -> i32
    requires { index scalar < length variables.now }
    ensures { result ≡ first variables.now scalar }
{
    match scalar {
        Scalar::Value { at } => variables[at],
        Scalar::Amount { how, .. } => match how {
            Operation::Sum => Sum::unit(),
            Operation::Least => Least::unit(),
            Operation::Greatest => Greatest::unit(),
        },
    }
}

/// Fills the columns of the scalars, behind so many others.
pub fn fill_scalars(
    scalars: &[Scalar],
    variables: &[i32],
    from: usize,
    frame: &mut [Column],
    rows: usize,
)
    requires inside { Reads (length variables.now) scalars.now }
    requires room { from + length scalars.now ≤ length frame.old }
    requires few { rows ≤ ROWS }
    ensures filled { (j l : ℕ) → j < length scalars.now → l < rows
        → at_row l (get_or frame.new (from + j) []) ≡ first variables.now (scalar_in scalars.now j) }
    ensures kept { (c : ℕ) → c < from → get_or frame.new c [] ≡ get_or frame.old c [] }
{
    for (j, scalar) in scalars.iter().enumerate() {
        let number = first_value(variables, *scalar);
        fill_with(&mut frame[from + j], number, rows);
    }
}
