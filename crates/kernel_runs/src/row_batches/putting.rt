// Columns that are put back, in the first rows: stored or merged into the memory, and merged into the partials.

ghost use Rattle.std.specs.Prelude.{◌≡◌, ◌<◌, ◌≤◌, ◌+◌, ℕ, [], length, drop, get_or};
ghost use Rattle.kernel_columns.specs.declared.columns.TheConstants.{ROWS};
ghost use Rattle.kernel_columns.specs.Rows.{RowsFit};
ghost use Rattle.rank_state.specs.Windows.{InSlots, Merges};
ghost use Rattle.kernel_runs.specs.Filled.{ColumnStands, ColumnsStand};
ghost use Rattle.kernel_runs.specs.RowLoops.{scalar_in};
ghost use Rattle.kernel_runs.specs.Put.{NumbersPut, AllNumbersPut, AmountsFit, column_put_back, put_back, total_of, total_put, totals};

use crate::row_batches::rows::RowColumn;
use kernel_columns::{Column, Numbers, merge, merge_all, store};
use op_num::reductions::{Access, Greatest, Least, Sum};
use rank_state::{Operation, Scalar};

// Puts back a column of a dat's component in so many rows.
fn put_column(
    column: &RowColumn,
    numbers: &[Numbers],
    cells: &Column,
    rows: usize,
    memory: &mut [i32],
)
    requires stand { ColumnStands numbers.now rows (length memory.old) column.now }
    requires few { rows ≤ ROWS }
    ensures memory { memory.new ≡ column_put_back numbers.now rows column.now cells.now memory.old }
    ensures numbers { NumbersPut numbers.now rows column.now cells.now memory.old }
{
    match column.access {
        Access::Read => {}
        Access::Write | Access::Rw => store(
            memory,
            &numbers[column.way],
            column.cell,
            column.dim,
            cells,
            rows,
        ),
        Access::Inc => merge::<Sum>(
            memory,
            &numbers[column.way],
            column.cell,
            column.dim,
            cells,
            rows,
        ),
        Access::Min => merge::<Least>(
            memory,
            &numbers[column.way],
            column.cell,
            column.dim,
            cells,
            rows,
        ),
        Access::Max => merge::<Greatest>(
            memory,
            &numbers[column.way],
            column.cell,
            column.dim,
            cells,
            rows,
        ),
    }
}

/// Puts back the columns of the dats' components in the first rows, at most 64, one column after another. The numbers
/// that it reads are of 32 bits: those of the columns, and those into which it merges.
pub fn put_columns(
    columns: &[RowColumn],
    numbers: &[Numbers],
    frame: &[Column],
    rows: usize,
    memory: &mut [i32],
)
    requires stand { ColumnsStand numbers.now rows (length memory.old) columns.now }
    requires room { length columns.now ≤ length frame.now }
    requires few { rows ≤ ROWS }
    ensures memory { memory.new ≡ put_back numbers.now rows columns.now frame.now (length columns.now) memory.old }
    ensures numbers { AllNumbersPut numbers.now rows columns.now frame.now (length columns.now) memory.old }
{
    for (c, column) in columns.iter().enumerate() {
        put_column(column, numbers, &frame[c], rows, memory);
    }
}

// The amounts of the first rows, merged into a number.
fn total(how: Operation, number: i32, cells: &Column, rows: usize) -> i32
    requires { rows ≤ ROWS }
    ensures total { result ≡ total_of rows how cells.now number }
    ensures numbers { RowsFit rows cells.now }
{
    match how {
        Operation::Sum => merge_all::<Sum>(number, cells, rows),
        Operation::Least => merge_all::<Least>(number, cells, rows),
        Operation::Greatest => merge_all::<Greatest>(number, cells, rows),
    }
}

// Merges the amounts of a scalar's column in the first rows into its partial.
fn merge_scalar(scalar: Scalar, cells: &Column, rows: usize, partials: &mut [i32])
    requires inside { InSlots (length partials.old) scalar }
    requires few { rows ≤ ROWS }
    ensures partials { partials.new ≡ total_put rows scalar cells.now partials.old }
    ensures numbers { AmountsFit rows scalar cells.now }
{
    if let Scalar::Amount { slot, how, .. } = scalar {
        partials[slot] = total(how, partials[slot], cells, rows);
    }
}

/// Merges the amounts of the first rows, at most 64, into the partials. The columns of the scalars stand behind so many
/// others. The amounts are numbers of 32 bits.
pub fn merge_scalars(
    scalars: &[Scalar],
    frame: &[Column],
    from: usize,
    rows: usize,
    partials: &mut [i32],
)
    requires inside { Merges (length partials.old) scalars.now }
    requires room { from + length scalars.now ≤ length frame.now }
    requires few { rows ≤ ROWS }
    ensures partials { partials.new ≡ totals rows scalars.now (drop from frame.now) partials.old }
    ensures numbers { (j : ℕ) → j < length scalars.now
        → AmountsFit rows (scalar_in scalars.now j) (get_or frame.now (from + j) []) }
{
    for (j, scalar) in scalars.iter().enumerate() {
        merge_scalar(*scalar, &frame[from + j], rows, partials);
    }
}
