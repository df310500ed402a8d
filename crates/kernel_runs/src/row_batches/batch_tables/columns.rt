// The columns of a row's frame: the components of arguments on dats.

ghost use Rattle.std.specs.Prelude.{◌≡◌, ◌<◌, ◌≤◌, ◌+◌, ◌^◌, ℕ, IfSome, true, length, get_or};
ghost use Rattle.kernel_runs.specs.RowLoops.{no_column};
ghost use Rattle.kernel_runs.specs.Alike.{arg_in, same_column};
ghost use Rattle.kernel_runs.specs.Tables.{AreColumns, IsStored};

use crate::row_batches::RowColumn;
use crate::row_batches::batch_tables::access::shared_access;
use crate::row_batches::batch_tables::alike::first_column;
use crate::row_batches::batch_tables::args::LocalArg;
use bound_program::{Access, Arg};
use kernel_model::types::views::Place;

// Puts down a column for each component of an argument's elements, of which the first is `column`, from a number on.
fn put_components(columns: &mut [RowColumn], from: usize, column: RowColumn)
    requires room { from + column.dim ≤ length columns.old }
    requires cells { column.cell + column.dim < 2 ^ 64 }
    ensures before { (c : ℕ) → c < from → get_or columns.new c no_column ≡ get_or columns.old c no_column }
    ensures are { (j : ℕ) → j < column.dim
        → get_or columns.new (from + j) no_column ≡ record column { cell = column.cell + j } }
{
    for j in 0..column.dim {
        columns[from + j] = RowColumn {
            cell: column.cell + j,
            ..column
        };
    }
}

/// Puts down the columns of the components of all arguments on dats, and by argument where its columns stand in a row's
/// frame. Arguments that reach one dat in one way share columns. `numbers` are those of their ways. Answers how many
/// columns there are; none where there is no room for them, or where arguments reduce into a column that others use
/// otherwise.
pub fn put_columns(
    args: &[Arg],
    locals: &[Option<LocalArg<'_>>],
    numbers: &[usize],
    columns: &mut [RowColumn],
    places: &mut [Place],
) -> Option<usize>
    requires locals { length locals.now ≡ length args.now }
    requires numbers { length numbers.now ≡ length args.now }
    requires places { length places.old ≡ length args.now }
    requires few { length columns.old < 2 ^ 32 }
    requires cells { (a : ℕ) → a < length args.now → IfSome (get_or locals.now a None) (λ y. y.base + y.dim < 2 ^ 64) }
    requires dats { (a : ℕ) → a < length args.now
        → IfSome (get_or locals.now a None) (λ y. same_column (arg_in args.now a) (arg_in args.now a) ≡ true) }
    ensures { IfSome result (AreColumns args.now locals.now numbers.now columns.new places.new (length args.now)) }
{
    let mut count = 0;
    for a in 0..args.len() {
        if let Some(local) = locals[a] {
            let first = first_column(args, a);
            let mut from = places[first].from;
            if first == a {
                let access = shared_access(args, a)?;
                if local.dim > columns.len() - count {
                    return None;
                }
                from = count;
                let column = RowColumn {
                    way: numbers[a],
                    cell: local.base,
                    dim: local.dim,
                    access,
                };
                put_components(columns, from, column);
                count += local.dim;
            }
            places[a] = Place {
                from,
                count: local.dim,
            };
        }
    }
    Some(count)
}

/// Whether a column is stored to.
pub fn stores(columns: &[RowColumn]) -> bool
    ensures { (c : ℕ) → c < length columns.now → IsStored (get_or columns.now c no_column) → result ≡ true }
{
    for column in columns {
        match column.access {
            Access::Write => return true,
            Access::Rw => return true,
            _ => {}
        }
    }
    false
}
