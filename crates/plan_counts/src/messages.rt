// How many cells the messages of items have.

ghost use Rattle.std.specs.Prelude.{◌≡◌, ◌<◌, ◌+◌, ◌*◌, ℕ, [], IfOk, length, slice_index, slice_index_or};
ghost use Rattle.mesh_decl.specs.Mesh.{dat_count};
ghost use Rattle.loop_plan.specs.Values.{item_plan_of};
ghost use Rattle.schedule_check.specs.Mail.{rows_of};
ghost use Rattle.plan_counts.specs.Imports.{numbers_of, tabled, cells_by, sent_by};

use crate::sums::{product_of, sum_of};
use loop_plan::ItemPlan;
use mesh_decl::Mesh;
use op_num::OutOfMemory;

// The number at a place, and 0 where there is none.
fn number_at(row: &[u64], at: u32) -> u64
    ensures { result ≡ slice_index row.now at }
{
    match row.get(at as usize) {
        Some(number) => *number,
        None => 0,
    }
}

// The row at a place, and none where there is none.
fn row_at(rows: &[Vec<u64>], at: u32) -> &[u64]
    ensures { result.now ≡ slice_index_or (rows_of rows.now) at [] }
{
    match rows.get(at as usize) {
        Some(row) => row,
        None => &[],
    }
}

// The same of rows.
fn rows_at(sets: &[Vec<Vec<u64>>], at: u32) -> &[Vec<u64>]
    ensures { result.now ≡ slice_index_or (numbers_of sets.now) at [] }
{
    match sets.get(at as usize) {
        Some(rows) => rows,
        None => &[],
    }
}

// How many elements of a set the receiver imports from the sender, by a table.
fn tabled(imports: &[Vec<Vec<u64>>], set: u32, from: u32, to: u32) -> u64
    ensures { result ≡ tabled imports.now set from to }
{
    let rows = rows_at(imports, set);
    let row = row_at(rows, from);
    number_at(row, to)
}

// A total with so many cells more for each of some elements.
fn with_cells(total: u64, dim: u32, elements: u64) -> Result<u64, OutOfMemory>
    ensures { IfOk result (λ n. n ≡ total + dim * elements) }
{
    sum_of(total, product_of(dim as u64, elements)?)
}

// The cells of these dats that the receiver imports from the sender, by a table.
fn message_cells(
    mesh: &Mesh,
    imports: &[Vec<Vec<u64>>],
    exchange: &[u32],
    from: u32,
    to: u32,
) -> Result<u64, OutOfMemory>
    requires { (k : ℕ) → k < length exchange.now → slice_index exchange.now k < dat_count mesh.now }
    ensures { IfOk result (λ n. n ≡ cells_by mesh.now imports.now exchange.now from to) }
{
    let mut total = 0;
    for dat in exchange {
        let (set, dim) = mesh.dat_shape(*dat);
        total = with_cells(total, dim, tabled(imports, set, from, to))?;
    }
    Ok(total)
}

/// The cells of all messages of an item, whose dats are there, by the table of what ranks import. It takes time linear
/// in the messages, for each dat. An error is want of memory, where 64 bits can't count them.
pub fn sent_by(mesh: &Mesh, imports: &[Vec<Vec<u64>>], item: &ItemPlan) -> Result<u64, OutOfMemory>
    requires { (k : ℕ) → k < length item.now.exchange.items → slice_index item.now.exchange.items k < dat_count mesh.now }
    ensures { IfOk result (λ n. n ≡ sent_by mesh.now imports.now (item_plan_of item.now)) }
{
    let mut total = 0u64;
    for pair in &item.pairs {
        let cells = message_cells(mesh, imports, &item.exchange, pair.from, pair.to)?;
        total = sum_of(total, cells)?;
    }
    Ok(total)
}
