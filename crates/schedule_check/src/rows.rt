// By item and message how many cells the message has, and the most of these.
ghost use Rattle.std.specs.Prelude.{◌≡◌, ◌<◌, ◌≤◌, ℕ, IfOk, length, map, Vec, [], slice_index, slice_index_or};
ghost use Rattle.std.specs.declared.alloc.Global.{Global as GlobalValue};
ghost use Rattle.loop_plan.specs.Values.{item_plan_of};
ghost use Rattle.loop_plan.specs.ItemPlans.{plan_in};
ghost use Rattle.schedule_check.specs.Mail.{AreDistinct, IsInside, row_of, rows_of};

use crate::cells::message_cells;
use local_mesh::RankMesh;
use loop_plan::ItemPlan;
use mesh_decl::Mesh;
use op_num::OutOfMemory;
use std::alloc::Global;

// By message of an item, its cells.
fn item_cells(
    alloc: Global,
    mesh: &Mesh,
    ranks: &[RankMesh],
    item: &ItemPlan,
) -> Result<Vec<u64>, OutOfMemory>
    requires ranks { AreDistinct mesh.now ranks.now }
    requires item { IsInside mesh.now ranks.now (item_plan_of item.now) }
    ensures { IfOk result (λ v. v.items ≡ row_of mesh.now ranks.now (item_plan_of item.now)) }
{
    let mut row = Vec::new(alloc);
    for pair in &item.pairs {
        row.push(message_cells(mesh, ranks, &item.exchange, pair.from, pair.to)?)?;
    }
    Ok(row)
}

/// By item and message, the cells of the message.
pub fn all_cells(
    alloc: Global,
    mesh: &Mesh,
    ranks: &[RankMesh],
    items: &[ItemPlan],
) -> Result<Vec<Vec<u64>>, OutOfMemory>
    requires ranks { AreDistinct mesh.now ranks.now }
    requires items { (k : ℕ) → k < length items.now → IsInside mesh.now ranks.now (plan_in items.now k) }
    ensures { IfOk result (λ v. (k : ℕ) → k < length items.now
        → slice_index_or (rows_of v.items) k [] ≡ row_of mesh.now ranks.now (plan_in items.now k)) }
{
    let mut rows = Vec::new(alloc);
    for item in 0..items.len() {
        rows.push(item_cells(alloc, mesh, ranks, &items[item])?)?;
    }
    Ok(rows)
}

// The largest of these numbers.
fn largest_in(numbers: &[u64]) -> u64
    ensures { (i : ℕ) → slice_index numbers.now i ≤ result }
{
    let mut largest = 0;
    for number in numbers {
        if largest < *number {
            largest = *number;
        }
    }
    largest
}

/// The largest number of all rows.
pub fn largest(rows: &[Vec<u64>]) -> u64
    ensures { (k i : ℕ) → slice_index (slice_index_or (rows_of rows.now) k []) i ≤ result }
{
    let mut largest = 0;
    for row in rows {
        largest = largest_in(row).max(largest);
    }
    largest
}
