// Whether given colours keep conflicts apart.
ghost use Rattle.std.specs.Prelude.{◌≡◌, ◌<◌, ◌≤◌, ◌*◌, ◌^◌, ◌↔◌, ℕ, true, IfOk, length, slice_index, EachIndex};
ghost use Rattle.mesh_decl.specs.declared.owners.Owners.{Owners};
ghost use Rattle.mesh_decl.specs.declared.owners.Perms.{Perms};
ghost use Rattle.local_mesh.specs.LocalMesh.{IsRankMesh};
ghost use Rattle.colouring.specs.Colours.{AreArgs};
ghost use Rattle.colouring.specs.Clashes.{ClashIs};
ghost use Rattle.colouring.specs.Meeting.{BlocksAlike, PlacesAlike};
ghost use Rattle.colouring.specs.Rows.{none};

use crate::block_plan::{bounds, count};
use crate::meeting::{order_rows, rows_meet};
use crate::table::{first_numbers, target_table};
use crate::types::{Colours, IncArg};
use local_mesh::RankMesh;
use mesh_decl::Mesh;
use op_num::OutOfMemory;
use std::alloc::Global;

/// What has one colour though it is in conflict.
#[derive(Clone, Copy, Debug, PartialEq, Eq)]
pub enum Clash {
    /// Two blocks.
    Blocks,
    /// Two places of one block.
    Places,
}

// Whether two blocks of one colour have places with a common target.
fn blocks_meet(
    alloc: Global,
    table: &[u32],
    width: usize,
    places: u32,
    size: u32,
    colours: &[u32],
    total: u32,
) -> Result<bool, OutOfMemory>
    requires size { 0 < size }
    requires count { (b : ℕ) → (b < length colours.now) ↔ (b * size < places) }
    requires table { length table.now ≡ places * width }
    requires few { length table.now < 2 ^ 61 }
    requires targets { EachIndex table.now (λ k. slice_index table.now k < total) }
    ensures { IfOk result (λ m. (m ≡ true) ↔ BlocksAlike table.now width places size colours.now) }
{
    let mut marks = vec![in alloc; u32::MAX; total as usize]?;
    let mut order = Vec::new(alloc);
    order_rows(&mut order, colours, 0, count(places, size))?;
    let step = size.min(places) as usize * width;
    Ok(rows_meet(table, step, colours, 0, &mut marks, &order))
}

// Whether two places of one block and one colour have a common target, where none is marked yet.
fn marked_places_meet(
    table: &[u32],
    width: usize,
    places: u32,
    size: u32,
    colours: &[u32],
    marks: &mut [u32],
    order: &mut Vec<u32>,
) -> Result<bool, OutOfMemory>
    requires size { 0 < size }
    requires count { length colours.now ≡ places }
    requires table { length table.now ≡ places * width }
    requires few { length table.now < 2 ^ 61 }
    requires targets { EachIndex table.now (λ k. slice_index table.now k < length marks.old) }
    requires marks { (t : ℕ) → t < length marks.old → slice_index marks.old t ≡ none }
    ensures { IfOk result (λ m. (m ≡ true) ↔ PlacesAlike table.now width size colours.now places) }
{
    for block in 0..count(places, size) {
        let (first, last) = bounds(block, places, size);
        order_rows(order, colours, first, last)?;
        if rows_meet(table, width, colours, first, marks, order) {
            return Ok(true);
        }
    }
    Ok(false)
}

// Whether two places of one block and one colour have a common target.
fn places_meet(
    alloc: Global,
    table: &[u32],
    width: usize,
    places: u32,
    size: u32,
    colours: &[u32],
    total: u32,
) -> Result<bool, OutOfMemory>
    requires size { 0 < size }
    requires count { length colours.now ≡ places }
    requires table { length table.now ≡ places * width }
    requires few { length table.now < 2 ^ 61 }
    requires targets { EachIndex table.now (λ k. slice_index table.now k < total) }
    ensures { IfOk result (λ m. (m ≡ true) ↔ PlacesAlike table.now width size colours.now places) }
{
    let mut marks = vec![in alloc; u32::MAX; total as usize]?;
    let mut order = Vec::new(alloc);
    marked_places_meet(table, width, places, size, colours, &mut marks, &mut order)
}

/// Whether given colours for the first `places` of what the rank executes, in blocks of `size`, keep conflicts apart,
/// where these arguments reduce: none where they do, else what doesn't, blocks before places. `colours` has a colour
/// for each block and each place.
///
/// Each target keeps the last block, or place, that had it, and blocks and places go by colour: so the time is linear
/// in the targets and n log n in blocks and places, and no pair is looked at. It fails only for want of memory, also
/// where there are 2 ^ 32 - 1 targets or more.
pub fn find_clash(
    alloc: Global,
    mesh: &Mesh,
    rank: &RankMesh,
    args: &[IncArg],
    places: u32,
    size: u32,
    colours: &Colours,
) -> Result<Option<Clash>, OutOfMemory>
    requires rank { (o : Owners) × (p : Perms) × (r : ℕ) × IsRankMesh mesh.now o p r rank.now }
    requires args { AreArgs mesh.now rank.now.sets.items places args.now }
    requires size { 0 < size }
    requires blocks { (b : ℕ) → (b < length colours.now.blocks.items) ↔ (b * size < places) }
    requires inner { length colours.now.inner.items ≡ places }
    ensures { IfOk result (ClashIs mesh.now rank.now.maps.items args.now places size colours.now.blocks.items colours.now.inner.items) }
{
    mesh.is_in_range();
    let (starts, total) = first_numbers(alloc, mesh, rank, args)?;
    let table = target_table(alloc, mesh, rank, args, &starts, total, places)?;
    let width = args.len();
    let blocks = blocks_meet(alloc, &table, width, places, size, &colours.blocks, total)?;
    if blocks {
        return Ok(Some(Clash::Blocks));
    }
    let inner = places_meet(alloc, &table, width, places, size, &colours.inner, total)?;
    if inner {
        return Ok(Some(Clash::Places));
    }
    Ok(None)
}
