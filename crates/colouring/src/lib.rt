//! Colours of the blocks of a rank's places, and of the places within each block.
//!
//! Elements of one colour reduce into no common element, so they may run at once. `specs/Colours.antt` states which
//! places and blocks conflict, and their colours: the least number that no earlier one in conflict has.
#![tactic(auto)]

ghost use Rattle.std.specs.Prelude.{◌≡◌, ◌*◌, ◌<◌, ◌^◌, ℕ, IfOk, length, EachIndex, slice_index};
ghost use Rattle.mesh_decl.specs.declared.owners.Owners.{Owners};
ghost use Rattle.mesh_decl.specs.declared.owners.Perms.{Perms};
ghost use Rattle.local_mesh.specs.LocalMesh.{IsRankMesh};
ghost use Rattle.colouring.specs.Colours.{AreArgs, AreColours};
ghost use Rattle.colouring.specs.Mapped.{AreRowColours};

pub mod block_plan;
mod conflicts;
mod greedy;
mod laws;
mod mapped;
mod masks;
mod meeting;
mod passing;
mod plain;
mod table;
mod types;
mod within;

pub use conflicts::{Clash, find_clash};
pub use laws::{
    common_targets_are_ordered, common_targets_conflict, conflicting_blocks_differ,
    conflicting_places_are_ordered,
};
use local_mesh::RankMesh;
use mapped::columns_map;
use masks::Masks;
use mesh_decl::Mesh;
use op_num::OutOfMemory;
use plain::one_colour;
use std::alloc::Global;
use table::{first_numbers, target_table};
pub use types::{Colours, IncArg};
use within::{block_colours, inner_colours};

// The colours of rows of `width` numbers below `total` each, in blocks of `size`.
fn row_colours(
    alloc: Global,
    table: &[u32],
    width: usize,
    places: u32,
    size: u32,
    total: u32,
) -> Result<Colours, OutOfMemory>
    requires size { 0 < size }
    requires table { length table.now ≡ places * width }
    requires few { length table.now < 2 ^ 61 }
    requires targets { EachIndex table.now (λ k. slice_index table.now k < total) }
    ensures { IfOk result (AreRowColours table.now width places size) }
{
    let mut masks = Masks::new(alloc, total)?;
    let inner = inner_colours(alloc, table, width, places, size, &mut masks)?;
    let blocks = block_colours(alloc, table, width, places, size, &mut masks)?;
    Ok(Colours { blocks, inner })
}

// The colours for the first `places` of what the rank executes, in blocks of `size`, where these arguments reduce.
fn target_colours(
    alloc: Global,
    mesh: &Mesh,
    rank: &RankMesh,
    args: &[IncArg],
    places: u32,
    size: u32,
) -> Result<Colours, OutOfMemory>
    requires rank { (o : Owners) × (p : Perms) × (r : ℕ) × IsRankMesh mesh.now o p r rank.now }
    requires args { AreArgs mesh.now rank.now.sets.items places args.now }
    requires size { 0 < size }
    ensures { IfOk result (AreColours mesh.now rank.now.maps.items args.now places size) }
{
    mesh.is_in_range();
    let (starts, total) = first_numbers(alloc, mesh, rank, args)?;
    match columns_map(mesh, args, &starts) {
        Some(map) => {
            let targets = rank.maps[map as usize].as_slice();
            let table = &targets[..places as usize * args.len()];
            row_colours(alloc, table, args.len(), places, size, total)
        }
        None => {
            let table = target_table(alloc, mesh, rank, args, &starts, total, places)?;
            row_colours(alloc, &table, args.len(), places, size, total)
        }
    }
}

/// The colours for the first `places` of what the rank executes, in blocks of `size`, where these arguments reduce.
///
/// It goes through the places once, and through the blocks once. A place or block looks, for each of its targets, at
/// masks of 32 colours in turn, and passes in one step over those that one of its targets, or two of them together, are
/// known to fill; so time is linear in the targets where they have few colours, on a star, and where the colours of two
/// hubs interleave. At worst it is that of one look at each target for each 32 colours below the one that is found.
/// Memory is linear in the targets; where the arguments lead by all targets of one map in order, its table is read in
/// place; where no arguments reduce, no target is looked at. It fails only for want of memory, also where there are 2 ^
/// 32 - 1 targets or more.
pub fn colour(
    alloc: Global,
    mesh: &Mesh,
    rank: &RankMesh,
    args: &[IncArg],
    places: u32,
    size: u32,
) -> Result<Colours, OutOfMemory>
    requires rank { (o : Owners) × (p : Perms) × (r : ℕ) × IsRankMesh mesh.now o p r rank.now }
    requires args { AreArgs mesh.now rank.now.sets.items places args.now }
    requires size { 0 < size }
    ensures { IfOk result (AreColours mesh.now rank.now.maps.items args.now places size) }
{
    if args.is_empty() {
        return one_colour(alloc, places, size);
    }
    target_colours(alloc, mesh, rank, args, places, size)
}
