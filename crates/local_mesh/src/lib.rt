//! The local mesh of each rank: which elements it has, how it numbers them, the local targets of what it executes, and
//! where the cells of its dats stand.
//!
//! A rank numbers a set locally: what it owns, then what it imports to execute, then what it imports to read, each by
//! increasing new number of a renumbering. `specs/Local.antt` states local numbers as counts, `specs/LocalMesh.antt`
//! what a local mesh holds.
#![tactic(auto)]

ghost use Rattle.std.specs.Prelude.{◌≡◌, ℕ, ◌<◌, ◌≤◌, ◌^◌, IfOk, length, slice_index_or};
ghost use Rattle.lemmas.specs.Below.{row};
ghost use Rattle.mesh_decl.specs.Mesh.{set_count, map_count, set_size};
ghost use Rattle.mesh_decl.specs.Owners.{AreOwners, ArePerms};
ghost use Rattle.local_mesh.specs.Halos.{IsSetHalo, AreHalos};
ghost use Rattle.local_mesh.specs.Parts.{AreGroups};
ghost use Rattle.local_mesh.specs.LocalMesh.{AreClosed, AreLocalTargets, AreBases, AreRankMeshes};

mod cells;
mod groups;
pub mod halo_lists;
mod kept;
mod laws;
mod lists;
mod local_numbers;
mod lookup;
mod number_laws;
mod numbers;
mod originals;
pub mod rank_sets;
mod targets;
mod types;
mod whole;

use crate::halo_lists::{Halos, SetHalo, executed_targets_are_copies};
use cells::first_cells;
use groups::groups_by_rank;
use kept::{is_kept, kept_groups};
pub use laws::{cells_are_of_copies, originals_are_copies, places_are_disjoint, places_fit};
pub use lists::{LocalLists, local_lists};
pub use local_numbers::LocalNumbers;
use mesh_decl::{Mesh, Owners, Perms};
pub use number_laws::{
    core_is_marked, equal_targets_are_local, executed_come_first, one_rank_meshes,
    originals_are_distinct, originals_are_held, owned_come_first, rank_meshes_are_closed,
    targets_are_local,
};
use numbers::local_sets;
use op_num::OutOfMemory;
pub use originals::Originals;
use std::alloc::Global;
use targets::local_maps;
use types::Groups;
pub use types::{LocalSet, RankMesh};
use whole::whole_sets;

// The groups of one set.
fn groups_of(
    alloc: Global,
    mesh: &Mesh,
    owners: &Owners,
    halo: &SetHalo,
    perms: &Perms,
    set: u32,
) -> Result<Groups, OutOfMemory>
    requires owners { AreOwners mesh.now owners.now }
    requires halo { IsSetHalo mesh.now owners.now set halo.now }
    requires perms { ArePerms mesh.now perms.now }
    requires set { set < set_count mesh.now }
    ensures { IfOk result (AreGroups mesh.now owners.now perms.now set) }
{
    mesh.is_in_range();
    let by = owners.of_set(set);
    let order = perms.of_set(set);
    let ranks = owners.ranks;
    if is_kept(order) {
        let groups = kept_groups(alloc, by, &halo.exec, &halo.nonexec, order, ranks)?;
        return Ok(groups);
    }
    let groups = groups_by_rank(alloc, by, &halo.exec, &halo.nonexec, order, ranks)?;
    Ok(groups)
}

// The groups of each set.
fn all_groups(
    alloc: Global,
    mesh: &Mesh,
    owners: &Owners,
    halos: &Halos,
    perms: &Perms,
) -> Result<Vec<Groups>, OutOfMemory>
    requires owners { AreOwners mesh.now owners.now }
    requires halos { AreHalos mesh.now owners.now halos.now }
    requires perms { ArePerms mesh.now perms.now }
    ensures count { IfOk result (λ v. length v.items ≡ set_count mesh.now) }
    ensures groups { IfOk result (λ v. (s : ℕ) (d : Groups) → s < set_count mesh.now
        → AreGroups mesh.now owners.now perms.now s (slice_index_or v.items s d)) }
{
    let mut groups = Vec::new(alloc);
    for set in 0..mesh.set_count() {
        let halo = &halos.sets[set as usize];
        groups.push(groups_of(alloc, mesh, owners, halo, perms, set)?)?;
    }
    Ok(groups)
}

// The size of the largest set.
fn largest_size(mesh: &Mesh) -> u32
    ensures { (s : ℕ) → s < set_count mesh.now → set_size mesh.now s ≤ result }
{
    let mut largest = 0;
    for set in 0..mesh.set_count() {
        let size = mesh.set_size(set);
        if largest < size {
            largest = size;
        }
    }
    largest
}

// The local mesh of a rank with these sets. What is in `scratch` is lost.
fn rank_mesh(
    alloc: Global,
    mesh: &Mesh,
    sets: Vec<LocalSet>,
    scratch: &mut [u32],
) -> Result<RankMesh, OutOfMemory>
    requires closed { AreClosed mesh.now sets.items }
    requires scratch { (s : ℕ) → s < set_count mesh.now → set_size mesh.now s ≤ length scratch.old }
    ensures sets { IfOk result (λ m. m.sets.items ≡ sets.items) }
    ensures maps_count { IfOk result (λ m. length m.maps.items ≡ map_count mesh.now) }
    ensures maps { IfOk result (λ m. (k : ℕ) → k < map_count mesh.now → AreLocalTargets mesh.now k sets.items (row m.maps.items k)) }
    ensures bases { IfOk result (λ m. AreBases mesh.now sets.items m.bases.items m.cells) }
{
    let maps = local_maps(alloc, mesh, &sets, scratch)?;
    let (bases, cells) = first_cells(alloc, mesh, &sets)?;
    Ok(RankMesh {
        sets,
        maps,
        bases,
        cells,
    })
}

// The local mesh of the one rank. What is in `scratch` is lost.
fn whole_mesh(
    alloc: Global,
    mesh: &Mesh,
    owners: &Owners,
    halos: &Halos,
    perms: &Perms,
    scratch: &mut [u32],
) -> Result<Vec<RankMesh>, OutOfMemory>
    requires owners { AreOwners mesh.now owners.now }
    requires one { owners.now.ranks ≡ 1 }
    requires halos { AreHalos mesh.now owners.now halos.now }
    requires perms { ArePerms mesh.now perms.now }
    requires scratch { (s : ℕ) → s < set_count mesh.now → set_size mesh.now s ≤ length scratch.old }
    ensures { IfOk result (λ v. AreRankMeshes mesh.now owners.now perms.now v.items) }
{
    executed_targets_are_copies();
    mesh.is_in_range();
    let sets = whole_sets(alloc, mesh, owners, halos, perms, scratch)?;
    let rank = rank_mesh(alloc, mesh, sets, scratch)?;
    let mut ranks = Vec::new(alloc);
    ranks.push(rank)?;
    Ok(ranks)
}

// The local mesh of each rank.
fn rank_meshes(
    alloc: Global,
    mesh: &Mesh,
    owners: &Owners,
    halos: &Halos,
    perms: &Perms,
    scratch: &mut [u32],
) -> Result<Vec<RankMesh>, OutOfMemory>
    requires owners { AreOwners mesh.now owners.now }
    requires halos { AreHalos mesh.now owners.now halos.now }
    requires perms { ArePerms mesh.now perms.now }
    requires scratch { (s : ℕ) → s < set_count mesh.now → set_size mesh.now s ≤ length scratch.old }
    ensures { IfOk result (λ v. AreRankMeshes mesh.now owners.now perms.now v.items) }
{
    executed_targets_are_copies();
    mesh.is_in_range();
    let groups = all_groups(alloc, mesh, owners, halos, perms)?;
    let mut ranks = Vec::new(alloc);
    for rank in 0..owners.ranks {
        let sets = local_sets(alloc, &groups, halos, rank, scratch)?;
        ranks.push(rank_mesh(alloc, mesh, sets, scratch)?)?;
    }
    Ok(ranks)
}

/// The local mesh of each rank, by `owners`, their halos, and new numbers.
///
/// It takes time linear in the elements and in what the ranks have, and fails only for want of memory, also where a
/// rank would have 2 ^ 64 cells or more.
pub fn localise(
    alloc: Global,
    mesh: &Mesh,
    owners: &Owners,
    halos: &Halos,
    perms: &Perms,
) -> Result<Vec<RankMesh>, OutOfMemory>
    requires owners { AreOwners mesh.now owners.now }
    requires halos { AreHalos mesh.now owners.now halos.now }
    requires perms { ArePerms mesh.now perms.now }
    ensures { IfOk result (λ v. AreRankMeshes mesh.now owners.now perms.now v.items) }
{
    let mut scratch = vec![in alloc; 0; largest_size(mesh) as usize]?;
    if owners.ranks == 1 {
        let whole = whole_mesh(alloc, mesh, owners, halos, perms, &mut scratch)?;
        return Ok(whole);
    }
    let ranks = rank_meshes(alloc, mesh, owners, halos, perms, &mut scratch)?;
    Ok(ranks)
}
