//! The halos of each rank: which elements it imports to execute, which it imports to read, which it exports, and which
//! of its own need no other rank.
//!
//! These are the import execute and import non-execute halos and the core elements of OP2. `specs/Halo.antt` states
//! each as a condition on owners and targets; the lists hold exactly the elements that meet it.
ghost use Rattle.std.specs.Prelude.{◌≡◌, ℕ, ◌<◌, IfOk, length, slice_index_or};
ghost use Rattle.mesh_decl.specs.Mesh.{set_count, IsInRange};
ghost use Rattle.mesh_decl.specs.Owners.{AreOwners};
ghost use Rattle.local_mesh.specs.Sets.{AreExecuting};
ghost use Rattle.local_mesh.specs.declared.halo_lists.types.SetHalo.{SetHalo as TheHalo};
ghost use Rattle.local_mesh.specs.Halos.{IsSetHalo, AreHalos};

mod exports;
mod fit;
mod laws;
mod masks;
mod named;
mod split;
mod types;
mod whole;

use crate::rank_sets::RankSet;
pub use fit::owners_fit;
pub use laws::{
    core_targets_are_owned, execute_halo_owns_a_target, executed_targets_are_copies,
    imports_are_of_others, one_halos,
};
use masks::executing_all;
use mesh_decl::{Mesh, Owners};
use named::naming_all;
use op_num::OutOfMemory;
use split::set_halo;
use std::alloc::Global;
pub use types::{Halos, SetHalo};
use whole::whole_halos;

// For each element of each set, the ranks that execute it.
fn executing_sets(
    alloc: Global,
    mesh: &Mesh,
    owners: &Owners,
) -> Result<Vec<Vec<RankSet>>, OutOfMemory>
    requires mesh { IsInRange mesh.now }
    requires owners { AreOwners mesh.now owners.now }
    ensures { IfOk result (λ v. AreExecuting mesh.now owners.now v.items) }
{
    let mut executing = Vec::new(alloc);
    for set in 0..mesh.set_count() {
        executing.push(executing_all(alloc, mesh, owners, set)?)?;
    }
    Ok(executing)
}

// The halos of one set, from the ranks that execute each element of each set.
fn halo_of(
    alloc: Global,
    mesh: &Mesh,
    owners: &Owners,
    executing: &[Vec<RankSet>],
    set: u32,
) -> Result<SetHalo, OutOfMemory>
    requires mesh { IsInRange mesh.now }
    requires owners { AreOwners mesh.now owners.now }
    requires executing { AreExecuting mesh.now owners.now executing.now }
    requires set { set < set_count mesh.now }
    ensures { IfOk result (IsSetHalo mesh.now owners.now set) }
{
    let naming = naming_all(alloc, mesh, executing, set)?;
    let here = &executing[set as usize];
    let halo = set_halo(alloc, mesh, owners, set, here, &naming)?;
    Ok(halo)
}

// The halos of each set, over ranks that may import elements of each other.
fn split_halos(alloc: Global, mesh: &Mesh, owners: &Owners) -> Result<Vec<SetHalo>, OutOfMemory>
    requires mesh { IsInRange mesh.now }
    requires owners { AreOwners mesh.now owners.now }
    ensures count { IfOk result (λ v. length v.items ≡ set_count mesh.now) }
    ensures sets { IfOk result (λ v. (s : ℕ) (d : TheHalo) → s < set_count mesh.now
        → IsSetHalo mesh.now owners.now s (slice_index_or v.items s d)) }
{
    let executing = executing_sets(alloc, mesh, owners)?;
    let mut sets = Vec::new(alloc);
    for set in 0..mesh.set_count() {
        sets.push(halo_of(alloc, mesh, owners, &executing, set)?)?;
    }
    Ok(sets)
}

/// The halos of each set of a mesh, under `owners` that fit it. It takes time linear in the elements, the maps' targets
/// and what is imported, on one rank in the elements alone, and fails only for want of memory.
pub fn halos(alloc: Global, mesh: &Mesh, owners: &Owners) -> Result<Halos, OutOfMemory>
    requires owners { AreOwners mesh.now owners.now }
    ensures { IfOk result (λ h. AreHalos mesh.now owners.now h) }
{
    mesh.is_in_range();
    let sets = if owners.ranks == 1 {
        whole_halos(alloc, mesh, owners)?
    } else {
        split_halos(alloc, mesh, owners)?
    };
    Ok(Halos {
        ranks: owners.ranks,
        sets,
    })
}
