// The halos of one rank, which owns each element.
ghost use Rattle.std.specs.Prelude.{◌≡◌, ℕ, ◌<◌, IfOk, length, slice_index_or};
ghost use Rattle.mesh_decl.specs.Mesh.{set_count, IsInRange};
ghost use Rattle.mesh_decl.specs.Owners.{AreOwners};
ghost use Rattle.local_mesh.specs.declared.halo_lists.types.SetHalo.{SetHalo as TheHalo};
ghost use Rattle.local_mesh.specs.Halos.{IsSetHalo};

use crate::halo_lists::exports::empty_exports;
use crate::halo_lists::types::SetHalo;
use crate::rank_sets::empty_lists;
use mesh_decl::{Mesh, Owners};
use op_num::OutOfMemory;
use std::alloc::Global;

// The halos of one set: the one rank imports and exports nothing, and each element is core.
fn whole_halo(alloc: Global, mesh: &Mesh, owners: &Owners, set: u32) -> Result<SetHalo, OutOfMemory>
    requires mesh { IsInRange mesh.now }
    requires owners { AreOwners mesh.now owners.now }
    requires one { owners.now.ranks ≡ 1 }
    requires set { set < set_count mesh.now }
    ensures { IfOk result (IsSetHalo mesh.now owners.now set) }
{
    let size = mesh.set_size(set);
    let exec = empty_lists(alloc, owners.ranks)?;
    let nonexec = empty_lists(alloc, owners.ranks)?;
    let exports = empty_exports(alloc, owners.ranks)?;
    let core = vec![in alloc; true; size as usize]?;
    Ok(SetHalo {
        exec,
        nonexec,
        exports,
        core,
    })
}

/// The halos of each set, where one rank owns all. They take a byte for each element, and no pass over maps.
pub fn whole_halos(alloc: Global, mesh: &Mesh, owners: &Owners) -> Result<Vec<SetHalo>, OutOfMemory>
    requires mesh { IsInRange mesh.now }
    requires owners { AreOwners mesh.now owners.now }
    requires one { owners.now.ranks ≡ 1 }
    ensures count { IfOk result (λ v. length v.items ≡ set_count mesh.now) }
    ensures sets { IfOk result (λ v. (s : ℕ) (d : TheHalo) → s < set_count mesh.now
        → IsSetHalo mesh.now owners.now s (slice_index_or v.items s d)) }
{
    let mut sets = Vec::new(alloc);
    for set in 0..mesh.set_count() {
        sets.push(whole_halo(alloc, mesh, owners, set)?)?;
    }
    Ok(sets)
}
