// The local mesh of the one rank, which has each element.
ghost use Rattle.std.specs.Prelude.{◌≡◌, ℕ, ◌<◌, ◌≤◌, ◌^◌, [], IfOk, IfSome, IfNone, length, slice_index, slice_index_or};
ghost use Rattle.mesh_decl.specs.Mesh.{set_count, set_size};
ghost use Rattle.mesh_decl.specs.Owners.{AreOwners, ArePerms, IsNumbering};
ghost use Rattle.local_mesh.specs.Halos.{AreHalos};
ghost use Rattle.local_mesh.specs.declared.types.LocalSet.{LocalSet as TheSet};
ghost use Rattle.local_mesh.specs.Parts.{IsJoined, IsKept};
ghost use Rattle.local_mesh.specs.LocalMesh.{IsLocalSet};

use crate::halo_lists::Halos;
use crate::kept::is_kept;
use crate::numbers::local_set;
use crate::types::LocalSet;
use mesh_decl::{Mesh, Owners, Perms};
use op_num::OutOfMemory;
use std::alloc::Global;

// The numbers below the count.
fn numbers_below(alloc: Global, count: u32) -> Result<Vec<u32>, OutOfMemory>
    ensures { IfOk result (λ v. (length v.items ≡ count) × IsKept count (slice_index v.items)) }
{
    let mut numbers = Vec::with_capacity(alloc, count as usize)?;
    for number in 0..count {
        numbers.push(number)?;
    }
    Ok(numbers)
}

// All elements by original number, unless new numbers are the original ones.
fn whole_copies(alloc: Global, order: &[u32]) -> Result<Option<Vec<u32>>, OutOfMemory>
    requires { length order.now < 2 ^ 32 }
    ensures some { IfOk result (λ v. IfSome v (λ c. (length c.items ≡ length order.now)
        × IsKept (length order.now) (slice_index c.items))) }
    ensures none { IfOk result (λ v. IfNone v (IsKept (length order.now) (slice_index order.now))) }
{
    if is_kept(order) {
        return Ok(None);
    }
    let numbers = numbers_below(alloc, order.len() as u32)?;
    Ok(Some(numbers))
}

// One set, by the original numbers of its elements in order of new numbers, and by which of them are core. What is in
// `scratch` is lost.
fn whole_set(
    alloc: Global,
    order: &[u32],
    core: &[bool],
    scratch: &mut [u32],
) -> Result<LocalSet, OutOfMemory>
    requires order { IsNumbering (length core.now) order.now }
    requires few { length core.now < 2 ^ 32 }
    requires room { length core.now ≤ length scratch.old }
    ensures { IfOk result (IsJoined order.now [] [] core.now) }
{
    let none: [u32; 0] = [];
    let copies = whole_copies(alloc, order)?;
    let set = local_set(alloc, order, &none, &none, copies, core, scratch)?;
    Ok(set)
}

/// Each set, where one rank owns all. What is in `scratch` is lost.
pub fn whole_sets(
    alloc: Global,
    mesh: &Mesh,
    owners: &Owners,
    halos: &Halos,
    perms: &Perms,
    scratch: &mut [u32],
) -> Result<Vec<LocalSet>, OutOfMemory>
    requires owners { AreOwners mesh.now owners.now }
    requires one { owners.now.ranks ≡ 1 }
    requires halos { AreHalos mesh.now owners.now halos.now }
    requires perms { ArePerms mesh.now perms.now }
    requires room { (s : ℕ) → s < set_count mesh.now → set_size mesh.now s ≤ length scratch.old }
    ensures count { IfOk result (λ v. length v.items ≡ set_count mesh.now) }
    ensures sets { IfOk result (λ v. (s : ℕ) (d : TheSet) → s < set_count mesh.now
        → IsLocalSet mesh.now owners.now perms.now s 0 (slice_index_or v.items s d)) }
{
    let mut sets = Vec::new(alloc);
    for set in 0..mesh.set_count() {
        let core = halos.sets[set as usize].core.as_slice();
        sets.push(whole_set(alloc, perms.of_set(set), core, scratch)?)?;
    }
    Ok(sets)
}
