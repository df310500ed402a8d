// Which halos an element is part of, by the ranks that execute it and those that name it.
ghost use Rattle.std.specs.Prelude.{◌≡◌, ℕ, ◌<◌, ◌+◌, OnOk, IfOk, [], length};
ghost use Rattle.mesh_decl.specs.Mesh.{set_count, set_size};
ghost use Rattle.mesh_decl.specs.Owners.{AreOwners};
ghost use Rattle.lemmas.specs.Below.{row, rows};
ghost use Rattle.local_mesh.specs.RankSet.{has, has_at};
ghost use Rattle.local_mesh.specs.Halo.{executes, named};
ghost use Rattle.local_mesh.specs.Halos.{IsSetHalo, IsHaloBelow};

use crate::halo_lists::exports::{empty_exports, push_export};
use crate::halo_lists::types::SetHalo;
use crate::rank_sets::{RankSet, empty_lists, push_each};
use mesh_decl::{Mesh, Owners};
use op_num::OutOfMemory;
use std::alloc::Global;

// Adds an element to the halos of the elements before it: it is imported to execute by those that execute it but its
// owner, and to read by those that name it and don't execute it.
fn add_element(
    halo: &mut SetHalo,
    mesh: &Mesh,
    owners: &Owners,
    set: u32,
    element: u32,
    executing: RankSet,
    naming: RankSet,
) -> Result<(), OutOfMemory>
    requires owners { AreOwners mesh.now owners.now }
    requires set { set < set_count mesh.now }
    requires element { element < set_size mesh.now set }
    requires executing { (r : ℕ) → has executing r ≡ executes mesh.now owners.now set element r }
    requires naming { (r : ℕ) → has naming r ≡ named mesh.now owners.now set element r }
    requires before { IsHaloBelow mesh.now owners.now set element halo.old }
    ensures { OnOk result (IsHaloBelow mesh.now owners.now set (element + 1) halo.new) }
{
    mesh.is_in_range();
    let owner = owners.rank_of(set, element);
    let exec = executing.minus(RankSet::empty().with(owner));
    let nonexec = naming.minus(executing);
    halo.core.push(exec.is_empty())?;
    push_each(&mut halo.exec, element, exec)?;
    push_each(&mut halo.nonexec, element, nonexec)?;
    push_export(&mut halo.exports, owner, element, exec.union(nonexec))?;
    Ok(())
}

// No element.
fn empty_halo(alloc: Global, ranks: u32, size: u32) -> Result<SetHalo, OutOfMemory>
    ensures exec_count { IfOk result (λ h. length h.exec.items ≡ ranks) }
    ensures exec { IfOk result (λ h. (r : ℕ) → r < ranks → row h.exec.items r ≡ []) }
    ensures nonexec_count { IfOk result (λ h. length h.nonexec.items ≡ ranks) }
    ensures nonexec { IfOk result (λ h. (r : ℕ) → r < ranks → row h.nonexec.items r ≡ []) }
    ensures export_count { IfOk result (λ h. length h.exports.items ≡ ranks) }
    ensures export_counts { IfOk result (λ h. (a : ℕ) → a < ranks → length (rows h.exports.items a) ≡ ranks) }
    ensures exports { IfOk result (λ h. (a r : ℕ) → a < ranks → r < ranks → row (rows h.exports.items a) r ≡ []) }
    ensures core { IfOk result (λ h. h.core.items ≡ []) }
{
    Ok(SetHalo {
        exec: empty_lists(alloc, ranks)?,
        nonexec: empty_lists(alloc, ranks)?,
        exports: empty_exports(alloc, ranks)?,
        core: Vec::with_capacity(alloc, size as usize)?,
    })
}

/// The halos of one set, by the ranks that execute each of its elements and those that have it as a target of what they
/// execute.
pub fn set_halo(
    alloc: Global,
    mesh: &Mesh,
    owners: &Owners,
    set: u32,
    executing: &[RankSet],
    naming: &[RankSet],
) -> Result<SetHalo, OutOfMemory>
    requires owners { AreOwners mesh.now owners.now }
    requires set { set < set_count mesh.now }
    requires executing_count { length executing.now ≡ set_size mesh.now set }
    requires executing { (x r : ℕ) → x < set_size mesh.now set → has_at executing.now x r ≡ executes mesh.now owners.now set x r }
    requires naming_count { length naming.now ≡ set_size mesh.now set }
    requires naming { (x r : ℕ) → has_at naming.now x r ≡ named mesh.now owners.now set x r }
    ensures { IfOk result (IsSetHalo mesh.now owners.now set) }
{
    let size = mesh.set_size(set);
    let mut halo = empty_halo(alloc, owners.ranks, size)?;
    for element in 0..size {
        let (executes, names) = (executing[element as usize], naming[element as usize]);
        add_element(&mut halo, mesh, owners, set, element, executes, names)?;
    }
    Ok(halo)
}
