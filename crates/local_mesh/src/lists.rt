// Local numbers of elements on their owners, and of what ranks export and import.
ghost use Rattle.std.specs.Prelude.{◌≡◌, ℕ, ◌<◌, ◌≤◌, IsTrue, IfOk, length, take, slice_index, slice_index_or};
ghost use Rattle.std.specs.List.{range_with_len};
ghost use Rattle.lemmas.specs.Below.{row, rows};
ghost use Rattle.mesh_decl.specs.Mesh.{set_count, set_size};
ghost use Rattle.mesh_decl.specs.Owners.{AreOwners, ArePerms};
ghost use Rattle.mesh_decl.specs.declared.owners.Perms.{Perms as ThePerms};
ghost use Rattle.local_mesh.specs.Halos.{IsSetHalo, AreHalos};
ghost use Rattle.local_mesh.specs.LocalMesh.{originals_in, AreRankMeshes};
ghost use Rattle.local_mesh.specs.Numbers.{own_in};
ghost use Rattle.local_mesh.specs.Lists.{sets_of as the_sets_of, originals_of as the_originals_of, IsBelow, AreBelow, AreRead, AreAllRead};
ghost use Rattle.local_mesh.specs.Lists.{AreAtOwners, AreImports, IsLocalLists, AreLocalLists, AreHeld};

use crate::halo_lists::{Halos, SetHalo};
use crate::kept::is_kept;
use crate::local_numbers::LocalNumbers;
use crate::number_laws::rank_meshes_are_closed;
use crate::originals::{locals_of, number_locals};
use crate::types::{LocalSet, RankMesh};
use mesh_decl::{Mesh, Owners};
use op_num::OutOfMemory;
use std::alloc::Global;

/// Of one set, the local numbers that ranks need of each other's elements.
#[derive(Debug, Drop)]
pub struct LocalLists {
    /// By element, its local number on the rank that owns it.
    pub at_owner: LocalNumbers,
    /// By owner and then by importing rank, the owner's local numbers of what the rank imports from it, by increasing
    /// original number.
    pub exports: Vec<Vec<Vec<u32>>>,
    /// By importing rank and then by owner, the importing rank's local numbers of the same elements, in the same order.
    pub imports: Vec<Vec<Vec<u32>>>,
}

// The sets of a rank.
fn sets_of(meshes: &[RankMesh], rank: u32) -> &[LocalSet]
    requires { rank < length meshes.now }
    ensures { result.now ≡ the_sets_of meshes.now rank }
{
    &meshes[rank as usize].sets
}

// Of one set, the original numbers of a rank's elements, by local number.
fn originals_of(meshes: &[RankMesh], rank: u32, set: u32) -> &[u32]
    requires rank { rank < length meshes.now }
    requires set { set < length (the_sets_of meshes.now rank) }
    ensures { result.now ≡ the_originals_of meshes.now rank set }
{
    sets_of(meshes, rank)[set as usize].original.as_slice()
}

// Of one set, how many elements a rank owns.
fn own_count(meshes: &[RankMesh], rank: u32, set: u32) -> usize
    requires rank { rank < length meshes.now }
    requires set { set < length (the_sets_of meshes.now rank) }
    ensures { result ≡ own_in (the_sets_of meshes.now rank) set }
{
    sets_of(meshes, rank)[set as usize].own as usize
}

// Of one set, the original numbers of what a rank owns, by local number.
fn owned_of(meshes: &[RankMesh], rank: u32, set: u32) -> &[u32]
    requires rank { rank < length meshes.now }
    requires set { set < length (the_sets_of meshes.now rank) }
    requires held { own_in (the_sets_of meshes.now rank) set ≤ length (the_originals_of meshes.now rank set) }
    ensures { result.now ≡ take (own_in (the_sets_of meshes.now rank) set) (the_originals_of meshes.now rank set) }
{
    let count = own_count(meshes, rank, set);
    &originals_of(meshes, rank, set)[..count]
}

// By element of a set, its local number on its owner, one by one.
fn locals_at_owners(
    alloc: Global,
    mesh: &Mesh,
    owners: &Owners,
    meshes: &[RankMesh],
    set: u32,
) -> Result<Vec<u32>, OutOfMemory>
    requires set { set < set_count mesh.now }
    requires owners { AreOwners mesh.now owners.now }
    requires held { AreHeld mesh.now owners.now meshes.now set }
    ensures { IfOk result (λ v. AreAtOwners mesh.now owners.now meshes.now set v.items) }
{
    let mut numbers = vec![in alloc; 0; mesh.set_size(set) as usize]?;
    for rank in 0..owners.ranks {
        number_locals(&mut numbers, owned_of(meshes, rank, set));
    }
    Ok(numbers)
}

// Whether each element of a set has its own number on the one rank.
fn have_own_numbers(mesh: &Mesh, owners: &Owners, meshes: &[RankMesh], set: u32) -> bool
    requires set { set < set_count mesh.now }
    requires owners { AreOwners mesh.now owners.now }
    requires held { AreHeld mesh.now owners.now meshes.now set }
    ensures { IsTrue result → AreAtOwners mesh.now owners.now meshes.now set (range_with_len 0 (set_size mesh.now set)) }
{
    if owners.ranks != 1 {
        return false;
    }
    let originals = originals_of(meshes, 0, set);
    if originals.len() != mesh.set_size(set) as usize {
        return false;
    }
    is_kept(originals)
}

// By element of a set, its local number on its owner.
fn at_owners(
    alloc: Global,
    mesh: &Mesh,
    owners: &Owners,
    meshes: &[RankMesh],
    set: u32,
) -> Result<LocalNumbers, OutOfMemory>
    requires set { set < set_count mesh.now }
    requires owners { AreOwners mesh.now owners.now }
    requires held { AreHeld mesh.now owners.now meshes.now set }
    ensures { IfOk result (AreAtOwners mesh.now owners.now meshes.now set) }
{
    if have_own_numbers(mesh, owners, meshes, set) {
        return Ok(LocalNumbers::same(mesh.set_size(set)));
    }
    let numbers = locals_at_owners(alloc, mesh, owners, meshes, set)?;
    Ok(LocalNumbers::listed(numbers))
}

// Of each list what stands in the table at its places.
fn read_lists(
    alloc: Global,
    lists: &[Vec<u32>],
    table: &LocalNumbers,
) -> Result<Vec<Vec<u32>>, OutOfMemory>
    requires { AreBelow (length table.now) lists.now }
    ensures { IfOk result (λ v. AreAllRead table.now lists.now v.items) }
{
    let mut found = Vec::with_capacity(alloc, lists.len())?;
    for places in lists {
        found.push(table.of_each(alloc, places)?)?;
    }
    Ok(found)
}

// By owner and rank what stands in the table at each export.
fn read_exports(
    alloc: Global,
    exports: &[Vec<Vec<u32>>],
    table: &LocalNumbers,
) -> Result<Vec<Vec<Vec<u32>>>, OutOfMemory>
    requires { (a : ℕ) → a < length exports.now → AreBelow (length table.now) (rows exports.now a) }
    ensures length { IfOk result (λ v. length v.items ≡ length exports.now) }
    ensures read { IfOk result (λ v. (a : ℕ) → a < length exports.now → AreAllRead table.now (rows exports.now a) (rows v.items a)) }
{
    let mut found = Vec::with_capacity(alloc, exports.len())?;
    for lists in exports {
        found.push(read_lists(alloc, lists, table)?)?;
    }
    Ok(found)
}

// By owner what stands in the table at each of a rank's imports.
fn read_imports(
    alloc: Global,
    exports: &[Vec<Vec<u32>>],
    rank: u32,
    table: &[u32],
) -> Result<Vec<Vec<u32>>, OutOfMemory>
    requires rank { (a : ℕ) → a < length exports.now → rank < length (rows exports.now a) }
    requires within { (a : ℕ) → a < length exports.now → IsBelow (length table.now) (row (rows exports.now a) rank) }
    ensures length { IfOk result (λ v. length v.items ≡ length exports.now) }
    ensures at { IfOk result (λ v. (a : ℕ) → a < length exports.now → AreRead table.now (row (rows exports.now a) rank) (row v.items a)) }
{
    let mut found = Vec::with_capacity(alloc, exports.len())?;
    for lists in exports {
        found.push(locals_of(alloc, &lists[rank as usize], table)?)?;
    }
    Ok(found)
}

// By importing rank and owner the rank's local numbers of what it imports of a set.
fn locals_of_imports(
    alloc: Global,
    mesh: &Mesh,
    owners: &Owners,
    meshes: &[RankMesh],
    halo: &SetHalo,
    set: u32,
) -> Result<Vec<Vec<Vec<u32>>>, OutOfMemory>
    requires set { set < set_count mesh.now }
    requires held { AreHeld mesh.now owners.now meshes.now set }
    requires halo { IsSetHalo mesh.now owners.now set halo.now }
    ensures { IfOk result (λ v. AreImports owners.now meshes.now set halo.now v.items) }
{
    let mut numbers = vec![in alloc; 0; mesh.set_size(set) as usize]?;
    let mut imports = Vec::new(alloc);
    for rank in 0..owners.ranks {
        number_locals(&mut numbers, originals_of(meshes, rank, set));
        imports.push(read_imports(alloc, &halo.exports, rank, &numbers)?)?;
    }
    Ok(imports)
}

// The lists of one set.
fn set_lists(
    alloc: Global,
    mesh: &Mesh,
    owners: &Owners,
    meshes: &[RankMesh],
    halo: &SetHalo,
    set: u32,
) -> Result<LocalLists, OutOfMemory>
    requires set { set < set_count mesh.now }
    requires owners { AreOwners mesh.now owners.now }
    requires held { AreHeld mesh.now owners.now meshes.now set }
    requires halo { IsSetHalo mesh.now owners.now set halo.now }
    ensures { IfOk result (IsLocalLists mesh.now owners.now meshes.now set halo.now) }
{
    let at_owner = at_owners(alloc, mesh, owners, meshes, set)?;
    let exports = read_exports(alloc, &halo.exports, &at_owner)?;
    let imports = locals_of_imports(alloc, mesh, owners, meshes, halo, set)?;
    Ok(LocalLists {
        at_owner,
        exports,
        imports,
    })
}

/// For each set the local number of each element on its owner, and the local numbers of what ranks export and import,
/// from the local meshes of all ranks.
///
/// It takes time linear in the elements and in what the ranks have, and fails only for want of memory.
pub fn local_lists(
    alloc: Global,
    mesh: &Mesh,
    owners: &Owners,
    halos: &Halos,
    meshes: &[RankMesh],
) -> Result<Vec<LocalLists>, OutOfMemory>
    requires owners { AreOwners mesh.now owners.now }
    requires halos { AreHalos mesh.now owners.now halos.now }
    requires meshes { (p : ThePerms) × ArePerms mesh.now p × AreRankMeshes mesh.now owners.now p meshes.now }
    ensures { IfOk result (λ v. AreLocalLists mesh.now owners.now halos.now meshes.now v.items) }
{
    rank_meshes_are_closed();
    mesh.is_in_range();
    let mut lists = Vec::new(alloc);
    for set in 0..mesh.set_count() {
        let halo = &halos.sets[set as usize];
        lists.push(set_lists(alloc, mesh, owners, meshes, halo, set)?)?;
    }
    Ok(lists)
}
