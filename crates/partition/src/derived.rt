// Owners by those of targets, or by those of the entries that name an element.
ghost use Rattle.std.specs.Prelude.{◌≡◌, ℕ, true, ◌+◌, ◌*◌, ◌<◌, ◌≤◌, ◌/◌, ◌^◌, [], OnOk, IfOk, length, slice_index, slice_index_or};
ghost use Rattle.mesh_decl.specs.Mesh.{IsMapAt, map_count, set_size, map_from, map_to, map_dim, target};
ghost use Rattle.lemmas.specs.Below.{count_below};
ghost use Rattle.partition.specs.Elected.{names, entries, gathered};
ghost use Rattle.partition.specs.Derive.{AreByTargets, AreByNames};
ghost use Rattle.partition.specs.Named.{AreNamed};

use crate::elect::{most_frequent, most_frequent_or_block};
use mesh_decl::Mesh;
use op_num::OutOfMemory;
use renumber::rows::{Filling, Rows};
use std::alloc::Global;

// Puts the owners of an element's targets into a list.
fn list_targets(
    list: &mut Vec<u32>,
    mesh: &Mesh,
    owners: &[u32],
    map: u32,
    element: u32,
) -> Result<(), OutOfMemory>
    requires map { map < map_count mesh.now }
    requires owners { length owners.now ≡ set_size mesh.now (map_to mesh.now map) }
    requires element { element < set_size mesh.now (map_from mesh.now map) }
    ensures { OnOk result (list.new.items
        ≡ gathered (map_dim mesh.now map) (λ i. true) (λ i. slice_index owners.now (target mesh.now map element i))) }
{
    let (_, _, dim) = mesh.map_ends(map);
    list.clear();
    for place in 0..dim {
        list.push(owners[mesh.target(map, element, place) as usize])?;
    }
    Ok(())
}

/// The owners of the set from which a map leads, by those of its targets.
pub fn elect_by_targets(
    alloc: Global,
    mesh: &Mesh,
    owners: &[u32],
    map: u32,
    ranks: u32,
) -> Result<Vec<u32>, OutOfMemory>
    requires some { 0 < ranks }
    requires few { ranks ≤ 64 }
    requires map { map < map_count mesh.now }
    requires at { IsMapAt mesh.now map }
    requires owners { length owners.now ≡ set_size mesh.now (map_to mesh.now map) }
    requires below { (x : ℕ) → x < length owners.now → slice_index owners.now x < ranks }
    ensures length { IfOk result (λ v. length v.items ≡ set_size mesh.now (map_from mesh.now map)) }
    ensures elected { IfOk result (λ v. AreByTargets mesh.now ranks owners.now map (map_from mesh.now map) v.items) }
    ensures within { IfOk result (λ v. (x : ℕ) → x < set_size mesh.now (map_from mesh.now map) → slice_index v.items x < ranks) }
{
    let (from, _, _) = mesh.map_ends(map);
    let size = mesh.set_size(from);
    let mut list = Vec::new(alloc);
    let mut votes = [0u64; 64];
    let mut elected = Vec::with_capacity(alloc, size as usize)?;
    for element in 0..size {
        list_targets(&mut list, mesh, owners, map, element)?;
        elected.push(most_frequent(&mut votes, &list, ranks))?;
    }
    Ok(elected)
}

// Counts one more entry for each target of an element, behind those of the elements before it.
fn count_targets(counts: &mut [usize], mesh: &Mesh, map: u32, element: u32)
    requires map { map < map_count mesh.now }
    requires at { IsMapAt mesh.now map }
    requires element { element < set_size mesh.now (map_from mesh.now map) }
    requires length { length counts.old ≡ set_size mesh.now (map_to mesh.now map) }
    requires counts { (y : ℕ) → y < set_size mesh.now (map_to mesh.now map)
        → slice_index counts.old y ≡ count_below (element * map_dim mesh.now map) (names mesh.now map y) }
    ensures { (y : ℕ) → y < set_size mesh.now (map_to mesh.now map)
        → slice_index counts.new y ≡ count_below ((element + 1) * map_dim mesh.now map) (names mesh.now map y) }
{
    let (_, _, dim) = mesh.map_ends(map);
    for place in 0..dim {
        let target = mesh.target(map, element, place);
        counts[target as usize] += 1;
    }
}

// For each element of the set to which a map leads, how many entries name it.
fn naming_counts(alloc: Global, mesh: &Mesh, map: u32) -> Result<Vec<usize>, OutOfMemory>
    requires map { map < map_count mesh.now }
    requires at { IsMapAt mesh.now map }
    ensures length { IfOk result (λ v. length v.items ≡ set_size mesh.now (map_to mesh.now map)) }
    ensures counts { IfOk result (λ v. (y : ℕ) → y < set_size mesh.now (map_to mesh.now map)
        → slice_index v.items y ≡ count_below (entries mesh.now map) (names mesh.now map y)) }
{
    let (from, to, _) = mesh.map_ends(map);
    let mut counts = vec![in alloc; 0usize; mesh.set_size(to) as usize]?;
    for element in 0..mesh.set_size(from) {
        count_targets(&mut counts, mesh, map, element);
    }
    Ok(counts)
}

// Puts the owner of an element into the row of each of its targets, behind those of the elements before it.
fn push_owner(filling: &mut Filling, mesh: &Mesh, owners: &[u32], map: u32, element: u32)
    requires map { map < map_count mesh.now }
    requires at { IsMapAt mesh.now map }
    requires owners { length owners.now ≡ set_size mesh.now (map_from mesh.now map) }
    requires element { element < set_size mesh.now (map_from mesh.now map) }
    requires rows { AreNamed mesh.now map owners.now (element * map_dim mesh.now map) filling.old }
    ensures { AreNamed mesh.now map owners.now ((element + 1) * map_dim mesh.now map) filling.new }
{
    let (_, _, dim) = mesh.map_ends(map);
    for place in 0..dim {
        let target = mesh.target(map, element, place);
        filling.push(target as usize, owners[element as usize]);
    }
}

// For each element of the set to which a map leads, the owners of the entries that name it.
fn owners_naming(alloc: Global, mesh: &Mesh, owners: &[u32], map: u32) -> Result<Rows, OutOfMemory>
    requires map { map < map_count mesh.now }
    requires at { IsMapAt mesh.now map }
    requires owners { length owners.now ≡ set_size mesh.now (map_from mesh.now map) }
    requires size { set_size mesh.now (map_to mesh.now map) < 2 ^ 32 }
    ensures length { IfOk result (λ v. length v ≡ set_size mesh.now (map_to mesh.now map)) }
    ensures lists { IfOk result (λ v. (y : ℕ) → y < set_size mesh.now (map_to mesh.now map)
        → slice_index_or v y []
        ≡ gathered (entries mesh.now map) (names mesh.now map y) (λ e. slice_index owners.now (e / map_dim mesh.now map))) }
{
    let counts = naming_counts(alloc, mesh, map)?;
    let (from, _, _) = mesh.map_ends(map);
    let mut filling = Filling::new(alloc, &counts)?;
    for element in 0..mesh.set_size(from) {
        push_owner(&mut filling, mesh, owners, map, element);
    }
    Ok(filling.finish())
}

/// The owners of the set to which a map leads, by those of the entries that name its elements.
pub fn elect_by_names(
    alloc: Global,
    mesh: &Mesh,
    owners: &[u32],
    map: u32,
    ranks: u32,
) -> Result<Vec<u32>, OutOfMemory>
    requires some { 0 < ranks }
    requires few { ranks ≤ 64 }
    requires map { map < map_count mesh.now }
    requires at { IsMapAt mesh.now map }
    requires owners { length owners.now ≡ set_size mesh.now (map_from mesh.now map) }
    requires below { (x : ℕ) → x < length owners.now → slice_index owners.now x < ranks }
    ensures length { IfOk result (λ v. length v.items ≡ set_size mesh.now (map_to mesh.now map)) }
    ensures elected { IfOk result (λ v. AreByNames mesh.now ranks owners.now map (map_to mesh.now map) v.items) }
    ensures within { IfOk result (λ v. (x : ℕ) → x < set_size mesh.now (map_to mesh.now map) → slice_index v.items x < ranks) }
{
    let (_, to, _) = mesh.map_ends(map);
    let size = mesh.set_size(to);
    let lists = owners_naming(alloc, mesh, owners, map)?;
    let mut votes = [0u64; 64];
    let mut elected = Vec::with_capacity(alloc, size as usize)?;
    for element in 0..size {
        let list = lists.row(element as usize);
        elected.push(most_frequent_or_block(&mut votes, list, size, ranks, element))?;
    }
    Ok(elected)
}
