// The elements by their targets.
ghost use Rattle.std.specs.Prelude.{◌≡◌, ℕ, ◌<◌, ◌≤◌, ◌+◌, ◌^◌, ◌++◌, [], IfOk, OnOk, length, replicate, slice_index, slice_index_or};
ghost use Rattle.mesh_decl.specs.Mesh.{IsMapAt, map_count, set_size, map_from, map_to, map_dim};
ghost use Rattle.renumber.specs.Neighbours.{times, havers, IsInverse};

use crate::rows::{Filling, Rows};
use mesh_decl::Mesh;
use op_num::OutOfMemory;
use std::alloc::Global;

// Adds to the count of each target of an element how often it is one.
fn count_targets(counts: &mut [usize], mesh: &Mesh, map: u32, element: u32)
    requires map { map < map_count mesh.now }
    requires element { element < set_size mesh.now (map_from mesh.now map) }
    requires counts { length counts.old ≡ set_size mesh.now (map_to mesh.now map) }
    requires few { (x : ℕ) → x < length counts.old → slice_index counts.old x + map_dim mesh.now map < 2 ^ 64 }
    ensures { (x : ℕ) → x < length counts.old → slice_index counts.new x ≡ slice_index counts.old x + times mesh.now map element x }
{
    let (_, _, dim) = mesh.map_ends(map);
    for place in 0..dim {
        let target = mesh.target(map, element, place);
        counts[target as usize] += 1;
    }
}

// How often each element of a map's to set is a target.
fn target_counts(alloc: Global, mesh: &Mesh, map: u32) -> Result<Vec<usize>, OutOfMemory>
    requires at { IsMapAt mesh.now map }
    requires sizes { (s : ℕ) → set_size mesh.now s < 2 ^ 32 }
    requires map { map < map_count mesh.now }
    ensures length { IfOk result (λ v. length v.items ≡ set_size mesh.now (map_to mesh.now map)) }
    ensures counts { IfOk result (λ v. (x : ℕ) → x < set_size mesh.now (map_to mesh.now map)
        → slice_index v.items x ≡ length (havers mesh.now map (set_size mesh.now (map_from mesh.now map)) x)) }
{
    let (from, to, _) = mesh.map_ends(map);
    let mut counts = vec![in alloc; 0usize; mesh.set_size(to) as usize]?;
    for element in 0..mesh.set_size(from) {
        count_targets(&mut counts, mesh, map, element);
    }
    Ok(counts)
}

// Adds an element to the row of each of its targets.
fn add_to_targets(filling: &mut Filling, mesh: &Mesh, map: u32, element: u32)
    requires map { map < map_count mesh.now }
    requires element { element < set_size mesh.now (map_from mesh.now map) }
    requires rows { length filling.old.rows ≡ set_size mesh.now (map_to mesh.now map) }
    requires room { (x : ℕ) → x < length filling.old.rows
        → length (slice_index_or filling.old.rows x []) + times mesh.now map element x ≤ slice_index filling.old.room x }
    ensures count { length filling.new.rows ≡ length filling.old.rows }
    ensures room { filling.new.room ≡ filling.old.room }
    ensures rows { (x : ℕ) → x < length filling.old.rows
        → slice_index_or filling.new.rows x [] ≡ slice_index_or filling.old.rows x [] ++ replicate (times mesh.now map element x) element }
{
    let (_, _, dim) = mesh.map_ends(map);
    for place in 0..dim {
        let target = mesh.target(map, element, place);
        filling.push(target as usize, element);
    }
}

/// For each element of a map's to set the elements that have it as a target, in increasing order, each as often as it
/// has it.
pub fn inverse(alloc: Global, mesh: &Mesh, map: u32) -> Result<Rows, OutOfMemory>
    requires at { IsMapAt mesh.now map }
    requires sizes { (s : ℕ) → set_size mesh.now s < 2 ^ 32 }
    requires map { map < map_count mesh.now }
    ensures { IfOk result (IsInverse mesh.now map) }
{
    let counts = target_counts(alloc, mesh, map)?;
    let (from, _, _) = mesh.map_ends(map);
    let mut filling = Filling::new(alloc, &counts)?;
    for element in 0..mesh.set_size(from) {
        add_to_targets(&mut filling, mesh, map, element);
    }
    Ok(filling.finish())
}
