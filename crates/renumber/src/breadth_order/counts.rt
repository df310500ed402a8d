// How many neighbours each element has.
ghost use Rattle.std.specs.Prelude.{◌≡◌, ◌≢◌, ℕ, ◌<◌, ◌≤◌, ◌+◌, ◌^◌, ◌&&◌, ◌||◌, not, nat_eq, IfOk, length, slice_index};
ghost use Rattle.lemmas.specs.Below.{any_below, count_below};
ghost use Rattle.mesh_decl.specs.Mesh.{IsMapAt, map_count, set_size, map_from, map_to};
ghost use Rattle.renumber.specs.Degrees.{degree};
ghost use Rattle.renumber.specs.Neighbours.{has_target, IsInverse};

use crate::rows::Rows;
use mesh_decl::Mesh;
use op_num::OutOfMemory;
use std::alloc::Global;

// Marks the targets of an element with a number, but the one that has it; how many weren't marked with it.
fn mark_targets(last: &mut [u32], mesh: &Mesh, map: u32, element: u32, number: u32) -> u32
    requires map { map < map_count mesh.now }
    requires element { element < set_size mesh.now (map_from mesh.now map) }
    requires few { set_size mesh.now (map_to mesh.now map) < 2 ^ 32 }
    requires last { length last.old ≡ set_size mesh.now (map_to mesh.now map) }
    ensures count { result + count_below (length last.old) (λ y. nat_eq (slice_index last.old y) number)
        ≡ count_below (length last.old) (λ y. nat_eq (slice_index last.new y) number) }
    ensures marks { (y : ℕ) → y < length last.old
        → nat_eq (slice_index last.new y) number
        ≡ (nat_eq (slice_index last.old y) number || (has_target mesh.now map element y && not (nat_eq number y))) }
    ensures others { (y z : ℕ) → z ≢ number → slice_index last.new y ≡ z → slice_index last.old y ≡ z }
{
    let (_, _, dim) = mesh.map_ends(map);
    let mut count = 0;
    for place in 0..dim {
        let target = mesh.target(map, element, place);
        if target != number && last[target as usize] != number {
            last[target as usize] = number;
            count += 1;
        }
    }
    count
}

// Marks the neighbours of an element with its number, which marks none yet; how many there are. `having` are the
// elements that have it as a target.
fn mark_neighbours(last: &mut [u32], mesh: &Mesh, map: u32, having: &[u32], number: u32) -> u32
    requires map { map < map_count mesh.now }
    requires having { (k : ℕ) → k < length having.now → slice_index having.now k < set_size mesh.now (map_from mesh.now map) }
    requires few { set_size mesh.now (map_to mesh.now map) < 2 ^ 32 }
    requires last { length last.old ≡ set_size mesh.now (map_to mesh.now map) }
    requires none { (y : ℕ) → y < length last.old → slice_index last.old y ≢ number }
    ensures count { result
        ≡ count_below (length last.old) (λ y. any_below (length having.now) (λ k. has_target mesh.now map (slice_index having.now k) y)
        && not (nat_eq number y)) }
    ensures others { (y z : ℕ) → z ≢ number → slice_index last.new y ≡ z → slice_index last.old y ≡ z }
{
    let mut count = 0;
    for element in having {
        count += mark_targets(last, mesh, map, *element, number);
    }
    count
}

/// How many neighbours by a map each element of its to set has; `by` is the map's inverse.
pub fn degrees(alloc: Global, mesh: &Mesh, map: u32, by: &Rows) -> Result<Vec<u32>, OutOfMemory>
    requires at { IsMapAt mesh.now map }
    requires sizes { (s : ℕ) → set_size mesh.now s < 2 ^ 32 }
    requires map { map < map_count mesh.now }
    requires by { IsInverse mesh.now map by.now }
    ensures length { IfOk result (λ v. length v.items ≡ set_size mesh.now (map_to mesh.now map)) }
    ensures degrees { IfOk result (λ v. (x : ℕ) → x < set_size mesh.now (map_to mesh.now map)
        → slice_index v.items x ≡ degree mesh.now map x) }
{
    let (_, to, _) = mesh.map_ends(map);
    let size = mesh.set_size(to);
    let mut last = vec![in alloc; size; size as usize]?;
    let mut found = Vec::with_capacity(alloc, size as usize)?;
    for number in 0..size {
        let having = by.row(number as usize);
        found.push(mark_neighbours(&mut last, mesh, map, having, number))?;
    }
    Ok(found)
}
