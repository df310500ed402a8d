// Elements by their targets' new numbers.
ghost use Rattle.std.specs.Prelude.{◌≡◌, ℕ, ◌<◌, ◌^◌, IfOk, length, slice_index};
ghost use Rattle.mesh_decl.specs.Mesh.{IsMapAt, map_count, set_size, map_from, map_to, map_dim, target};
ghost use Rattle.mesh_decl.specs.Owners.{IsNumbering};
ghost use Rattle.renumber.specs.CuthillMcKee.{least_below, IsByTargets};

use crate::breadth_order::by_keys;
use mesh_decl::Mesh;
use op_num::OutOfMemory;
use std::alloc::Global;

// The new number of each element, from the original numbers by new number.
fn new_numbers(alloc: Global, order: &[u32]) -> Result<Vec<u32>, OutOfMemory>
    requires few { length order.now < 2 ^ 32 }
    requires order { IsNumbering (length order.now) order.now }
    ensures length { IfOk result (λ v. length v.items ≡ length order.now) }
    ensures numbers { IfOk result (λ v. (k : ℕ) → k < length order.now → slice_index v.items (slice_index order.now k) ≡ k) }
{
    let mut numbers = vec![in alloc; 0; order.len()]?;
    write_numbers(&mut numbers, order);
    Ok(numbers)
}

// Writes each new number at its original number.
fn write_numbers(numbers: &mut [u32], order: &[u32])
    requires few { length order.now < 2 ^ 32 }
    requires length { length numbers.old ≡ length order.now }
    requires order { IsNumbering (length order.now) order.now }
    ensures { (k : ℕ) → k < length order.now → slice_index numbers.new (slice_index order.now k) ≡ k }
{
    for (number, element) in order.iter().enumerate() {
        numbers[*element as usize] = number as u32;
    }
}

// The least new number among an element's targets.
fn least_target(mesh: &Mesh, map: u32, element: u32, numbers: &[u32]) -> u32
    requires map { map < map_count mesh.now }
    requires element { element < set_size mesh.now (map_from mesh.now map) }
    requires numbers { length numbers.now ≡ set_size mesh.now (map_to mesh.now map) }
    ensures { result ≡ least_below (map_dim mesh.now map) (λ i. slice_index numbers.now (target mesh.now map element i)) }
{
    let (_, _, dim) = mesh.map_ends(map);
    let mut least = u32::MAX;
    for place in 0..dim {
        let number = numbers[mesh.target(map, element, place) as usize];
        least = least.min(number);
    }
    least
}

// The least new number among the targets of each element.
fn least_targets(
    alloc: Global,
    mesh: &Mesh,
    map: u32,
    numbers: &[u32],
) -> Result<Vec<u32>, OutOfMemory>
    requires at { IsMapAt mesh.now map }
    requires map { map < map_count mesh.now }
    requires numbers { length numbers.now ≡ set_size mesh.now (map_to mesh.now map) }
    ensures length { IfOk result (λ v. length v.items ≡ set_size mesh.now (map_from mesh.now map)) }
    ensures least { IfOk result (λ v. (x : ℕ) → x < set_size mesh.now (map_from mesh.now map)
        → slice_index v.items x ≡ least_below (map_dim mesh.now map) (λ i. slice_index numbers.now (target mesh.now map x i))) }
{
    let (from, _, _) = mesh.map_ends(map);
    let size = mesh.set_size(from);
    let mut least = Vec::with_capacity(alloc, size as usize)?;
    for element in 0..size {
        least.push(least_target(mesh, map, element, numbers))?;
    }
    Ok(least)
}

/// The elements of the set from which the map leads, by (least new number among the targets, number); `order` has the
/// original numbers of the set to which it leads, by new number.
pub fn by_targets(
    alloc: Global,
    mesh: &Mesh,
    map: u32,
    order: &[u32],
) -> Result<Vec<u32>, OutOfMemory>
    requires at { IsMapAt mesh.now map }
    requires sizes { (s : ℕ) → set_size mesh.now s < 2 ^ 32 }
    requires map { map < map_count mesh.now }
    requires order { IsNumbering (set_size mesh.now (map_to mesh.now map)) order.now }
    ensures numbering { IfOk result (λ v. IsNumbering (set_size mesh.now (map_from mesh.now map)) v.items) }
    ensures ordered { IfOk result (λ v. IsByTargets mesh.now map order.now v.items) }
{
    let numbers = new_numbers(alloc, order)?;
    let keys = least_targets(alloc, mesh, map, &numbers)?;
    let ordered = by_keys(alloc, &keys)?;
    Ok(ordered)
}
