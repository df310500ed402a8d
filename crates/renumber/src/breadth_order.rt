//! Orders of elements by breadth-first walks over the neighbours by a map, as Cuthill and McKee take them.
//!
//! E. Cuthill and J. McKee, "Reducing the bandwidth of sparse symmetric matrices", 1969. `specs/Taken.antt` says what
//! an order of taking is: at each place stands the element with the least (place of its earliest neighbour, key). The
//! walks read the map and its inverse; no list of neighbours is kept.
ghost use Rattle.std.specs.Prelude.{◌≡◌, ℕ, true, false, ◌<◌, ◌≤◌, ◌+◌, IfOk, OnOk, length, slice_index, slice_index_or, Contains};
ghost use Rattle.mesh_decl.specs.Mesh.{IsMapAt, map_count, set_size, map_to};
ghost use Rattle.renumber.specs.Neighbours.{are_neighbours, IsInverse};
ghost use Rattle.renumber.specs.Degrees.{degree_order};
ghost use Rattle.renumber.specs.Keys.{keyed};
ghost use Rattle.renumber.specs.Taken.{IsTaken, IsWalk, Rises};

mod by_target;
mod counts;
mod keys;
mod laws;
mod neighbours;

use crate::rows::Rows;
pub use by_target::inverse;
use counts::degrees;
pub use keys::by_keys;
pub use laws::one_taking_order;
use mesh_decl::Mesh;
pub use neighbours::unseen_neighbours;
use op_num::OutOfMemory;
use std::alloc::Global;

// Takes the neighbours of the element at a place that aren't taken, by (key, number); `found` is a scratch list.
fn take_neighbours(
    order: &mut Vec<u32>,
    seen: &mut [bool],
    found: &mut Vec<u32>,
    mesh: &Mesh,
    map: u32,
    by: &Rows,
    keys: &[u32],
    head: usize,
) -> Result<(), OutOfMemory>
    requires at { IsMapAt mesh.now map }
    requires map { map < map_count mesh.now }
    requires by { IsInverse mesh.now map by.now }
    requires walk { IsWalk (set_size mesh.now (map_to mesh.now map)) (are_neighbours mesh.now map) order.old.items seen.old head }
    requires head { head < length order.old.items }
    ensures walk { OnOk result
        (IsWalk (set_size mesh.now (map_to mesh.now map)) (are_neighbours mesh.now map) order.new.items seen.new (head + 1)) }
    ensures more { OnOk result (length order.old.items ≤ length order.new.items) }
    ensures taken { OnOk result
        (IsTaken (set_size mesh.now (map_to mesh.now map)) (are_neighbours mesh.now map) (keyed keys.now) order.old.items
        → IsTaken (set_size mesh.now (map_to mesh.now map)) (are_neighbours mesh.now map) (keyed keys.now) order.new.items) }
    ensures kept { OnOk result ((y : ℕ) → slice_index_or seen.old y false ≡ true → slice_index_or seen.new y false ≡ true) }
{
    unseen_neighbours(found, mesh, map, by, order[head], seen, keys)?;
    for neighbour in found.as_slice() {
        if !seen[*neighbour as usize] {
            seen[*neighbour as usize] = true;
            order.push(*neighbour)?;
        }
    }
    Ok(())
}

// Takes neighbours until those of all that are taken are taken.
fn take_reached(
    order: &mut Vec<u32>,
    seen: &mut [bool],
    found: &mut Vec<u32>,
    mesh: &Mesh,
    map: u32,
    by: &Rows,
    keys: &[u32],
    from: usize,
) -> Result<(), OutOfMemory>
    requires at { IsMapAt mesh.now map }
    requires map { map < map_count mesh.now }
    requires by { IsInverse mesh.now map by.now }
    requires walk { IsWalk (set_size mesh.now (map_to mesh.now map)) (are_neighbours mesh.now map) order.old.items seen.old from }
    requires from { from ≤ length order.old.items }
    ensures walk { OnOk result
        (IsWalk (set_size mesh.now (map_to mesh.now map)) (are_neighbours mesh.now map) order.new.items seen.new (length order.new.items)) }
    ensures taken { OnOk result
        (IsTaken (set_size mesh.now (map_to mesh.now map)) (are_neighbours mesh.now map) (keyed keys.now) order.old.items
        → IsTaken (set_size mesh.now (map_to mesh.now map)) (are_neighbours mesh.now map) (keyed keys.now) order.new.items) }
    ensures kept { OnOk result ((y : ℕ) → slice_index_or seen.old y false ≡ true → slice_index_or seen.new y false ≡ true) }
{
    let mut head = from;
    while head < order.len() {
        take_neighbours(order, seen, found, mesh, map, by, keys, head)?;
        head += 1;
    }
    Ok(())
}

// All elements, breadth first from each start that isn't reached yet; `starts` has every element, by (key, number).
fn breadth_first(
    alloc: Global,
    mesh: &Mesh,
    map: u32,
    by: &Rows,
    keys: &[u32],
    starts: &[u32],
) -> Result<Vec<u32>, OutOfMemory>
    requires at { IsMapAt mesh.now map }
    requires map { map < map_count mesh.now }
    requires by { IsInverse mesh.now map by.now }
    requires starts { (i : ℕ) → i < length starts.now → slice_index starts.now i < set_size mesh.now (map_to mesh.now map) }
    requires all { (y : ℕ) → y < set_size mesh.now (map_to mesh.now map) → Contains starts.now y }
    requires rises { Rises (keyed keys.now) starts.now }
    ensures length { IfOk result (λ v. length v.items ≡ set_size mesh.now (map_to mesh.now map)) }
    ensures all { IfOk result (λ v. (y : ℕ) → y < set_size mesh.now (map_to mesh.now map) → Contains v.items y) }
    ensures taken { IfOk result
        (λ v. IsTaken (set_size mesh.now (map_to mesh.now map)) (are_neighbours mesh.now map) (keyed keys.now) v.items) }
{
    let (_, to, _) = mesh.map_ends(map);
    let size = mesh.set_size(to) as usize;
    let mut seen = vec![in alloc; false; size]?;
    let mut order = Vec::with_capacity(alloc, size)?;
    let mut found = Vec::new(alloc);
    for start in starts {
        if !seen[*start as usize] {
            let from = order.len();
            seen[*start as usize] = true;
            order.push(*start)?;
            take_reached(&mut order, &mut seen, &mut found, mesh, map, by, keys, from)?;
        }
    }
    Ok(order)
}

/// The order in which Cuthill and McKee take the elements of the set to which the map numbered `map` leads: two
/// elements are neighbours where one element has both as targets, and the degree is the number of neighbours. Each walk
/// starts with the element of least (degree, number) that isn't taken. Every element stands in the order. It takes time
/// linear in the pairs of targets of one element and n log n in the elements, memory linear in the targets, and fails
/// only for want of memory.
pub fn taking_order(alloc: Global, mesh: &Mesh, map: u32) -> Result<Vec<u32>, OutOfMemory>
    requires { map < map_count mesh.now }
    ensures length { IfOk result (λ v. length v.items ≡ set_size mesh.now (map_to mesh.now map)) }
    ensures all { IfOk result (λ v. (y : ℕ) → y < set_size mesh.now (map_to mesh.now map) → Contains v.items y) }
    ensures taken { IfOk result
        (λ v. IsTaken (set_size mesh.now (map_to mesh.now map)) (are_neighbours mesh.now map) (degree_order mesh.now map) v.items) }
{
    mesh.is_in_range();
    let by = inverse(alloc, mesh, map)?;
    let keys = degrees(alloc, mesh, map, &by)?;
    let starts = by_keys(alloc, &keys)?;
    let order = breadth_first(alloc, mesh, map, &by, &keys, &starts)?;
    Ok(order)
}
