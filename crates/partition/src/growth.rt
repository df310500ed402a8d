// Owners of one set by growth over neighbours.
ghost use Rattle.std.specs.Prelude.{◌≡◌, ◌≢◌, ℕ, true, false, not, ◌<◌, ◌≤◌, ◌+◌, ◌^◌, IfOk, OnOk, count_by, length, slice_index};
ghost use Rattle.std.specs.Prelude.{slice_index_or};
ghost use Rattle.mesh_decl.specs.Mesh.{IsMapAt, map_count, set_size, map_to};
ghost use Rattle.renumber.specs.Neighbours.{are_neighbours, IsInverse};
ghost use Rattle.renumber.specs.Taken.{IsWalk};
ghost use Rattle.partition.specs.Block.{InBlock, block_start};
ghost use Rattle.partition.specs.Grow.{AreNextFree, IsGrown, IsGrowing};

use crate::blocks::block_owner;
use mesh_decl::Mesh;
use op_num::OutOfMemory;
use renumber::breadth_order::{inverse, unseen_neighbours};
use renumber::rows::Rows;
use std::alloc::Global;

// The least element that isn't marked, where those below `from` are.
fn least_free(seen: &[bool], from: usize) -> usize
    requires some { 0 < count_by (λ b. not b) seen.now }
    requires before { (y : ℕ) → y < from → slice_index_or seen.now y false ≡ true }
    ensures within { result < length seen.now }
    ensures free { slice_index_or seen.now result false ≡ false }
    ensures before { (y : ℕ) → y < result → slice_index_or seen.now y false ≡ true }
{
    let mut least = from;
    while seen[least] {
        least += 1;
    }
    least
}

// Takes the neighbours of the element at a place that aren't taken, by number, until `end` elements are taken.
fn take_neighbours(
    order: &mut Vec<u32>,
    seen: &mut [bool],
    found: &mut Vec<u32>,
    mesh: &Mesh,
    map: u32,
    by: &Rows,
    head: usize,
    end: usize,
) -> Result<(), OutOfMemory>
    requires walk { IsWalk (set_size mesh.now (map_to mesh.now map)) (are_neighbours mesh.now map) order.old.items seen.old 0 }
    requires head { head < length order.old.items }
    requires end { length order.old.items ≤ end }
    requires at { IsMapAt mesh.now map }
    requires map { map < map_count mesh.now }
    requires by { IsInverse mesh.now map by.now }
    ensures walk { OnOk result (IsWalk (set_size mesh.now (map_to mesh.now map)) (are_neighbours mesh.now map) order.new.items seen.new 0) }
    ensures more { OnOk result (length order.old.items ≤ length order.new.items) }
    ensures end { OnOk result (length order.new.items ≤ end) }
    ensures kept { OnOk result ((y : ℕ) → slice_index_or seen.old y false ≡ true → slice_index_or seen.new y false ≡ true) }
    ensures grown { OnOk result ((ranks i : ℕ) → end ≡ block_start (set_size mesh.now (map_to mesh.now map)) ranks (i + 1)
        → block_start (set_size mesh.now (map_to mesh.now map)) ranks i ≤ head
        → IsGrowing (set_size mesh.now (map_to mesh.now map)) ranks (are_neighbours mesh.now map) i head order.old.items seen.old
        → IsGrowing (set_size mesh.now (map_to mesh.now map)) ranks (are_neighbours mesh.now map) i (head + 1) order.new.items seen.new) }
{
    unseen_neighbours(found, mesh, map, by, order[head], seen, &[])?;
    for neighbour in found.as_slice() {
        if order.len() < end && !seen[*neighbour as usize] {
            seen[*neighbour as usize] = true;
            order.push(*neighbour)?;
        }
    }
    Ok(())
}

// Takes elements for one rank until `end` elements are taken, where those below `from` are; below what is answered they
// are then.
fn take_share(
    order: &mut Vec<u32>,
    seen: &mut [bool],
    found: &mut Vec<u32>,
    mesh: &Mesh,
    map: u32,
    by: &Rows,
    end: usize,
    from: usize,
) -> Result<usize, OutOfMemory>
    requires few { set_size mesh.now (map_to mesh.now map) < 2 ^ 32 }
    requires walk { IsWalk (set_size mesh.now (map_to mesh.now map)) (are_neighbours mesh.now map) order.old.items seen.old 0 }
    requires end { end ≤ set_size mesh.now (map_to mesh.now map) }
    requires more { length order.old.items ≤ end }
    requires at { IsMapAt mesh.now map }
    requires map { map < map_count mesh.now }
    requires by { IsInverse mesh.now map by.now }
    requires before { (y : ℕ) → y < from → slice_index_or seen.old y false ≡ true }
    ensures walk { OnOk result (IsWalk (set_size mesh.now (map_to mesh.now map)) (are_neighbours mesh.now map) order.new.items seen.new 0) }
    ensures end { OnOk result (length order.new.items ≡ end) }
    ensures before { IfOk result (λ least. (y : ℕ) → y < least → slice_index_or seen.new y false ≡ true) }
    ensures grown { OnOk result ((ranks i : ℕ) → 0 < ranks → end ≡ block_start (set_size mesh.now (map_to mesh.now map)) ranks (i + 1)
        → length order.old.items ≡ block_start (set_size mesh.now (map_to mesh.now map)) ranks i
        → AreNextFree (set_size mesh.now (map_to mesh.now map)) ranks (are_neighbours mesh.now map) order.old.items
        → AreNextFree (set_size mesh.now (map_to mesh.now map)) ranks (are_neighbours mesh.now map) order.new.items) }
{
    let mut least = from;
    let mut head = order.len();
    while order.len() < end {
        if head == order.len() {
            least = least_free(seen, least);
            seen[least] = true;
            order.push(least as u32)?;
        }
        take_neighbours(order, seen, found, mesh, map, by, head, end)?;
        head += 1;
    }
    Ok(least)
}

// All elements in the order in which they are given to ranks.
fn giving_order(alloc: Global, mesh: &Mesh, map: u32, ranks: u32) -> Result<Vec<u32>, OutOfMemory>
    requires sizes { (s : ℕ) → set_size mesh.now s < 2 ^ 32 }
    requires some { 0 < ranks }
    requires at { IsMapAt mesh.now map }
    requires map { map < map_count mesh.now }
    ensures length { IfOk result (λ v. length v.items ≡ set_size mesh.now (map_to mesh.now map)) }
    ensures within { IfOk result (λ v. (k : ℕ) → k < length v.items → slice_index v.items k < set_size mesh.now (map_to mesh.now map)) }
    ensures apart { IfOk result (λ v. (j k : ℕ) → j < k → k < length v.items → slice_index v.items j ≢ slice_index v.items k) }
    ensures next { IfOk result (λ v. AreNextFree (set_size mesh.now (map_to mesh.now map)) ranks (are_neighbours mesh.now map) v.items) }
{
    let by = inverse(alloc, mesh, map)?;
    let (_, to, _) = mesh.map_ends(map);
    let size = mesh.set_size(to) as usize;
    let mut found = Vec::new(alloc);
    let mut seen = vec![in alloc; false; size]?;
    let mut order = Vec::with_capacity(alloc, size)?;
    let mut least = 0;
    for rank in 0..ranks {
        let end = (rank as u64 + 1) * size as u64 / ranks as u64;
        least = take_share(
            &mut order,
            &mut seen,
            &mut found,
            mesh,
            map,
            &by,
            end as usize,
            least,
        )?;
    }
    Ok(order)
}

// Gives each rank the elements at the places of its block.
fn owners_by_places(alloc: Global, order: &[u32], ranks: u32) -> Result<Vec<u32>, OutOfMemory>
    requires some { 0 < ranks }
    requires few { length order.now < 2 ^ 32 }
    requires within { (k : ℕ) → k < length order.now → slice_index order.now k < length order.now }
    requires apart { (j k : ℕ) → j < k → k < length order.now → slice_index order.now j ≢ slice_index order.now k }
    ensures length { IfOk result (λ v. length v.items ≡ length order.now) }
    ensures below { IfOk result (λ v. (x : ℕ) → x < length order.now → slice_index v.items x < ranks) }
    ensures owners { IfOk result (λ v. (k i : ℕ) → k < length order.now → InBlock (length order.now) ranks i k
        → slice_index v.items (slice_index order.now k) ≡ i) }
{
    let size = order.len() as u32;
    let mut owners = vec![in alloc; 0; order.len()]?;
    for place in 0..size {
        owners[order[place as usize] as usize] = block_owner(size, ranks, place);
    }
    Ok(owners)
}

/// The owners of the set to which a map leads, by growth over neighbours.
pub fn grow_set(alloc: Global, mesh: &Mesh, map: u32, ranks: u32) -> Result<Vec<u32>, OutOfMemory>
    requires at { IsMapAt mesh.now map }
    requires map { map < map_count mesh.now }
    requires sizes { (s : ℕ) → set_size mesh.now s < 2 ^ 32 }
    requires some { 0 < ranks }
    ensures length { IfOk result (λ v. length v.items ≡ set_size mesh.now (map_to mesh.now map)) }
    ensures below { IfOk result (λ v. (x : ℕ) → x < set_size mesh.now (map_to mesh.now map) → slice_index v.items x < ranks) }
    ensures grown { IfOk result
        (λ v. IsGrown (set_size mesh.now (map_to mesh.now map)) ranks (are_neighbours mesh.now map) (slice_index v.items)) }
{
    let order = giving_order(alloc, mesh, map, ranks)?;
    let owners = owners_by_places(alloc, &order, ranks)?;
    Ok(owners)
}
