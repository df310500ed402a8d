// The order of one set.
ghost use Rattle.std.specs.Prelude.{◌≡◌, ℕ, ◌<◌, ◌^◌, IfOk, length, reverse, slice_index};
ghost use Rattle.mesh_decl.specs.Mesh.{IsMapAt, map_count, set_count, set_size, map_to};
ghost use Rattle.mesh_decl.specs.Owners.{IsNumbering};
ghost use Rattle.renumber.specs.CuthillMcKee.{IsSetOrder};

use crate::by_targets::by_targets;
use mesh_decl::Mesh;
use op_num::OutOfMemory;
use std::alloc::Global;

/// The numbers below a bound, in increasing order.
pub fn counting(alloc: Global, size: u32) -> Result<Vec<u32>, OutOfMemory>
    ensures length { IfOk result (λ v. length v.items ≡ size) }
    ensures kept { IfOk result (λ v. (x : ℕ) → x < size → slice_index v.items x ≡ x) }
{
    let mut numbers = Vec::with_capacity(alloc, size as usize)?;
    for number in 0..size {
        numbers.push(number)?;
    }
    Ok(numbers)
}

/// The numbers from the last to the first.
pub fn reversed(alloc: Global, numbers: &[u32]) -> Result<Vec<u32>, OutOfMemory>
    ensures { IfOk result (λ v. v.items ≡ reverse numbers.now) }
{
    numbers.iter().rev().copied().collect(alloc)
}

/// The original numbers of a set by new number, where `order` has those of the set to which the map leads.
pub fn set_order(
    alloc: Global,
    mesh: &Mesh,
    map: u32,
    order: &[u32],
    set: u32,
) -> Result<Vec<u32>, OutOfMemory>
    requires at { IsMapAt mesh.now map }
    requires sizes { (s : ℕ) → set_size mesh.now s < 2 ^ 32 }
    requires map { map < map_count mesh.now }
    requires order { IsNumbering (set_size mesh.now (map_to mesh.now map)) order.now }
    requires set { set < set_count mesh.now }
    ensures { IfOk result (λ v. IsSetOrder mesh.now map order.now set v.items) }
{
    let (from, to, _) = mesh.map_ends(map);
    if set == to {
        let same = Vec::from_slice(alloc, order)?;
        return Ok(same);
    }
    if set == from {
        let ordered = by_targets(alloc, mesh, map, order)?;
        return Ok(ordered);
    }
    let kept = counting(alloc, mesh.set_size(set))?;
    Ok(kept)
}
