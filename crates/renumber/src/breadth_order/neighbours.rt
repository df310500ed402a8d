// The neighbours of an element that aren't marked.
ghost use Rattle.std.specs.Prelude.{◌≡◌, ◌≢◌, ◌⊎◌, ℕ, Bool, true, false, ◌<◌, ◌≤◌, IfOk, OnOk, length, slice_index_or, Contains};
ghost use Rattle.mesh_decl.specs.Mesh.{map_count, set_size, map_from, map_to};
ghost use Rattle.renumber.specs.Keys.{keyed};
ghost use Rattle.renumber.specs.Neighbours.{has_target, IsInverse};
ghost use Rattle.renumber.specs.Unseen.{AreUnseen};

use crate::rows::Rows;
use mesh_decl::Mesh;
use op_num::OutOfMemory;

// Orders numbers by (key, number); a number without a key has 0.
fn key_of(keys: &[u32], number: u32) -> u64
    ensures { result ≡ keyed keys.now number }
{
    let key = keys.get(number as usize).copied().unwrap_or(0);
    key as u64 * 4294967296 + number as u64
}

// Appends the targets of an element that aren't marked, but one.
fn push_unseen(
    found: &mut Vec<u32>,
    mesh: &Mesh,
    map: u32,
    element: u32,
    seen: &[bool],
    besides: u32,
) -> Result<(), OutOfMemory>
    requires map { map < map_count mesh.now }
    requires element { element < set_size mesh.now (map_from mesh.now map) }
    requires seen { length seen.now ≡ set_size mesh.now (map_to mesh.now map) }
    ensures new { OnOk result ((y : ℕ) → Contains found.new.items y → Contains found.old.items y
        ⊎ ((has_target mesh.now map element y ≡ true) × (y ≢ besides))) }
    ensures kept { OnOk result ((y : ℕ) → Contains found.old.items y → Contains found.new.items y) }
    ensures all { OnOk result ((y : ℕ) → has_target mesh.now map element y ≡ true → y ≢ besides → slice_index_or seen.now y false ≡ false
        → Contains found.new.items y) }
{
    let (_, _, dim) = mesh.map_ends(map);
    for place in 0..dim {
        let target = mesh.target(map, element, place);
        if target != besides && !seen[target as usize] {
            found.push(target)?;
        }
    }
    Ok(())
}

/// Puts the neighbours by a map of an element of its to set that aren't marked in `seen` into `found`, in place of what
/// it has, by (key, number); one may stand more than once. `by` is the map's inverse; a number without a key has the
/// key 0. It takes time linear in the targets of the elements that have the element as a target, and n log n in what
/// isn't marked.
pub fn unseen_neighbours(
    found: &mut Vec<u32>,
    mesh: &Mesh,
    map: u32,
    by: &Rows,
    element: u32,
    seen: &[bool],
    keys: &[u32],
) -> Result<(), OutOfMemory>
    requires map { map < map_count mesh.now }
    requires element { element < set_size mesh.now (map_to mesh.now map) }
    requires by { IsInverse mesh.now map by.now }
    requires seen { length seen.now ≡ set_size mesh.now (map_to mesh.now map) }
    ensures { OnOk result (AreUnseen mesh.now map element seen.now keys.now found.new.items) }
{
    found.clear();
    for having in by.row(element as usize) {
        push_unseen(found, mesh, map, *having, seen, element)?;
    }
    found.sort_unstable_by_key(|number| key_of(keys, *number));
    Ok(())
}
