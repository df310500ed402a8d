// The neighbours of one element.
ghost use Rattle.std.specs.Prelude.{◌≡◌, ◌<◌, ℕ, false, length, OnOk, slice_index_or};
ghost use Rattle.mesh_decl.specs.Mesh.{map_count, set_size, map_to};
ghost use Rattle.renumber.specs.Neighbours.{IsInverse};
ghost use Rattle.metis_text.specs.Graph.{AreNeighbours};

use mesh_decl::Mesh;
use op_num::OutOfMemory;
use renumber::breadth_order::unseen_neighbours;
use renumber::rows::Rows;

/// Puts the neighbours by a map of an element into `found`, in place of what it has, each once, in increasing order.
/// `by` is the map's inverse, and `seen` marks nothing. An error is want of memory.
pub fn next_row(
    found: &mut Vec<u32>,
    mesh: &Mesh,
    map: u32,
    by: &Rows,
    element: u32,
    seen: &[bool],
) -> Result<(), OutOfMemory>
    requires map { map < map_count mesh.now }
    requires element { element < set_size mesh.now (map_to mesh.now map) }
    requires by { IsInverse mesh.now map by.now }
    requires seen { length seen.now ≡ set_size mesh.now (map_to mesh.now map) }
    requires none { (y : ℕ) → slice_index_or seen.now y false ≡ false }
    ensures { OnOk result (AreNeighbours mesh.now map element found.new.items) }
{
    unseen_neighbours(found, mesh, map, by, element, seen, &[])?;
    found.dedup();
    Ok(())
}
