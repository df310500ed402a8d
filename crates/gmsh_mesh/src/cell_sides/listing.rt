// The sides of all cells.
ghost use Rattle.std.specs.Prelude.{◌≡◌, ◌+◌, ◌*◌, ◌<◌, ◌^◌, ℕ, IfOk, length, slice_index};
ghost use Rattle.gmsh_mesh.specs.Sides.{nodes, sides, side_nodes, corner_count, source, AreSides, IsOfSide};
ghost use Rattle.gmsh_mesh.specs.declared.cell_sides.shape.Shape.{Shape};

use crate::cell_sides::shape::Shape;
use std::alloc::{AllocError, Global};

/// The nodes of all sides of all cells, cell for cell and side for side, each side's in the order in which they run
/// round it. `cells` has the nodes of `count` cells, cell for cell. It fails only for want of memory.
pub fn all_sides(
    alloc: Global,
    shape: Shape,
    count: usize,
    cells: &[u32],
) -> Result<Vec<u32>, AllocError>
    requires few { count < 2 ^ 32 }
    requires table { length cells.now ≡ count * nodes shape }
    ensures { IfOk result (λ all. AreSides shape count cells.now all.items) }
{
    let size = count * (shape.sides() * shape.side_nodes());
    let mut all = Vec::with_capacity(alloc, size)?;
    for place in 0..size {
        let source = source_of(shape, place);
        all.push(cells[source])?;
    }
    Ok(all)
}

// Where the node at a place of all cells' sides stands among all cells' nodes.
fn source_of(shape: Shape, place: usize) -> usize
    requires { place < 2 ^ 37 }
    ensures source { result ≡ source shape place }
    ensures within { (count : ℕ) → place < count * corner_count shape → result < count * nodes shape }
{
    let corners = shape.sides() * shape.side_nodes();
    place / corners * shape.nodes() + shape.corner(place % corners)
}

/// A law: node `k` of side `j` of cell `c` stands where sides are listed one behind another.
pub fn side_is_of_cell()
    ensures { (shape : Shape) (c j k : ℕ) → j < sides shape → k < side_nodes shape → IsOfSide shape c j k }
{}
