// Shapes of cells.
ghost use Rattle.std.specs.Prelude.{◌≡◌, ◌<◌, slice_index};
ghost use Rattle.gmsh_mesh.specs.Sides.{nodes, sides, side_nodes, corners, corner_count};

/// The shape of all cells of a mesh: one whose sides have the same number of nodes, so that a side is a row of a table.
#[derive(Clone, Copy, Debug, PartialEq, Eq)]
pub enum Shape {
    Triangle,
    Quadrangle,
    Tetrahedron,
    Hexahedron,
}

impl Shape {
    /// How many nodes a cell has.
    pub fn nodes(self) -> usize
        ensures { result ≡ nodes self }
    {
        match self {
            Shape::Triangle => 3,
            Shape::Quadrangle | Shape::Tetrahedron => 4,
            Shape::Hexahedron => 8,
        }
    }

    /// How many sides a cell has.
    pub fn sides(self) -> usize
        ensures { result ≡ sides self }
    {
        match self {
            Shape::Triangle => 3,
            Shape::Quadrangle | Shape::Tetrahedron => 4,
            Shape::Hexahedron => 6,
        }
    }

    /// How many nodes a side has.
    pub fn side_nodes(self) -> usize
        ensures { result ≡ side_nodes self }
    {
        match self {
            Shape::Triangle | Shape::Quadrangle => 2,
            Shape::Tetrahedron => 3,
            Shape::Hexahedron => 4,
        }
    }

    // The number, in its cell, of the node at a place of the cell's sides.
    pub(crate) fn corner(self, place: usize) -> usize
        requires { place < corner_count self }
        ensures corner { result ≡ slice_index (corners self) place }
        ensures small { result < nodes self }
    {
        match self {
            Shape::Triangle => [0, 1, 1, 2, 2, 0][place],
            Shape::Quadrangle => [0, 1, 1, 2, 2, 3, 3, 0][place],
            Shape::Tetrahedron => [0, 2, 1, 0, 1, 3, 0, 3, 2, 3, 1, 2][place],
            Shape::Hexahedron => {
                [
                    0, 3, 2, 1, 0, 1, 5, 4, 0, 4, 7, 3, 1, 2, 6, 5, 2, 3, 7, 6, 4, 5, 6, 7,
                ][place]
            }
        }
    }
}
