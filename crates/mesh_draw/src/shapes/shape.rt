// The dat of the coordinates, the map of the cells, and what the cells are.
ghost use Rattle.std.specs.Prelude.{◌≡◌, IfOk, IfErr};
ghost use Rattle.mesh_draw.specs.Shapes.{kind_of, IsShape, IsUnshaped};

use mesh_decl::Mesh;
use thiserror::Error;

/// What the cells of a mesh are, by the number of their nodes and of the coordinates of each.
#[derive(Clone, Copy, Debug, PartialEq, Eq)]
pub enum CellKind {
    /// Three nodes, in the plane or in space.
    Triangle,
    /// Four nodes in the plane, in an order in which one runs round the cell.
    Quad,
    /// Four nodes in space.
    Tetrahedron,
    /// Eight nodes in space: four in an order in which one runs round a face, and the four opposite to them in the same
    /// order.
    Hexahedron,
}

/// The numbers of the dat that has the coordinates of the nodes and of the map that leads from each cell to its nodes,
/// and what the cells are.
#[derive(Clone, Copy, Debug, PartialEq, Eq)]
pub struct Shape {
    pub coords: u32,
    pub cells: u32,
    pub kind: CellKind,
}

/// Why two names give no shape. The first that is so counts, in this order.
#[derive(Clone, Copy, Debug, PartialEq, Eq, Error)]
pub enum ShapeRefusal {
    /// No dat has the name of the coordinates.
    #[error("no dat has the name of the coordinates")]
    NoDat,
    /// No map has the name of the cells.
    #[error("no map has the name of the cells")]
    NoMap,
    /// The map doesn't lead to the set that the dat is on.
    #[error("the map doesn't lead to the dat's set")]
    OtherSets,
    /// No cells have as many nodes as the map's dim says, in as many coordinates as the dat's dim says.
    #[error("no cells have these dims")]
    Dims,
}

// What cells with so many nodes are, each node having so many coordinates.
fn kind_of(coords: u32, nodes: u32) -> Option<CellKind>
    ensures { result ≡ kind_of coords nodes }
{
    match (coords, nodes) {
        (2, 3) => Some(CellKind::Triangle),
        (2, 4) => Some(CellKind::Quad),
        (3, 3) => Some(CellKind::Triangle),
        (3, 4) => Some(CellKind::Tetrahedron),
        (3, 8) => Some(CellKind::Hexahedron),
        _ => None,
    }
}

/// The shape of a mesh's cells by the first dat named `coords`, which has the coordinates of the nodes, two or three
/// for each, and the first map named `cells`, which leads from each cell to its nodes. It takes no memory.
///
/// # Errors
/// The first cause of [`ShapeRefusal`] that is so.
pub fn shape_of(mesh: &Mesh, coords: &[u8], cells: &[u8]) -> Result<Shape, ShapeRefusal>
    ensures ok { IfOk result (IsShape mesh.now coords.now cells.now) }
    ensures err { IfErr result (IsUnshaped mesh.now coords.now cells.now) }
{
    let Some(dat) = mesh.dat_named(coords) else {
        return Err(ShapeRefusal::NoDat);
    };
    let Some(map) = mesh.map_named(cells) else {
        return Err(ShapeRefusal::NoMap);
    };
    let (set, coords) = mesh.dat_shape(dat);
    let (_, to, nodes) = mesh.map_ends(map);
    if to != set {
        return Err(ShapeRefusal::OtherSets);
    }
    match kind_of(coords, nodes) {
        Some(kind) => Ok(Shape {
            coords: dat,
            cells: map,
            kind,
        }),
        None => Err(ShapeRefusal::Dims),
    }
}
