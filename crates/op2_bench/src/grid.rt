// A square grid of cells, with an edge between each two neighbours.
ghost use Rattle.std.specs.Prelude.{◌<◌, ◌≤◌};

use mesh_decl::Mesh;
use op_num::{Name, OutOfMemory};
use std::alloc::{AllocError, Global};

// The cells of each edge: of cell 0 to the next of its row, then to the next of its column, and so on.
fn cells_of_edges(alloc: Global, side: u32) -> Result<Vec<i32>, OutOfMemory>
    requires some { 0 < side }
    requires few { side ≤ 4096 }
{
    let mut ends = Vec::new(alloc);
    let mut first = 0u32;
    for _row in 0..side {
        for column in 0..side {
            let cell = (first & 33554431) + column;
            if column + 1 < side {
                ends.push(cell as i32)?;
                ends.push((cell + 1) as i32)?;
            }
            if (cell + side) / side < side {
                ends.push(cell as i32)?;
                ends.push((cell + side) as i32)?;
            }
        }
        first = (first & 33554431) + side;
    }
    Ok(ends)
}

// The column and the row of each cell.
fn places_of_cells(alloc: Global, side: u32) -> Result<Vec<i32>, OutOfMemory>
    requires { side ≤ 4096 }
{
    let mut places = Vec::new(alloc);
    for row in 0..side {
        for column in 0..side {
            places.push(column as i32)?;
            places.push(row as i32)?;
        }
    }
    Ok(places)
}

fn name(alloc: Global, bytes: &[u8]) -> Result<Name, OutOfMemory> {
    Ok(Name::new(Vec::from_slice(alloc, bytes)?))
}

/// The sets `cells` and `edges`, the map `ends` from edges to the two cells of each, and the dat `x` with the column
/// and the row of each cell.
#[tactic(auto, unfolding(mesh_decl::specs::Mesh::size_in))]
pub fn grid(alloc: Global, side: u32) -> Result<Mesh, OutOfMemory>
    requires some { 0 < side }
    requires few { side ≤ 4096 }
{
    let ends = cells_of_edges(alloc, side)?;
    let edges = ends.len() / 2;
    let mut mesh = Mesh::new(alloc);
    if edges >= 4294967295 || ends.len() != edges * 2 {
        return Ok(mesh);
    }
    let cells = side * side;
    mesh.add_set(name(alloc, b"cells")?, cells)?;
    mesh.add_set(name(alloc, b"edges")?, edges as u32)?;
    if mesh.add_map(name(alloc, b"ends")?, 1, 0, 2, ends).is_err() {
        return Err(AllocError);
    }
    let places = places_of_cells(alloc, side)?;
    if places.len() == cells as usize * 2 && mesh.set_count() == 2 && mesh.set_size(0) == cells {
        mesh.add_dat(name(alloc, b"x")?, 0, 2, places)?;
    }
    Ok(mesh)
}
