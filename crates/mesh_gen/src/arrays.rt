// The arrays of the mesh.
ghost use Rattle.std.specs.Prelude.{◌≡◌, ◌<◌, ◌≤◌, ◌++◌, OnOk, IfOk, replicate};
ghost use Rattle.mesh_gen.specs.Grid.{nodes_of_cells, cells_of_edges, cells_of_boundary, walls, coordinates, sums, zeros};

use crate::places::{MAX_SIDE, Pattern, Side, put_rows, put_side};
use mesh_decl::text::Values;
use op_num::OutOfMemory;
use std::alloc::Global;

/// For each cell the four nodes around it.
pub fn cell_nodes(alloc: Global, n: u32) -> Result<Values, OutOfMemory>
    requires { n ≤ MAX_SIDE }
    ensures { IfOk result (λ v. v ≡ nodes_of_cells n) }
{
    let mut values = Vec::new(alloc);
    put_rows(&mut values, Pattern::AroundCell, n, n, n)?;
    Ok(Values::new(values))
}

/// For each edge the two cells that it separates.
pub fn edge_cells(alloc: Global, n: u32) -> Result<Values, OutOfMemory>
    requires some { 0 < n }
    requires size { n ≤ MAX_SIDE }
    ensures { IfOk result (λ v. v ≡ cells_of_edges n) }
{
    let mut values = Vec::new(alloc);
    put_rows(&mut values, Pattern::Beside, n, n - 1, n)?;
    put_rows(&mut values, Pattern::Above, n, n, n - 1)?;
    Ok(Values::new(values))
}

/// For each boundary edge its cell.
pub fn boundary_cells(alloc: Global, n: u32) -> Result<Values, OutOfMemory>
    requires some { 0 < n }
    requires size { n ≤ MAX_SIDE }
    ensures { IfOk result (λ v. v ≡ cells_of_boundary n) }
{
    let mut values = Vec::new(alloc);
    put_side(&mut values, Side::Bottom, n)?;
    put_side(&mut values, Side::Top, n)?;
    put_side(&mut values, Side::Left, n)?;
    put_side(&mut values, Side::Right, n)?;
    Ok(Values::new(values))
}

/// For each boundary edge what flows in over it.
pub fn wall_values(alloc: Global, n: u32) -> Result<Values, OutOfMemory>
    requires { n ≤ MAX_SIDE }
    ensures { IfOk result (λ v. v ≡ walls n) }
{
    let mut values = Vec::new(alloc);
    put_copies(&mut values, n, 1)?;
    put_copies(&mut values, n, -1)?;
    put_copies(&mut values, 2 * n, 0)?;
    Ok(Values::new(values))
}

/// For each node its column and its row.
pub fn node_coordinates(alloc: Global, n: u32) -> Result<Values, OutOfMemory>
    requires { n ≤ MAX_SIDE }
    ensures { IfOk result (λ v. v ≡ coordinates n) }
{
    let mut values = Vec::new(alloc);
    put_rows(&mut values, Pattern::Coordinates, n, n + 1, n + 1)?;
    Ok(Values::new(values))
}

/// For each cell the sum of its column and its row.
pub fn cell_sums(alloc: Global, n: u32) -> Result<Values, OutOfMemory>
    requires { n ≤ MAX_SIDE }
    ensures { IfOk result (λ v. v ≡ sums n) }
{
    let mut values = Vec::new(alloc);
    put_rows(&mut values, Pattern::Sum, n, n, n)?;
    Ok(Values::new(values))
}

/// For each cell 0.
#[tactic(auto, using(crate::proofs::Bounds::product_fits))]
pub fn cell_zeros(alloc: Global, n: u32) -> Result<Values, OutOfMemory>
    requires { n ≤ MAX_SIDE }
    ensures { IfOk result (λ v. v ≡ zeros n) }
{
    let mut values = Vec::new(alloc);
    put_copies(&mut values, n * n, 0)?;
    Ok(Values::new(values))
}

fn put_copies(values: &mut Vec<i32>, count: u32, value: i32) -> Result<(), OutOfMemory>
    ensures { OnOk result (values.new.items ≡ values.old.items ++ replicate count value) }
{
    values.resize(values.len() + count as usize, value)
}
