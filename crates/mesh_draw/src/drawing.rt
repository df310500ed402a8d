// The whole of what is drawn.
ghost use Rattle.std.specs.Prelude.{IfOk, IfErr};
ghost use Rattle.bound_program.specs.Values.{bound_of};
ghost use Rattle.mesh_draw.specs.Drawn.{IsPlaneShape, IsNotPlane, IsDrawn, IsUndrawn};

use crate::fills::fills_of;
use crate::labels::{labels_of, title_of};
use crate::picture::picture;
use crate::shapes::{Shape, shape_of};
use crate::types::DrawRefusal;
use bound_program::Mesh;
use cell_numbers::{Shown, numbers_of};
use loop_plan::planned_program::Planned;
use std::alloc::Global;

// The shape of the cells, in the plane.
fn plane_shape(mesh: &Mesh, coords: &[u8], cells: &[u8]) -> Result<Shape, DrawRefusal>
    ensures ok { IfOk result (λ s. IsPlaneShape mesh.now coords.now cells.now s) }
    ensures err { IfErr result (λ e. IsNotPlane mesh.now coords.now cells.now e) }
{
    let shape = shape_of(mesh, coords, cells)?;
    mesh.is_in_range();
    let (_, dim) = mesh.dat_shape(shape.coords);
    if dim != 2 {
        return Err(DrawRefusal::NotPlane);
    }
    Ok(shape)
}

/// The picture of a plane mesh on ranks, as an SVG: polygon i has the nodes of cell i, where the first dat named
/// `coords` says that they lie, and the first map named `cells` which they are; its colour is that of the cell's number
/// of what is shown.
///
/// # Errors
/// The first cause of [`DrawRefusal`] that is so; `Shown(OutOfMemory)` where memory runs out.
pub fn draw(
    alloc: Global,
    planned: &Planned<'_>,
    coords: &[u8],
    cells: &[u8],
    shown: Shown,
) -> Result<Vec<u8>, DrawRefusal>
    ensures ok { IfOk result (λ v. IsDrawn (bound_of planned.now.bound) planned.now.distribution planned.now.plan
        coords.now cells.now shown v.items) }
    ensures err { IfErr result (IsUndrawn (bound_of planned.now.bound) planned.now.distribution planned.now.plan
        coords.now cells.now shown) }
{
    let mesh = &planned.bound.mesh;
    let shape = plane_shape(mesh, coords, cells)?;
    mesh.is_in_range();
    let (set, _, _) = mesh.map_ends(shape.cells);
    let numbers = numbers_of(alloc, planned, set, shown)?;
    let fills = fills_of(alloc, shown, &numbers)?;
    let labels = labels_of(alloc, shown, planned.distribution.owners.ranks, &fills)?;
    let title = title_of(alloc, cells, shown)?;
    Ok(picture(alloc, mesh, shape, &fills, &title, &labels)?)
}
