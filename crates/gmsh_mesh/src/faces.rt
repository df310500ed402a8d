// The faces of the cells.
ghost use Rattle.std.specs.Prelude.{◌≡◌, ◌*◌, ◌<◌, ◌≤◌, ◌^◌, IfOk, length};
ghost use Rattle.gmsh_mesh.specs.Sides.{nodes, sides as sides_of, side_nodes, AreSides};
ghost use Rattle.gmsh_mesh.specs.SideMates.{AreSideMates};
ghost use Rattle.gmsh_mesh.specs.Stages.{Gives};
ghost use Rattle.gmsh_mesh.specs.Faces.{MatesAre, AreFacesOf};
ghost use Rattle.gmsh_mesh.specs.Small.{AreSmall, AreSmallFaces};

use crate::cell_faces::side_mates;
use crate::cell_sides::Shape;
use crate::equal_keys::MateRefusal;
use crate::mesh_faces::{both_cells, cells_at, find_faces, rows_at, sides_are_of_faces};
use crate::refusal::GmshRefusal;
use std::alloc::{AllocError, Global};
use std::marker::Model;

// The nodes and the cells of faces, row for row: of those between two cells, and of those of the boundary.
#[derive(Drop)]
pub(crate) struct FaceRows {
    pub(crate) face: Vec<u32>,
    pub(crate) fcell: Vec<u32>,
    pub(crate) bface: Vec<u32>,
    pub(crate) bcell: Vec<u32>,
}

impl Model for FaceRows {
    ghost use Rattle.gmsh_mesh.specs.Faces.{FaceArrays};

    ghost Value = { FaceArrays };

    ghost view = { λ f. record { face = f.face.items; fcell = f.fcell.items; bface = f.bface.items; bcell = f.bcell.items } };
}

// For each side of the cells, whose tags stand on these lines, the other side of its face, or itself.
pub(crate) fn mates_of(
    alloc: Global,
    shape: Shape,
    lines: &[u32],
    sides: &[u32],
) -> Result<Vec<u32>, GmshRefusal>
    requires few { length lines.now < 2 ^ 28 }
    requires table { length sides.now ≡ length lines.now * sides_of shape * side_nodes shape }
    ensures { Gives result (λ v. v.items) (MatesAre shape lines.now sides.now) }
{
    let count = lines.len() * shape.sides();
    match side_mates(alloc, count, shape.side_nodes(), sides) {
        Ok(mates) => Ok(mates),
        Err(MateRefusal::Third { place }) => Err(GmshRefusal::ThirdCell {
            line: lines[place as usize / shape.sides()],
        }),
        Err(MateRefusal::OutOfMemory) => Err(GmshRefusal::OutOfMemory),
    }
}

// The faces of `count` cells: their sides and, for each, the other side of its face or itself.
pub(crate) fn face_rows(
    alloc: Global,
    shape: Shape,
    count: usize,
    sides: &[u32],
    mates: &[u32],
) -> Result<FaceRows, AllocError>
    requires few { count < 2 ^ 28 }
    requires table { length sides.now ≡ count * sides_of shape * side_nodes shape }
    requires mates { AreSideMates sides.now (side_nodes shape) (count * sides_of shape) mates.now }
    requires small { AreSmall sides.now }
    ensures faces { IfOk result (AreFacesOf shape count sides.now mates.now) }
    ensures small { IfOk result AreSmallFaces }
    ensures few { IfOk result (λ f. length f.bcell ≤ count * sides_of shape) }
    ensures table { IfOk result (λ f. length f.bface ≡ length f.bcell * side_nodes shape) }
{
    sides_are_of_faces();
    let width = shape.side_nodes();
    let faces = find_faces(alloc, mates)?;
    let face = rows_at(alloc, sides, width, &faces.inner)?;
    let fcell = both_cells(alloc, &faces.inner, mates, shape.sides() as u32)?;
    let bface = rows_at(alloc, sides, width, &faces.outer)?;
    let bcell = cells_at(alloc, &faces.outer, shape.sides() as u32)?;
    Ok(FaceRows {
        face,
        fcell,
        bface,
        bcell,
    })
}
