// The polygons of cells.
ghost use Rattle.std.specs.Prelude.{◌≡◌, ◌+◌, ◌*◌, ◌<◌, ◌==◌, ◌++◌, [], ◌∷◌, All, length, OnOk, if◌then◌else◌};
ghost use Rattle.std.specs.List.{flat_map};
ghost use Rattle.mesh_draw.specs.Tree.{printed};
ghost use Rattle.mesh_draw.specs.Frame.{coordinate, from_left, from_top};
ghost use Rattle.mesh_draw.specs.Picture.{point_text, points_text, polygon_of, polygon, polygons, cell_count, IsColour, IsPlane};

use crate::markup::{Attribute, put_empty};
use crate::picture::frame::{Frame, above_low, below_high};
use crate::picture::palette::colour;
use crate::shapes::Shape;
use mesh_decl::Mesh;
use op_num::{OutOfMemory, put_u64};

// Coordinate `k` of a node.
fn coordinate(values: &[i32], node: u32, k: usize) -> i32
    requires k { k < 2 }
    requires node { node * 2 + k < length values.now }
    ensures { result ≡ coordinate values.now node k }
{
    values[node as usize * 2 + k]
}

// How far a node lies from the left.
fn from_left(frame: Frame, values: &[i32], node: u32) -> u64
    requires { node * 2 + 1 < length values.now }
    ensures { result ≡ from_left frame values.now node }
{
    above_low(frame.across, coordinate(values, node, 0))
}

// How far a node lies from the top.
fn from_top(frame: Frame, values: &[i32], node: u32) -> u64
    requires { node * 2 + 1 < length values.now }
    ensures { result ≡ from_top frame values.now node }
{
    below_high(frame.up, coordinate(values, node, 1))
}

// The place of a node.
fn put_point(out: &mut Vec<u8>, frame: Frame, values: &[i32], node: u32) -> Result<(), OutOfMemory>
    requires { node * 2 + 1 < length values.now }
    ensures { OnOk result (out.new.items ≡ out.old.items ++ point_text frame values.now node) }
{
    put_u64(out, from_left(frame, values, node))?;
    out.extend_from_slice(b",")?;
    put_u64(out, from_top(frame, values, node))
}

// A space, where this place isn't the first.
fn put_gap(out: &mut Vec<u8>, place: u32) -> Result<(), OutOfMemory>
    ensures { OnOk result (out.new.items ≡ out.old.items ++ (if place == 0 then [] else 32 ∷ [])) }
{
    if place == 0 {
        return Ok(());
    }
    out.extend_from_slice(b" ")
}

// The places of a cell's nodes.
fn put_points(
    out: &mut Vec<u8>,
    mesh: &Mesh,
    shape: Shape,
    frame: Frame,
    cell: u32,
) -> Result<(), OutOfMemory>
    requires plane { IsPlane mesh.now shape }
    requires cell { cell < cell_count mesh.now shape }
    ensures { OnOk result (out.new.items ≡ out.old.items ++ points_text mesh.now shape frame cell) }
{
    mesh.is_in_range();
    let (_, _, nodes) = mesh.map_ends(shape.cells);
    let values = mesh.dat_values(shape.coords);
    for place in 0..nodes {
        let node = mesh.target(shape.cells, cell, place);
        put_gap(out, place)?;
        put_point(out, frame, values, node)?;
    }
    Ok(())
}

// A polygon with these places of nodes, of a colour.
fn put_filled<'a>(out: &mut Vec<u8>, points: &'a [u8], fill: &'a [u8]) -> Result<(), OutOfMemory>
    ensures { OnOk result (out.new.items ≡ out.old.items ++ printed (polygon_of points.now fill.now)) }
{
    put_empty(
        out,
        "polygon",
        &[
            Attribute {
                name: "points",
                value: points,
            },
            Attribute {
                name: "fill",
                value: fill,
            },
        ],
    )
}

// The polygon of a cell. What is in `points` is lost.
fn put_polygon(
    out: &mut Vec<u8>,
    points: &mut Vec<u8>,
    mesh: &Mesh,
    shape: Shape,
    frame: Frame,
    fills: &[u8],
    cell: u32,
) -> Result<(), OutOfMemory>
    requires plane { IsPlane mesh.now shape }
    requires cell { cell < cell_count mesh.now shape }
    requires count { length fills.now ≡ cell_count mesh.now shape }
    requires colours { All IsColour fills.now }
    ensures { OnOk result (out.new.items ≡ out.old.items ++ printed (polygon mesh.now shape frame fills.now cell)) }
{
    points.clear();
    put_points(points, mesh, shape, frame, cell)?;
    put_filled(out, points, colour(fills[cell as usize]))
}

/// Appends the polygons of all cells, in order, each filled with its colour.
pub fn put_polygons(
    out: &mut Vec<u8>,
    points: &mut Vec<u8>,
    mesh: &Mesh,
    shape: Shape,
    frame: Frame,
    fills: &[u8],
) -> Result<(), OutOfMemory>
    requires plane { IsPlane mesh.now shape }
    requires count { length fills.now ≡ cell_count mesh.now shape }
    requires colours { All IsColour fills.now }
    ensures { OnOk result (out.new.items ≡ out.old.items ++ flat_map printed (polygons mesh.now shape frame fills.now)) }
{
    mesh.is_in_range();
    let (cells, _, _) = mesh.map_ends(shape.cells);
    for cell in 0..mesh.set_size(cells) {
        put_polygon(out, points, mesh, shape, frame, fills, cell)?;
    }
    Ok(())
}
