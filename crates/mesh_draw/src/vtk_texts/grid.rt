// The nodes, the cells and their types.
ghost use Rattle.std.specs.Prelude.{◌≡◌, ◌+◌, ◌*◌, ◌<◌, ◌≤◌, ◌++◌, nat_eq, codes, map, length, OnOk, if◌then◌else◌};
ghost use Rattle.std.specs.List.{range_with_len, concat};
ghost use Rattle.std.specs.Fmt.{decimal};
ghost use Rattle.mesh_draw.specs.Text.{coordinate, point_line, point_lines, points_text};
ghost use Rattle.mesh_draw.specs.Text.{spaced, nodes_of, cell_line, cell_lines, cells_text, cell_count};
ghost use Rattle.mesh_draw.specs.Text.{type_of, type_line, types_text, IsSolid};

use crate::shapes::{CellKind, Shape};
use mesh_decl::Mesh;
use op_num::{OutOfMemory, put_i32, put_u64};

// Coordinate `k` of a node, of which each has `dim`.
fn put_coordinate(
    out: &mut Vec<u8>,
    values: &[i32],
    dim: u32,
    node: u32,
    k: usize,
) -> Result<(), OutOfMemory>
    requires { node * dim + k < length values.now }
    ensures { OnOk result (out.new.items ≡ out.old.items ++ coordinate dim values.now node k) }
{
    put_i32(out, values[node as usize * dim as usize + k])
}

// The third coordinate of a node, 0 in the plane.
fn put_third(out: &mut Vec<u8>, values: &[i32], dim: u32, node: u32) -> Result<(), OutOfMemory>
    requires dim { 2 ≤ dim }
    requires node { node * dim + dim ≤ length values.now }
    ensures { OnOk result (out.new.items
        ≡ out.old.items ++ (if nat_eq dim 2 then codes "0" else coordinate dim values.now node 2)) }
{
    if dim == 2 {
        return out.extend_from_slice(b"0");
    }
    put_coordinate(out, values, dim, node, 2)
}

// Where a node lies.
fn put_point(out: &mut Vec<u8>, values: &[i32], dim: u32, node: u32) -> Result<(), OutOfMemory>
    requires dim { 2 ≤ dim }
    requires node { node * dim + dim ≤ length values.now }
    ensures { OnOk result (out.new.items ≡ out.old.items ++ point_line dim values.now node) }
{
    put_coordinate(out, values, dim, node, 0)?;
    out.extend_from_slice(b" ")?;
    put_coordinate(out, values, dim, node, 1)?;
    out.extend_from_slice(b" ")?;
    put_third(out, values, dim, node)?;
    out.extend_from_slice(b"\n")
}

// A word, a count, and what stands behind it.
fn put_count(out: &mut Vec<u8>, word: &[u8], count: u64, rest: &[u8]) -> Result<(), OutOfMemory>
    ensures { OnOk result (out.new.items ≡ out.old.items ++ (word.now ++ decimal count ++ rest.now)) }
{
    out.extend_from_slice(word)?;
    put_u64(out, count)?;
    out.extend_from_slice(rest)
}

// Where so many nodes lie.
fn put_point_lines(
    out: &mut Vec<u8>,
    values: &[i32],
    dim: u32,
    nodes: u32,
) -> Result<(), OutOfMemory>
    requires dim { 2 ≤ dim }
    requires count { length values.now ≡ nodes * dim }
    ensures { OnOk result (out.new.items ≡ out.old.items ++ concat (point_lines nodes dim values.now)) }
{
    for node in 0..nodes {
        put_point(out, values, dim, node)?;
    }
    Ok(())
}

/// Appends where the nodes lie.
pub fn put_points(out: &mut Vec<u8>, mesh: &Mesh, shape: Shape) -> Result<(), OutOfMemory>
    requires { IsSolid mesh.now shape }
    ensures { OnOk result (out.new.items ≡ out.old.items ++ points_text mesh.now shape) }
{
    mesh.is_in_range();
    let (set, dim) = mesh.dat_shape(shape.coords);
    let values = mesh.dat_values(shape.coords);
    let nodes = mesh.set_size(set);
    put_count(out, b"POINTS ", nodes as u64, b" double\n")?;
    put_point_lines(out, values, dim, nodes)?;
    Ok(())
}

// The nodes of a cell, each behind a space.
fn put_nodes(out: &mut Vec<u8>, mesh: &Mesh, shape: Shape, cell: u32) -> Result<(), OutOfMemory>
    requires shape { IsSolid mesh.now shape }
    requires cell { cell < cell_count mesh.now shape }
    ensures { OnOk result (out.new.items ≡ out.old.items ++ spaced (nodes_of mesh.now shape cell)) }
{
    let (_, _, nodes) = mesh.map_ends(shape.cells);
    for place in 0..nodes {
        out.extend_from_slice(b" ")?;
        put_u64(out, mesh.target(shape.cells, cell, place) as u64)?;
    }
    Ok(())
}

// The line of a cell.
fn put_cell(out: &mut Vec<u8>, mesh: &Mesh, shape: Shape, cell: u32) -> Result<(), OutOfMemory>
    requires shape { IsSolid mesh.now shape }
    requires cell { cell < cell_count mesh.now shape }
    ensures { OnOk result (out.new.items ≡ out.old.items ++ cell_line mesh.now shape cell) }
{
    let (_, _, nodes) = mesh.map_ends(shape.cells);
    put_u64(out, nodes as u64)?;
    put_nodes(out, mesh, shape, cell)?;
    out.extend_from_slice(b"\n")?;
    Ok(())
}

// The lines of the cells.
fn put_cell_lines(out: &mut Vec<u8>, mesh: &Mesh, shape: Shape) -> Result<(), OutOfMemory>
    requires { IsSolid mesh.now shape }
    ensures { OnOk result (out.new.items ≡ out.old.items ++ concat (cell_lines mesh.now shape)) }
{
    mesh.is_in_range();
    let (cells, _, _) = mesh.map_ends(shape.cells);
    for cell in 0..mesh.set_size(cells) {
        put_cell(out, mesh, shape, cell)?;
    }
    Ok(())
}

// How many numbers the lines of the cells have, and the end of the line.
fn put_sum(out: &mut Vec<u8>, cells: u32, nodes: u32) -> Result<(), OutOfMemory>
    ensures { OnOk result (out.new.items ≡ out.old.items ++ (codes " " ++ decimal (cells * (1 + nodes)) ++ codes "\n")) }
{
    put_count(out, b" ", cells as u64 * (1 + nodes as u64), b"\n")
}

/// Appends the cells.
pub fn put_cells(out: &mut Vec<u8>, mesh: &Mesh, shape: Shape) -> Result<(), OutOfMemory>
    requires { IsSolid mesh.now shape }
    ensures { OnOk result (out.new.items ≡ out.old.items ++ cells_text mesh.now shape) }
{
    mesh.is_in_range();
    let (from, _, nodes) = mesh.map_ends(shape.cells);
    let cells = mesh.set_size(from);
    put_count(out, b"CELLS ", cells as u64, b"")?;
    put_sum(out, cells, nodes)?;
    put_cell_lines(out, mesh, shape)?;
    Ok(())
}

// The number that VTK has for a kind of cells.
fn type_of(kind: CellKind) -> u64
    ensures { result ≡ type_of kind }
{
    match kind {
        CellKind::Triangle => 5,
        CellKind::Quad => 9,
        CellKind::Tetrahedron => 10,
        CellKind::Hexahedron => 12,
    }
}

// The line of a kind of cells.
fn put_type(out: &mut Vec<u8>, kind: CellKind) -> Result<(), OutOfMemory>
    ensures { OnOk result (out.new.items ≡ out.old.items ++ type_line kind) }
{
    put_u64(out, type_of(kind))?;
    out.extend_from_slice(b"\n")
}

// The lines of so many cells of one kind.
fn put_type_lines(out: &mut Vec<u8>, kind: CellKind, cells: u32) -> Result<(), OutOfMemory>
    ensures { OnOk result (out.new.items ≡ out.old.items ++ concat (map (λ cell. type_line kind) (range_with_len 0 cells))) }
{
    for _ in 0..cells {
        put_type(out, kind)?;
    }
    Ok(())
}

/// Appends the types of the cells.
pub fn put_types(out: &mut Vec<u8>, mesh: &Mesh, shape: Shape) -> Result<(), OutOfMemory>
    requires { IsSolid mesh.now shape }
    ensures { OnOk result (out.new.items ≡ out.old.items ++ types_text mesh.now shape) }
{
    mesh.is_in_range();
    let (from, _, _) = mesh.map_ends(shape.cells);
    let cells = mesh.set_size(from);
    put_count(out, b"CELL_TYPES ", cells as u64, b"\n")?;
    put_type_lines(out, shape.kind, cells)?;
    Ok(())
}
