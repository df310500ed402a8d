// The whole text.
ghost use Rattle.std.specs.Prelude.{◌≡◌, ◌++◌, length, IfOk, OnOk};
ghost use Rattle.mesh_draw.specs.Text.{header, grid_text, node_count, cell_count, whole_text, IsSolid};
ghost use Rattle.mesh_draw.specs.Values.{data_of};

use crate::shapes::Shape;
use crate::vtk_texts::arrays::{put_cell_data, put_node_data};
use crate::vtk_texts::field::Field;
use crate::vtk_texts::grid::{put_cells, put_points, put_types};
use mesh_decl::Mesh;
use op_num::OutOfMemory;
use std::alloc::Global;

// The lines before all others.
fn put_header(out: &mut Vec<u8>, title: &[u8]) -> Result<(), OutOfMemory>
    ensures { OnOk result (out.new.items ≡ out.old.items ++ header title.now) }
{
    out.extend_from_slice(b"# vtk DataFile Version 3.0\n")?;
    out.extend_from_slice(title)?;
    out.extend_from_slice(b"\nASCII\nDATASET UNSTRUCTURED_GRID\n")?;
    Ok(())
}

// The grid.
fn put_grid(out: &mut Vec<u8>, mesh: &Mesh, shape: Shape) -> Result<(), OutOfMemory>
    requires { IsSolid mesh.now shape }
    ensures { OnOk result (out.new.items ≡ out.old.items ++ grid_text mesh.now shape) }
{
    put_points(out, mesh, shape)?;
    put_cells(out, mesh, shape)?;
    put_types(out, mesh, shape)?;
    Ok(())
}

// How many nodes there are.
fn node_count(mesh: &Mesh, shape: Shape) -> u32
    requires { IsSolid mesh.now shape }
    ensures { result ≡ node_count mesh.now shape }
{
    mesh.is_in_range();
    let (set, _) = mesh.dat_shape(shape.coords);
    mesh.set_size(set)
}

/// What the text of a grid says beside it.
#[derive(Clone, Copy)]
pub struct GridData<'a> {
    /// A line of at most 256 bytes, without its LF.
    pub title: &'a [u8],
    /// The name of the array of numbers, in which no blank stands.
    pub name: &'a [u8],
    /// A number for each cell.
    pub numbers: &'a [u32],
    /// More arrays on the cells.
    pub on_cells: &'a [Field],
    /// Arrays on the nodes.
    pub on_nodes: &'a [Field],
}

/// The text of a mesh's cells for VTK, with a number on each cell, and fields on the cells and the nodes. Each count
/// that is announced is that of the lines that follow, where fields have a line for each element.
///
/// It fails only for want of memory.
pub fn vtk_text(
    alloc: Global,
    mesh: &Mesh,
    shape: Shape,
    grid_data: GridData<'_>,
) -> Result<Vec<u8>, OutOfMemory>
    requires shape { IsSolid mesh.now shape }
    requires numbers { length grid_data.numbers.now ≡ cell_count mesh.now shape }
    ensures { IfOk result (λ v. v.items ≡ whole_text mesh.now shape (data_of grid_data.entry)) }
{
    let mut out = Vec::new(alloc);
    put_header(&mut out, grid_data.title)?;
    put_grid(&mut out, mesh, shape)?;
    put_cell_data(
        &mut out,
        grid_data.name,
        grid_data.numbers,
        grid_data.on_cells,
    )?;
    put_node_data(&mut out, node_count(mesh, shape), grid_data.on_nodes)?;
    Ok(out)
}
