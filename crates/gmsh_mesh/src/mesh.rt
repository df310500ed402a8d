// The arrays of a mesh, from a text of Gmsh.
ghost use Rattle.std.specs.Prelude.{◌≡◌, ◌+◌, ◌*◌, ◌<◌, ◌≤◌, ◌^◌, IfOk, length};
ghost use Rattle.gmsh_mesh.specs.Sides.{nodes, side_nodes};
ghost use Rattle.gmsh_mesh.specs.Places.{ArePlaces};
ghost use Rattle.mesh_decl.specs.declared.text.entry.TheConstants.{MESH_VALUES};
ghost use Rattle.gmsh_text.specs.Whole.{AreWhole};
ghost use Rattle.gmsh_mesh.specs.Stages.{Gives};
ghost use Rattle.gmsh_mesh.specs.Choice.{cell_table, side_table};
ghost use Rattle.gmsh_mesh.specs.Numbers.{numbers as numbers_of};
ghost use Rattle.gmsh_mesh.specs.Mesh.{MeshIs, NodesAre, RowsAre, ElementsAre, FacedAre, TaggedAre, size_before, within};
ghost use Rattle.gmsh_mesh.specs.Small.{AreSmallFaces, HasSmall, ArePlacesOf};

use crate::boundary::{SideElements, boundary_tags};
use crate::cell_sides::{Shape, all_sides};
use crate::choice::{Choice, Dimension, cells_of, check_types, choose_shape, sides_of};
use crate::coordinates::coordinates;
use crate::faces::{FaceRows, face_rows, mates_of};
use crate::numbers::{numbered, tag_numbers};
use crate::refusal::GmshRefusal;
use crate::stages::both;
use gmsh_text::{GmshText, Table};
use mesh_decl::text::MESH_VALUES;
use std::alloc::Global;
use std::marker::Model;

// A mesh: numbers of nodes and cells are from 0, and arrays stand row for row.
#[derive(Drop)]
pub(crate) struct Mesh {
    // how many coordinates a node has
    pub(crate) dim: usize,
    pub(crate) shape: Shape,
    // the coordinates of the nodes
    pub(crate) x: Vec<i32>,
    // the nodes of the cells
    pub(crate) cell: Vec<u32>,
    pub(crate) faces: FaceRows,
    // the physical tag of each face of the boundary
    pub(crate) btag: Vec<i32>,
}

impl Model for Mesh {
    ghost use Rattle.gmsh_mesh.specs.Mesh.{Arrays};

    ghost Value = { Arrays };

    ghost view = { λ m. record { dim = m.dim; shape = m.shape; x = m.x.items; cell = m.cell.items; faces = m.faces; btag = m.btag.items } };
}

// What a mesh has before its faces: the coordinates of its nodes, the nodes of its cells, and those of the elements
// that are like sides.
#[derive(Drop)]
struct Places {
    dim: Dimension,
    shape: Shape,
    x: Vec<i32>,
    cell: Vec<u32>,
    elements: Vec<u32>,
}

// The mesh of a text, with cells of this dimension and coordinates times the scale.
pub(crate) fn build_mesh(
    alloc: Global,
    text: &GmshText<'_>,
    dim: Dimension,
    scale: u32,
) -> Result<Mesh, GmshRefusal>
    requires scale { 0 < scale }
    requires whole { AreWhole text.now.elements }
    ensures mesh { Gives result (λ m. m) (MeshIs text.now dim scale) }
    ensures small { IfOk result HasSmall }
{
    let choice = choose_shape(&text.elements, dim)?;
    let shape = choice.shape;
    check_sizes(text, dim, shape)?;
    let numbers = tag_numbers(alloc, text.nodes.tags())?;
    let (_, x) = node_places(alloc, text, &numbers, dim, scale)?;
    let (_, (cell, elements)) = element_nodes(alloc, text, &numbers, choice)?;
    let places = Places {
        dim,
        shape,
        x,
        cell,
        elements,
    };
    with_faces(alloc, text, places)
}

// Whether the coordinates and the cells are within the limit of a mesh text, and the elements of the boundary too.
fn check_sizes(text: &GmshText<'_>, dim: Dimension, shape: Shape) -> Result<(), GmshRefusal>
    ensures { result ≡ within (size_before text.now dim shape) }
{
    let nodes = text.nodes.tags().len() as u64 * dim.count() as u64;
    let cells = cells_of(&text.elements, shape).nodes().len() as u64;
    let elements = sides_of(&text.elements, shape).nodes().len() as u64;
    let size = nodes + cells + elements;
    if size > MESH_VALUES {
        return Err(GmshRefusal::Limit { size });
    }
    Ok(())
}

// The coordinates of the nodes, whose tags without their lines are `numbers`; beside them the places of no nodes.
fn node_places(
    alloc: Global,
    text: &GmshText<'_>,
    numbers: &[u32],
    dim: Dimension,
    scale: u32,
) -> Result<(Vec<u32>, Vec<i32>), GmshRefusal>
    requires scale { 0 < scale }
    requires numbers { numbers.now ≡ numbers_of text.now.nodes.tags }
    requires few { length text.now.nodes.tags ≤ MESH_VALUES }
    ensures { Gives result (λ p. (p.0.items, p.1.items)) (NodesAre text.now dim scale) }
{
    let tags = text.nodes.tags();
    let none = numbered(alloc, tags, numbers, &[], &[], 1);
    let x = coordinates(alloc, text.nodes.points(), dim, scale);
    both(none, x)
}

// The nodes of the elements of a table by number.
fn row_nodes(
    alloc: Global,
    text: &GmshText<'_>,
    numbers: &[u32],
    rows: &Table,
    width: usize,
) -> Result<Vec<u32>, GmshRefusal>
    requires numbers { numbers.now ≡ numbers_of text.now.nodes.tags }
    requires few { length text.now.nodes.tags ≤ MESH_VALUES }
    requires table { (0 < width) × (length rows.now.nodes ≡ length rows.now.lines * width) × (length rows.now.nodes ≤ MESH_VALUES) }
    ensures { Gives result (λ v. v.items) (RowsAre text.now rows.now width) }
{
    numbered(
        alloc,
        text.nodes.tags(),
        numbers,
        rows.nodes(),
        rows.lines(),
        width,
    )
}

// The nodes of the cells by number, and those of the elements that are like sides.
fn element_nodes(
    alloc: Global,
    text: &GmshText<'_>,
    numbers: &[u32],
    choice: Choice,
) -> Result<((), (Vec<u32>, Vec<u32>)), GmshRefusal>
    requires numbers { numbers.now ≡ numbers_of text.now.nodes.tags }
    requires whole { AreWhole text.now.elements }
    requires few { length text.now.nodes.tags ≤ MESH_VALUES }
    requires cells { length (cell_table choice.shape text.now.elements).nodes ≤ MESH_VALUES }
    requires elements { length (side_table choice.shape text.now.elements).nodes ≤ MESH_VALUES }
    ensures { Gives result (λ p. (p.0, (p.1.0.items, p.1.1.items))) (ElementsAre text.now choice) }
{
    let shape = choice.shape;
    let cells = cells_of(&text.elements, shape);
    let elements = sides_of(&text.elements, shape);
    let cell = row_nodes(alloc, text, numbers, cells, shape.nodes());
    let element = row_nodes(alloc, text, numbers, elements, shape.side_nodes());
    both(check_types(choice), both(cell, element))
}

// The mesh of these places, with its faces.
fn with_faces(alloc: Global, text: &GmshText<'_>, places: Places) -> Result<Mesh, GmshRefusal>
    requires whole { AreWhole text.now.elements }
    requires fits { ArePlacesOf text.now places.shape places.cell.items places.elements.items }
    ensures mesh { Gives result (λ m. m)
        (FacedAre text.now places.dim places.shape places.x.items places.cell.items places.elements.items) }
    ensures small { IfOk result HasSmall }
{
    let shape = places.shape;
    let lines = cells_of(&text.elements, shape).lines();
    let sides = all_sides(alloc, shape, lines.len(), &places.cell)?;
    let mates = mates_of(alloc, shape, lines, &sides)?;
    let faces = face_rows(alloc, shape, lines.len(), &sides, &mates)?;
    with_tags(alloc, text, places, faces)
}

// The mesh of these places and faces, with the physical tags of the boundary.
fn with_tags(
    alloc: Global,
    text: &GmshText<'_>,
    places: Places,
    faces: FaceRows,
) -> Result<Mesh, GmshRefusal>
    requires whole { AreWhole text.now.elements }
    requires fits { ArePlacesOf text.now places.shape places.cell.items places.elements.items }
    requires small { AreSmallFaces faces }
    requires few { length faces.bcell < 2 ^ 31 }
    requires table { length faces.bface ≡ length faces.bcell * side_nodes places.shape }
    ensures mesh { Gives result (λ m. m) (TaggedAre text.now places.dim places.shape places.x.items
        places.cell.items places.elements.items faces) }
    ensures small { IfOk result HasSmall }
{
    let rows = sides_of(&text.elements, places.shape);
    let elements = SideElements {
        nodes: &places.elements,
        groups: rows.groups(),
        lines: rows.lines(),
    };
    let width = places.shape.side_nodes();
    let btag = boundary_tags(alloc, faces.bcell.len(), width, &faces.bface, &elements)?;
    Ok(Mesh {
        dim: places.dim.count(),
        shape: places.shape,
        x: places.x,
        cell: places.cell,
        faces,
        btag,
    })
}
