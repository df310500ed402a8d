// Which elements are the cells, and which the boundary.
ghost use Rattle.std.specs.Prelude.{◌≡◌};
ghost use Rattle.gmsh_mesh.specs.Choice.{dim_count, dimension, choice, chosen, one_type, cell_table, side_table};

use crate::cell_sides::Shape;
use crate::refusal::GmshRefusal;
use gmsh_text::{Elements, Table};

/// How many coordinates a node has.
#[derive(Clone, Copy, Debug, PartialEq, Eq)]
pub enum Dimension {
    /// A plane mesh: its cells are triangles or quadrangles, and its boundary lines.
    Two,
    /// A mesh of tetrahedra and a boundary of triangles, or of hexahedra and a boundary of quadrangles.
    Three,
}

impl Dimension {
    /// 2 or 3.
    pub fn count(self) -> usize
        ensures { result ≡ dim_count self }
    {
        match self {
            Dimension::Two => 2,
            Dimension::Three => 3,
        }
    }
}

// The shape of the cells, and the line of the first cell of another shape.
#[derive(Clone, Copy, Debug)]
pub(crate) struct Choice {
    pub(crate) shape: Shape,
    pub(crate) other: Option<u32>,
}

// The dimension that is asked for, or else three where there are elements of three dimensions.
pub(crate) fn choose_dimension(asked: Option<Dimension>, elements: &Elements) -> Dimension
    ensures { result ≡ dimension asked elements.now }
{
    if let Some(dim) = asked {
        return dim;
    }
    match (elements.tetrahedra.lines(), elements.hexahedra.lines()) {
        ([], []) => Dimension::Two,
        _ => Dimension::Three,
    }
}

// The shape of the cells of this dimension; `NoCells` where there are none.
pub(crate) fn choose_shape(elements: &Elements, dim: Dimension) -> Result<Choice, GmshRefusal>
    ensures { result ≡ choice dim elements.now }
{
    match dim {
        Dimension::Two => {
            choose(
                Shape::Triangle,
                &elements.triangles,
                Shape::Quadrangle,
                &elements.quadrangles,
            )
        }
        Dimension::Three => {
            choose(
                Shape::Tetrahedron,
                &elements.tetrahedra,
                Shape::Hexahedron,
                &elements.hexahedra,
            )
        }
    }
}

// The shape of which there are cells, of two; where there are cells of both, that of the first.
fn choose(one: Shape, ones: &Table, other: Shape, others: &Table) -> Result<Choice, GmshRefusal>
    ensures { result ≡ chosen one ones.now.lines other others.now.lines }
{
    match (ones.lines(), others.lines()) {
        ([], []) => Err(GmshRefusal::NoCells),
        ([_, ..], []) => Ok(alone(one)),
        ([], [_, ..]) => Ok(alone(other)),
        ([a, ..], [b, ..]) => {
            if *b < *a {
                return Ok(before(other, *a));
            }
            Ok(before(one, *b))
        }
    }
}

// This shape, where there are no cells of another.
fn alone(shape: Shape) -> Choice
    ensures { result ≡ record { shape = shape; other = None } }
{
    Choice { shape, other: None }
}

// This shape, where the first cell of another stands on this line.
fn before(shape: Shape, line: u32) -> Choice
    ensures { result ≡ record { shape = shape; other = Some line } }
{
    Choice {
        shape,
        other: Some(line),
    }
}

// Whether there are no cells of another shape.
pub(crate) fn check_types(choice: Choice) -> Result<(), GmshRefusal>
    ensures { result ≡ one_type choice.other }
{
    match choice.other {
        Some(line) => Err(GmshRefusal::TwoTypes { line }),
        None => Ok(()),
    }
}

// The elements of a shape.
pub(crate) fn cells_of(elements: &Elements, shape: Shape) -> &Table
    ensures { result.now ≡ cell_table shape elements.now }
{
    match shape {
        Shape::Triangle => &elements.triangles,
        Shape::Quadrangle => &elements.quadrangles,
        Shape::Tetrahedron => &elements.tetrahedra,
        Shape::Hexahedron => &elements.hexahedra,
    }
}

// The elements that are like the sides of cells of a shape.
pub(crate) fn sides_of(elements: &Elements, shape: Shape) -> &Table
    ensures { result.now ≡ side_table shape elements.now }
{
    match shape {
        Shape::Triangle | Shape::Quadrangle => &elements.lines,
        Shape::Tetrahedron => &elements.triangles,
        Shape::Hexahedron => &elements.quadrangles,
    }
}
