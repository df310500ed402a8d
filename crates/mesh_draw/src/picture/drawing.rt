// The whole picture.
ghost use Rattle.std.specs.Prelude.{◌≡◌, ◌<◌, ◌^◌, ◌++◌, All, length, codes, OnOk, IfOk};
ghost use Rattle.mesh_decl.specs.Mesh.{set_size, dat_set, dat_values};
ghost use Rattle.mesh_draw.specs.Tree.{start_tag, printed};
ghost use Rattle.mesh_draw.specs.Frame.{IsFrame};
ghost use Rattle.mesh_draw.specs.Picture.{view_box, line_width, cell_count, view_attributes, drawing_attributes, drawing};
ghost use Rattle.mesh_draw.specs.Picture.{sized_attributes, whole_height, whole_attributes, title_of};
ghost use Rattle.mesh_draw.specs.Picture.{IsColour, HasColour, IsPlane, IsPicture};

use crate::markup::{Attribute, nodes_print_in_order, put_end, put_start, put_text};
use crate::picture::frame::{Frame, frame_of, margin, pixels, with_margins};
use crate::picture::legend::{Label, number_text, put_labels};
use crate::picture::polygons::put_polygons;
use crate::shapes::Shape;
use mesh_decl::Mesh;
use op_num::{OutOfMemory, put_u64};
use std::alloc::Global;

// What of the plane is shown.
fn view_box(alloc: Global, frame: Frame) -> Result<Vec<u8>, OutOfMemory>
    ensures { IfOk result (λ v. v.items ≡ view_box frame) }
{
    let free = margin(frame);
    let mut text = Vec::new(alloc);
    text.extend_from_slice(b"-")?;
    put_u64(&mut text, free)?;
    text.extend_from_slice(b" -")?;
    put_u64(&mut text, free)?;
    text.extend_from_slice(b" ")?;
    put_u64(&mut text, with_margins(frame, frame.across))?;
    text.extend_from_slice(b" ")?;
    put_u64(&mut text, with_margins(frame, frame.up))?;
    Ok(text)
}

// How wide the lines between so many cells are.
fn line_width(cells: usize) -> &'static [u8]
    ensures { result.now ≡ line_width cells }
{
    if cells <= 10000 { b"0.1%" } else { b"0" }
}

// The start of a view of the plane.
fn put_view<'a>(
    out: &mut Vec<u8>,
    width: &'a [u8],
    height: &'a [u8],
    shown: &'a [u8],
    line: &'a [u8],
) -> Result<(), OutOfMemory>
    ensures { OnOk result (out.new.items
        ≡ out.old.items ++ start_tag (codes "svg") (view_attributes width.now height.now shown.now line.now)) }
{
    put_start(
        out,
        "svg",
        &[
            Attribute {
                name: "width",
                value: width,
            },
            Attribute {
                name: "height",
                value: height,
            },
            Attribute {
                name: "viewBox",
                value: shown,
            },
            Attribute {
                name: "stroke",
                value: b"#ffffff",
            },
            Attribute {
                name: "stroke-width",
                value: line,
            },
        ],
    )
}

// The start of the part of the picture that has so many cells.
fn put_drawing_start(
    alloc: Global,
    out: &mut Vec<u8>,
    frame: Frame,
    cells: usize,
) -> Result<(), OutOfMemory>
    ensures { OnOk result (out.new.items ≡ out.old.items ++ start_tag (codes "svg") (drawing_attributes frame cells)) }
{
    let width = number_text(alloc, pixels(frame, frame.across))?;
    let height = number_text(alloc, pixels(frame, frame.up))?;
    let shown = view_box(alloc, frame)?;
    put_view(out, &width, &height, &shown, line_width(cells))?;
    Ok(())
}

// The part of the picture that has the cells.
fn put_drawing(
    alloc: Global,
    out: &mut Vec<u8>,
    mesh: &Mesh,
    shape: Shape,
    frame: Frame,
    fills: &[u8],
) -> Result<(), OutOfMemory>
    requires plane { IsPlane mesh.now shape }
    requires count { length fills.now ≡ cell_count mesh.now shape }
    requires colours { All IsColour fills.now }
    ensures { OnOk result (out.new.items ≡ out.old.items ++ printed (drawing mesh.now shape frame fills.now)) }
{
    nodes_print_in_order();
    put_drawing_start(alloc, out, frame, fills.len())?;
    let mut points = Vec::new(alloc);
    put_polygons(out, &mut points, mesh, shape, frame, fills)?;
    put_end(out, "svg")?;
    Ok(())
}

// How high the whole picture is, whose legend has so many labels.
fn whole_height(frame: Frame, labels: u32) -> u64
    ensures { result ≡ whole_height frame labels }
{
    pixels(frame, frame.up).max(20 * labels as u64 + 20)
}

// The start of a picture of this size.
fn put_sized<'a>(out: &mut Vec<u8>, width: &'a [u8], height: &'a [u8]) -> Result<(), OutOfMemory>
    ensures { OnOk result (out.new.items ≡ out.old.items ++ start_tag (codes "svg") (sized_attributes width.now height.now)) }
{
    put_start(
        out,
        "svg",
        &[
            Attribute {
                name: "xmlns",
                value: b"http://www.w3.org/2000/svg",
            },
            Attribute {
                name: "font-family",
                value: b"sans-serif",
            },
            Attribute {
                name: "font-size",
                value: b"14",
            },
            Attribute {
                name: "width",
                value: width,
            },
            Attribute {
                name: "height",
                value: height,
            },
        ],
    )
}

// The start of the whole picture, whose legend has so many labels.
fn put_whole_start(
    alloc: Global,
    out: &mut Vec<u8>,
    frame: Frame,
    labels: u32,
) -> Result<(), OutOfMemory>
    ensures { OnOk result (out.new.items ≡ out.old.items ++ start_tag (codes "svg") (whole_attributes frame labels)) }
{
    let width = number_text(alloc, pixels(frame, frame.across) + 180)?;
    let height = number_text(alloc, whole_height(frame, labels))?;
    put_sized(out, &width, &height)
}

// The title.
fn put_title(out: &mut Vec<u8>, title: &[u8]) -> Result<(), OutOfMemory>
    ensures { OnOk result (out.new.items ≡ out.old.items ++ printed (title_of title.now)) }
{
    put_start(out, "title", &[])?;
    put_text(out, title)?;
    put_end(out, "title")
}

// Where the nodes lie.
fn frame_in(mesh: &Mesh, shape: Shape) -> Frame
    requires { IsPlane mesh.now shape }
    ensures { IsFrame (set_size mesh.now (dat_set mesh.now shape.coords)) (dat_values mesh.now shape.coords) result }
{
    mesh.is_in_range();
    let (set, _) = mesh.dat_shape(shape.coords);
    frame_of(mesh.dat_values(shape.coords), mesh.set_size(set))
}

/// The picture of a plane mesh's cells, as an SVG: polygon i has the nodes of cell i, in their order and where the dat
/// of the shape says that they lie, and the colour with number i of `fills`; beside the cells stands a legend. The
/// longer side has 800 pixels.
///
/// It fails only for want of memory.
pub fn picture(
    alloc: Global,
    mesh: &Mesh,
    shape: Shape,
    fills: &[u8],
    title: &[u8],
    labels: &[Label],
) -> Result<Vec<u8>, OutOfMemory>
    requires plane { IsPlane mesh.now shape }
    requires count { length fills.now ≡ cell_count mesh.now shape }
    requires fills { All IsColour fills.now }
    requires few { length labels.now < 2 ^ 32 }
    requires labels { All HasColour labels.now }
    ensures { IfOk result (λ v. IsPicture mesh.now shape fills.now title.now labels.now v.items) }
{
    nodes_print_in_order();
    let frame = frame_in(mesh, shape);
    let mut out = Vec::new(alloc);
    put_whole_start(alloc, &mut out, frame, labels.len() as u32)?;
    put_title(&mut out, title)?;
    put_drawing(alloc, &mut out, mesh, shape, frame, fills)?;
    put_labels(alloc, &mut out, frame, labels)?;
    put_end(&mut out, "svg")?;
    Ok(out)
}
