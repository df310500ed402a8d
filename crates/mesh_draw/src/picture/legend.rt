// The legend of a picture.
ghost use Rattle.std.specs.Prelude.{◌≡◌, ◌<◌, ◌^◌, ◌++◌, All, length, OnOk, IfOk};
ghost use Rattle.std.specs.List.{flat_map};
ghost use Rattle.std.specs.Fmt.{decimal};
ghost use Rattle.mesh_draw.specs.Tree.{printed};
ghost use Rattle.mesh_draw.specs.Picture.{rect_of, square, caption, labels_from, HasColour};

use crate::markup::{Attribute, put_empty, put_end, put_start, put_text};
use crate::picture::frame::{Frame, pixels};
use crate::picture::palette::colour;
use op_num::{OutOfMemory, Text, put_u64};
use std::alloc::Global;

/// What a colour, by its number, stands for.
#[derive(Drop)]
pub struct Label {
    pub fill: u8,
    pub text: Text,
}

/// A number in decimal digits.
pub fn number_text(alloc: Global, number: u64) -> Result<Vec<u8>, OutOfMemory>
    ensures { IfOk result (λ v. v.items ≡ decimal number) }
{
    let mut text = Vec::new(alloc);
    put_u64(&mut text, number)?;
    Ok(text)
}

// A square at a place, of a colour.
fn put_rect<'a>(
    out: &mut Vec<u8>,
    x: &'a [u8],
    y: &'a [u8],
    fill: &'a [u8],
) -> Result<(), OutOfMemory>
    ensures { OnOk result (out.new.items ≡ out.old.items ++ printed (rect_of x.now y.now fill.now)) }
{
    put_empty(
        out,
        "rect",
        &[
            Attribute {
                name: "x",
                value: x,
            },
            Attribute {
                name: "y",
                value: y,
            },
            Attribute {
                name: "width",
                value: b"14",
            },
            Attribute {
                name: "height",
                value: b"14",
            },
            Attribute {
                name: "fill",
                value: fill,
            },
        ],
    )
}

// The square of a label's colour, below `above` others.
fn put_square(
    alloc: Global,
    out: &mut Vec<u8>,
    frame: Frame,
    above: u32,
    label: &Label,
) -> Result<(), OutOfMemory>
    requires { HasColour label.now }
    ensures { OnOk result (out.new.items ≡ out.old.items ++ printed (square frame above label.now)) }
{
    let x = number_text(alloc, pixels(frame, frame.across) + 15)?;
    let y = number_text(alloc, 20 * above as u64 + 10)?;
    put_rect(out, &x, &y, colour(label.fill))
}

// The text of a label, below `above` others.
fn put_caption(
    alloc: Global,
    out: &mut Vec<u8>,
    frame: Frame,
    above: u32,
    label: &Label,
) -> Result<(), OutOfMemory>
    ensures { OnOk result (out.new.items ≡ out.old.items ++ printed (caption frame above label.now)) }
{
    let x = number_text(alloc, pixels(frame, frame.across) + 35)?;
    let y = number_text(alloc, 20 * above as u64 + 22)?;
    put_start(
        out,
        "text",
        &[
            Attribute {
                name: "x",
                value: &x,
            },
            Attribute {
                name: "y",
                value: &y,
            },
        ],
    )?;
    put_text(out, label.text.bytes())?;
    put_end(out, "text")
}

/// Appends the legend: the labels one below another.
pub fn put_labels(
    alloc: Global,
    out: &mut Vec<u8>,
    frame: Frame,
    labels: &[Label],
) -> Result<(), OutOfMemory>
    requires few { length labels.now < 2 ^ 32 }
    requires colours { All HasColour labels.now }
    ensures { OnOk result (out.new.items ≡ out.old.items ++ flat_map printed (labels_from frame 0 labels.now)) }
{
    for (above, label) in labels.iter().enumerate() {
        put_square(alloc, out, frame, above as u32, label)?;
        put_caption(alloc, out, frame, above as u32, label)?;
    }
    Ok(())
}
