// Legends and titles.
ghost use Rattle.std.specs.Prelude.{◌≡◌, ◌+◌, ◌<◌, ◌≤◌, ◌++◌, max, All, map, length, OnOk, IfOk};
ghost use Rattle.std.specs.List.{range_with_len};
ghost use Rattle.mesh_draw.specs.Picture.{IsColour, HasColour};
ghost use Rattle.cell_numbers.specs.Numbers.{shown_text};
ghost use Rattle.mesh_draw.specs.Fills.{label, numbered, past_all, part_labels, labels_of};

use crate::picture::{COLOUR_COUNT, Label};
use cell_numbers::{Shown, put_shown};
use op_num::{OutOfMemory, Text, put_u64};
use std::alloc::Global;

// A colour, and what it stands for.
fn named(alloc: Global, fill: u8, name: &[u8]) -> Result<Label, OutOfMemory>
    ensures { IfOk result (λ l. l ≡ label fill name.now) }
{
    let text = Text::new(Vec::from_slice(alloc, name)?);
    Ok(Label { fill, text })
}

// A colour that stands for what a word and its number name.
fn numbered(alloc: Global, word: &[u8], fill: u8) -> Result<Label, OutOfMemory>
    ensures { IfOk result (λ l. l ≡ numbered word.now fill) }
{
    let mut text = Vec::from_slice(alloc, word)?;
    text.extend_from_slice(b" ")?;
    put_u64(&mut text, fill as u64)?;
    Ok(Label {
        fill,
        text: Text::new(text),
    })
}

// The first so many colours, each of which stands for what a word and its number name.
fn counted(alloc: Global, word: &[u8], count: u8) -> Result<Vec<Label>, OutOfMemory>
    requires { count ≤ COLOUR_COUNT }
    ensures labels { IfOk result (λ v. v.items ≡ map (numbered word.now) (range_with_len 0 count)) }
    ensures count { IfOk result (λ v. length v.items ≡ count) }
    ensures colours { IfOk result (λ v. All HasColour v.items) }
{
    let mut labels = Vec::new(alloc);
    for fill in 0..count {
        labels.push(numbered(alloc, word, fill)?)?;
    }
    Ok(labels)
}

// What the colours of one rank's cells stand for.
fn parts(alloc: Global) -> Result<Vec<Label>, OutOfMemory>
    ensures labels { IfOk result (λ v. v.items ≡ part_labels) }
    ensures count { IfOk result (λ v. length v.items ≡ 4) }
{
    let mut labels = Vec::new(alloc);
    labels.push(named(alloc, 0, b"owned")?)?;
    labels.push(named(alloc, 1, b"import execute")?)?;
    labels.push(named(alloc, 2, b"import non-execute")?)?;
    labels.push(named(alloc, 63, b"other")?)?;
    Ok(labels)
}

// One more than the greatest colour, with one colour more.
fn past_one(past: u8, fill: u8) -> u8
    requires fill { fill < COLOUR_COUNT }
    requires past { past ≤ COLOUR_COUNT }
    ensures value { result ≡ max past (fill + 1) }
    ensures few { result ≤ COLOUR_COUNT }
{
    if fill < past { past } else { fill + 1 }
}

// One more than the greatest colour, or 0.
fn past_all(fills: &[u8]) -> u8
    requires { All IsColour fills.now }
    ensures value { result ≡ past_all fills.now }
    ensures few { result ≤ COLOUR_COUNT }
{
    let mut past = 0;
    for fill in fills {
        past = past_one(past, *fill);
    }
    past
}

/// What the colours of a picture stand for.
pub fn labels_of(
    alloc: Global,
    shown: Shown,
    ranks: u32,
    fills: &[u8],
) -> Result<Vec<Label>, OutOfMemory>
    requires ranks { ranks ≤ 64 }
    requires fills { All IsColour fills.now }
    ensures labels { IfOk result (λ v. v.items ≡ labels_of shown ranks fills.now) }
    ensures few { IfOk result (λ v. length v.items ≤ 64) }
    ensures colours { IfOk result (λ v. All HasColour v.items) }
{
    match shown {
        Shown::Owners => counted(alloc, b"rank", ranks as u8),
        Shown::Halos { .. } => parts(alloc),
        Shown::Colours { .. } => counted(alloc, b"colour", past_all(fills)),
    }
}

/// The title of a picture of the cells of that name.
pub fn title_of(alloc: Global, cells: &[u8], shown: Shown) -> Result<Vec<u8>, OutOfMemory>
    ensures { IfOk result (λ v. v.items ≡ cells.now ++ shown_text shown) }
{
    let mut title = Vec::from_slice(alloc, cells)?;
    put_shown(&mut title, shown)?;
    Ok(title)
}
