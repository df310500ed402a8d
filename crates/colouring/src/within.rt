// Colours of the places of each block, and of the blocks.
ghost use Rattle.std.specs.Prelude.{◌≡◌, ℕ, ◌+◌, ◌*◌, ◌<◌, ◌≤◌, ◌^◌, ◌↔◌, OnOk, IfOk, length, slice_index, EachIndex};
ghost use Rattle.colouring.specs.Colours.{IsLeast};
ghost use Rattle.colouring.specs.Rows.{MeetFrom, MeetWithin, BlocksMeet};
ghost use Rattle.colouring.specs.Masks.{IsClear};

use crate::block_plan::{bounds, count};
use crate::greedy::colour_rows;
use crate::masks::Masks;
use op_num::OutOfMemory;
use std::alloc::Global;

// Colours the places from `first` up to `last` among each other.
fn colour_places(
    table: &[u32],
    width: usize,
    inner: &mut [u32],
    masks: &mut Masks,
    first: u32,
    last: u32,
) -> Result<(), OutOfMemory>
    requires first { first ≤ last }
    requires last { last ≤ length inner.old }
    requires table { length table.now ≡ length inner.old * width }
    requires few { length table.now < 2 ^ 61 }
    requires targets { EachIndex table.now (λ k. slice_index table.now k < length masks.old.first.items) }
    requires clear { IsClear masks.old }
    ensures least { OnOk result ((p : ℕ) → first ≤ p → p < last → IsLeast (MeetFrom table.now width first) inner.new p) }
    ensures others { OnOk result ((q : ℕ) → (first ≤ q → q < last → ⊥) → slice_index inner.new q ≡ slice_index inner.old q) }
    ensures clear { OnOk result (IsClear masks.new) }
    ensures room { OnOk result (length masks.new.first.items ≡ length masks.old.first.items) }
{
    let here = &table[first as usize * width..last as usize * width];
    colour_rows(
        here,
        width,
        &mut inner[first as usize..last as usize],
        masks,
    )?;
    Ok(())
}

/// The colours of the places within each block.
pub fn inner_colours(
    alloc: Global,
    table: &[u32],
    width: usize,
    places: u32,
    size: u32,
    masks: &mut Masks,
) -> Result<Vec<u32>, OutOfMemory>
    requires size { 0 < size }
    requires table { length table.now ≡ places * width }
    requires few { length table.now < 2 ^ 61 }
    requires targets { EachIndex table.now (λ k. slice_index table.now k < length masks.old.first.items) }
    requires clear { IsClear masks.old }
    ensures length { IfOk result (λ v. length v.items ≡ places) }
    ensures least { IfOk result (λ v. (p : ℕ) → p < places → IsLeast (MeetWithin table.now width size) v.items p) }
    ensures clear { OnOk result (IsClear masks.new) }
    ensures room { OnOk result (length masks.new.first.items ≡ length masks.old.first.items) }
{
    let mut inner = vec![in alloc; 0; places as usize]?;
    colour_blocks(table, width, &mut inner, masks, places, size)?;
    Ok(inner)
}

// Colours the places within each block.
fn colour_blocks(
    table: &[u32],
    width: usize,
    inner: &mut [u32],
    masks: &mut Masks,
    places: u32,
    size: u32,
) -> Result<(), OutOfMemory>
    requires size { 0 < size }
    requires places { length inner.old ≡ places }
    requires table { length table.now ≡ places * width }
    requires few { length table.now < 2 ^ 61 }
    requires targets { EachIndex table.now (λ k. slice_index table.now k < length masks.old.first.items) }
    requires clear { IsClear masks.old }
    ensures least { OnOk result ((p : ℕ) → p < places → IsLeast (MeetWithin table.now width size) inner.new p) }
    ensures clear { OnOk result (IsClear masks.new) }
    ensures room { OnOk result (length masks.new.first.items ≡ length masks.old.first.items) }
{
    for block in 0..count(places, size) {
        let (first, last) = bounds(block, places, size);
        colour_places(table, width, inner, masks, first, last)?;
    }
    Ok(())
}

// Colours the blocks as rows of as many targets as the places of a block have.
fn colour_block_rows(
    table: &[u32],
    width: usize,
    colours: &mut [u32],
    masks: &mut Masks,
    places: u32,
    size: u32,
) -> Result<(), OutOfMemory>
    requires size { 0 < size }
    requires count { (b : ℕ) → (b < length colours.old) ↔ (b * size < places) }
    requires table { length table.now ≡ places * width }
    requires few { length table.now < 2 ^ 61 }
    requires targets { EachIndex table.now (λ k. slice_index table.now k < length masks.old.first.items) }
    requires clear { IsClear masks.old }
    ensures least { OnOk result ((b : ℕ) → b < length colours.old → IsLeast (BlocksMeet table.now width places size) colours.new b) }
{
    let step = size.min(places) as usize * width;
    colour_rows(table, step, colours, masks)?;
    Ok(())
}

/// The colours of the blocks.
pub fn block_colours(
    alloc: Global,
    table: &[u32],
    width: usize,
    places: u32,
    size: u32,
    masks: &mut Masks,
) -> Result<Vec<u32>, OutOfMemory>
    requires size { 0 < size }
    requires table { length table.now ≡ places * width }
    requires few { length table.now < 2 ^ 61 }
    requires targets { EachIndex table.now (λ k. slice_index table.now k < length masks.old.first.items) }
    requires clear { IsClear masks.old }
    ensures length { IfOk result (λ v. (b : ℕ) → (b < length v.items) ↔ (b * size < places)) }
    ensures least { IfOk result (λ v. (b : ℕ) → b < length v.items → IsLeast (BlocksMeet table.now width places size) v.items b) }
{
    let mut colours = vec![in alloc; 0; count(places, size) as usize]?;
    colour_block_rows(table, width, &mut colours, masks, places, size)?;
    Ok(colours)
}
