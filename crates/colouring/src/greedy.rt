// Colours of rows of targets: row by row, the least that none of the row's targets has.
ghost use Rattle.std.specs.Prelude.{◌≡◌, ◌<◌, ◌≤◌, ◌+◌, ◌*◌, ◌^◌, ℕ, OnOk, length, slice_index, EachIndex};
ghost use Rattle.colouring.specs.Rows.{none, Least};
ghost use Rattle.colouring.specs.Masks.{IsSound, IsClear, Tell};

use crate::masks::Masks;
use op_num::OutOfMemory;

// Colours a row, those before which have their colours.
fn colour_row(
    targets: &[u32],
    width: usize,
    colours: &mut [u32],
    masks: &mut Masks,
    row: u32,
) -> Result<(), OutOfMemory>
    requires row { row < length colours.old }
    requires small { row * width + width < 2 ^ 64 }
    requires targets { EachIndex targets.now (λ k. slice_index targets.now k < length masks.old.first.items) }
    requires told { Tell targets.now width colours.old row masks.old }
    requires sound { IsSound masks.old }
    ensures least { OnOk result (Least targets.now width colours.new row) }
    ensures others { OnOk result ((q : ℕ) → (q ≡ row → ⊥) → slice_index colours.new q ≡ slice_index colours.old q) }
    ensures told { OnOk result (Tell targets.now width colours.new (row + 1) masks.new) }
    ensures sound { OnOk result (IsSound masks.new) }
    ensures room { OnOk result (length masks.new.first.items ≡ length masks.old.first.items) }
    ensures touched { OnOk result ((t : ℕ) → ((k : ℕ) → k < length targets.now → slice_index targets.now k ≡ t → ⊥)
        → slice_index masks.new.first.items t ≡ slice_index masks.old.first.items t) }
{
    let start = (row as usize * width).min(targets.len());
    let end = (row as usize * width + width).min(targets.len());
    let colour = masks.free_colour(targets, start, end, row)?;
    masks.add(targets, start, end, colour)?;
    colours[row as usize] = colour;
    Ok(())
}

/// Colours the rows of `width` targets each: with the least number that no earlier row with a common target has. The
/// masks are clear before and after it.
pub fn colour_rows(
    targets: &[u32],
    width: usize,
    colours: &mut [u32],
    masks: &mut Masks,
) -> Result<(), OutOfMemory>
    requires few { length colours.old ≤ none }
    requires small { length colours.old * width + width < 2 ^ 64 }
    requires targets { EachIndex targets.now (λ k. slice_index targets.now k < length masks.old.first.items) }
    requires clear { IsClear masks.old }
    ensures least { OnOk result ((p : ℕ) → p < length colours.old → Least targets.now width colours.new p) }
    ensures clear { OnOk result (IsClear masks.new) }
    ensures room { OnOk result (length masks.new.first.items ≡ length masks.old.first.items) }
{
    for row in 0..colours.len() as u32 {
        colour_row(targets, width, colours, masks, row)?;
    }
    masks.clear(targets);
    Ok(())
}
