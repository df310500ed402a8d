// The colours of cells by their numbers.
ghost use Rattle.std.specs.Prelude.{◌≡◌, ◌<◌, ◌⊎◌, All, IfOk, IfErr, IfSome, IfNone, ◌≤◌};
ghost use Rattle.cell_numbers.specs.declared.types.ShownRefusal.TheVariants.{OutOfMemory as NoMemory};
ghost use Rattle.mesh_draw.specs.Picture.{IsColour};
ghost use Rattle.mesh_draw.specs.declared.types.DrawRefusal.{DrawRefusal as Refusal};
ghost use Rattle.mesh_draw.specs.Drawn.{HasManyColours};
ghost use Rattle.mesh_draw.specs.Fills.{fill_of, fills_of};

use crate::picture::COLOUR_COUNT;
use crate::types::DrawRefusal;
use cell_numbers::Shown;
use std::alloc::Global;

// The number of the colour of a cell with this number.
fn fill_of(shown: Shown, number: u32) -> u32
    ensures { result ≡ fill_of shown number }
{
    match shown {
        Shown::Halos { .. } if number == 3 => 63,
        _ => number,
    }
}

// The colour of this number, if there is one.
fn colour(fill: u32) -> Option<u8>
    ensures some { IfSome result (λ k. (k ≡ fill) × IsColour k) }
    ensures none { IfNone result (64 ≤ fill) }
{
    if fill < COLOUR_COUNT as u32 {
        Some(fill as u8)
    } else {
        None
    }
}

/// The colours of cells with these numbers. `ManyColours` comes exactly where there is no such colour; else an error is
/// want of memory.
pub fn fills_of(alloc: Global, shown: Shown, numbers: &[u32]) -> Result<Vec<u8>, DrawRefusal>
    ensures fills { IfOk result (λ v. v.items ≡ fills_of shown numbers.now) }
    ensures colours { IfOk result (λ v. All IsColour v.items) }
    ensures err { IfErr result (λ e. (e ≡ Refusal.Shown NoMemory)
        ⊎ ((e ≡ Refusal.ManyColours) × HasManyColours (fills_of shown numbers.now))) }
{
    let mut fills = Vec::with_capacity(alloc, numbers.len())?;
    for number in numbers {
        let Some(fill) = colour(fill_of(shown, *number)) else {
            return Err(DrawRefusal::ManyColours);
        };
        fills.push(fill)?;
    }
    Ok(fills)
}
