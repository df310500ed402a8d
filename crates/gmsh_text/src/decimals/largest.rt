// The largest scale at which a decimal is read.
ghost use Rattle.std.specs.Prelude.{◌≡◌, ◌<◌, ◌≤◌, ◌^◌, ℕ, true, false};
ghost use Rattle.gmsh_text.specs.Decimal.{decimal_of};
ghost use Rattle.gmsh_text.specs.Nearest.{fits_at};

use crate::decimals::reading::read_scaled;

/// The largest scale at which `read_scaled` gives an integer: it gives one at each scale from 1 to this, and at none
/// beyond. 0 where it gives one at no scale.
pub fn largest_scale(text: &[u8]) -> u32
    ensures fits { (k : ℕ) → 0 < k → k ≤ result → fits_at (decimal_of text.now) k ≡ true }
    ensures beyond { (k : ℕ) → result < k → k < 2 ^ 32 → fits_at (decimal_of text.now) k ≡ false }
{
    let mut low = 0u32;
    let mut high = u32::MAX;
    while low < high {
        let middle = low + (high - low).div_ceil(2);
        if read_scaled(text, middle).is_ok() {
            low = middle;
        } else {
            high = middle - 1;
        }
    }
    low
}
