// The places of batches in a list.

ghost use Rattle.std.specs.Prelude.{◌≡◌, ◌<◌, ◌≤◌, ◌+◌, ◌*◌, ℕ, length, slice_index};

use kernel_columns::{Numbers, ROWS};

/// So many places of a list from `at` on, at most 64. What the other numbers are means nothing.
pub fn batch_at(places: &[u32], at: usize, count: usize) -> Numbers
    requires few { count ≤ ROWS }
    requires fits { at + count ≤ length places.now }
    ensures { (j : ℕ) → j < count → slice_index result j ≡ slice_index places.now (at + j) }
{
    let mut batch = [0; ROWS];
    for j in 0..count {
        batch[j] = places[at + j];
    }
    batch
}

/// How many batches so many places are, of which the last may have fewer than 64.
pub fn batches_of(places: usize) -> usize
    ensures { (i : ℕ) → i < result → i * ROWS < places }
{
    let whole = places / ROWS;
    if whole * ROWS < places {
        return whole + 1;
    }
    whole
}
