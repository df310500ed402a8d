// How many rows of a batch, from the first on, meet in no element.

ghost use Rattle.std.specs.Prelude.{◌≡◌, ◌≢◌, ◌<◌, ◌≤◌, ℕ, true, length, slice_index};
ghost use Rattle.kernel_columns.specs.declared.columns.TheConstants.{ROWS};
ghost use Rattle.kernel_runs.specs.Meeting.{AreDifferent, NeverInPairs, pair_at};

use kernel_columns::{Numbers, rows_apart};

// Whether the numbers of the first rows increase.
fn increase(batch: &Numbers, rows: usize) -> bool
    requires { rows ≤ ROWS }
    ensures { (i l : ℕ) → result ≡ true → i < l → l < rows → slice_index batch.now i < slice_index batch.now l }
{
    let mut falls = false;
    for l in 1..rows {
        if batch[l] <= batch[l - 1] {
            falls = true;
        }
    }
    !falls
}

// Whether the number at a row stands in an earlier one too.
fn stands_before(batch: &Numbers, row: usize) -> bool
    requires { row < ROWS }
    ensures { (l : ℕ) → result ≢ true → l < row → slice_index batch.now l ≢ slice_index batch.now row }
{
    let number = batch[row];
    let mut again = false;
    for l in 0..row {
        if batch[l] == number {
            again = true;
        }
    }
    again
}

// How many rows there are before the first whose number stands in an earlier one too, each compared with each.
fn rows_before_double(batch: &Numbers, rows: usize) -> usize
    requires { rows ≤ ROWS }
    ensures few { result ≤ rows }
    ensures differ { (i l : ℕ) → i < l → l < result → slice_index batch.now i ≢ slice_index batch.now l }
{
    for row in 0..rows {
        if stands_before(batch, row) {
            return row;
        }
    }
    rows
}

/// How many rows there are, of the first `rows`, before the first whose number stands in an earlier one too.
pub fn rows_that_differ(batch: &Numbers, rows: usize) -> usize
    requires { rows ≤ ROWS }
    ensures few { result ≤ rows }
    ensures differ { AreDifferent result batch.now }
{
    if increase(batch, rows) {
        return rows;
    }
    rows_before_double(batch, rows)
}

/// How many rows there are, of the first `rows`, before the first that has one element by both ways of a pair.
pub fn rows_before_meeting(pairs: &[(usize, usize)], numbers: &[Numbers], rows: usize) -> usize
    requires ways { (i : ℕ) → i < length pairs.now
        → ((pair_at pairs.now i).0 < length numbers.now) × ((pair_at pairs.now i).1 < length numbers.now) }
    requires few { rows ≤ ROWS }
    ensures few { result ≤ rows }
    ensures apart { NeverInPairs result pairs.now numbers.now }
{
    let mut apart = rows;
    for pair in pairs {
        apart = rows_apart(&numbers[pair.0], &numbers[pair.1], apart);
    }
    apart
}
