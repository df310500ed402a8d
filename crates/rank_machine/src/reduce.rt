// The partials of all ranks go into the variables.

ghost use Rattle.std.specs.Prelude.{◌≡◌, ◌<◌, ℕ, [], length, map, slice_index_or, pos, slice_set};
ghost use Rattle.op_num.specs.Reduction.{merged};
ghost use Rattle.rank_state.specs.Windows.{operation, index, Reads, InSlots, Merges};
ghost use Rattle.rank_state.specs.Joins.{merge_rows, reduce_one, reduce_all, unite_one, unite as united};

use rank_state::rank_memory::scalars::{merge, unit};
use rank_state::{Operation, Scalar};

// A rank's partial merged into a variable's cell.
fn merge_row(variables: &mut [i32], at: usize, row: &[i32], slot: usize, how: Operation)
    requires at { at < length variables.old }
    requires slot { slot < length row.now }
    ensures { variables.new
        ≡ slice_set variables.old at
        (merged (operation how) (slice_index_or variables.old at (pos 0)) (slice_index_or row.now slot (pos 0))) }
{
    variables[at] = merge(how, variables[at], row[slot]);
}

// The partials of all ranks merged into a variable's cell.
fn merge_all(variables: &mut [i32], at: usize, rows: &[Vec<i32>], slot: usize, how: Operation)
    requires at { at < length variables.old }
    requires rows { (i : ℕ) → i < length rows.now → slot < length (slice_index_or (map (λ v. v.items) rows.now) i []) }
    ensures { variables.new
        ≡ slice_set variables.old at
        (merge_rows (operation how) slot (map (λ v. v.items) rows.now) (length rows.now) (slice_index_or variables.old at (pos 0))) }
{
    for row in rows {
        merge_row(variables, at, row, slot, how);
    }
}

// One cell into which the loop reduces.
fn put_reduced(variables: &mut [i32], rows: &[Vec<i32>], scalar: Scalar)
    requires inside { index scalar < length variables.old }
    requires rows { (i : ℕ) → i < length rows.now → InSlots (length (slice_index_or (map (λ v. v.items) rows.now) i [])) scalar }
    ensures { variables.new ≡ reduce_one (map (λ v. v.items) rows.now) (length rows.now) scalar variables.old }
{
    if let Scalar::Amount { at, slot, how } = scalar {
        merge_all(variables, at, rows, slot, how);
    }
}

/// The cells into which the loop reduces.
pub fn reduce_variables(variables: &mut [i32], rows: &[Vec<i32>], scalars: &[Scalar])
    requires inside { Reads (length variables.old) scalars.now }
    requires rows { (i : ℕ) → i < length rows.now → Merges (length (slice_index_or (map (λ v. v.items) rows.now) i [])) scalars.now }
    ensures { variables.new ≡ reduce_all (map (λ v. v.items) rows.now) (length rows.now) scalars.now variables.old }
{
    for scalar in scalars {
        put_reduced(variables, rows, *scalar);
    }
}

// One partial at its unit.
fn put_unit(partials: &mut [i32], scalar: Scalar)
    requires { InSlots (length partials.old) scalar }
    ensures { partials.new ≡ unite_one scalar partials.old }
{
    if let Scalar::Amount { slot, how, .. } = scalar {
        partials[slot] = unit(how);
    }
}

/// The loop's partials at their units.
pub fn unite(partials: &mut [i32], scalars: &[Scalar])
    requires { Merges (length partials.old) scalars.now }
    ensures { partials.new ≡ united scalars.now partials.old }
{
    for scalar in scalars {
        put_unit(partials, *scalar);
    }
}

/// The same on each rank.
pub fn unite_all(rows: &mut [Vec<i32>], scalars: &[Scalar])
    requires { (i : ℕ) → i < length rows.old → Merges (length (slice_index_or (map (λ v. v.items) rows.old) i [])) scalars.now }
    ensures { map (λ v. v.items) rows.new ≡ map (united scalars.now) (map (λ v. v.items) rows.old) }
{
    for i in 0..rows.len() {
        unite(&mut rows[i], scalars);
    }
}
