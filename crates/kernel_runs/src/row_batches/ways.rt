// The ways in which arguments reach elements by a rank's local numbers: by no map or by a map and an index.

ghost use Rattle.std.specs.Prelude.{◌≡◌, ◌<◌, ◌≤◌, ◌+◌, ◌*◌, ℕ, length, get_or, slice_index, None};
ghost use Rattle.kernel_columns.specs.declared.columns.TheConstants.{ROWS};
ghost use Rattle.kernel_runs.specs.Ways.{HasTarget, local_in, AreNumbers};

use kernel_columns::Numbers;

/// The local targets of a map: `step` for each place, of which the one at `index` is meant.
#[derive(Clone, Copy)]
pub struct LocalVia<'a> {
    pub targets: &'a [u32],
    pub step: usize,
    pub index: usize,
}

/// The local number of the element to which a way leads from a place: without a map that is the place's own.
pub fn local_number(way: &Option<LocalVia<'_>>, place: u32) -> u32
    requires { HasTarget way.now place }
    ensures { result ≡ local_in way.now place }
{
    match way {
        None => place,
        Some(via) => via.targets[place as usize * via.step + via.index],
    }
}

// The local targets of a map from the first places of a batch.
fn put_targets(via: &LocalVia<'_>, batch: &Numbers, numbers: &mut Numbers, rows: usize)
    requires targets { (l : ℕ) → l < rows
        → slice_index batch.now l * via.now.step + via.now.index < length via.now.targets.now }
    requires few { rows ≤ ROWS }
    ensures { (l : ℕ) → l < rows
        → slice_index numbers.new l ≡ slice_index via.now.targets.now (slice_index batch.now l * via.now.step + via.now.index) }
{
    for l in 0..rows {
        numbers[l] = via.targets[batch[l] as usize * via.step + via.index];
    }
}

// The local numbers of the elements to which a way leads from the first places of a batch.
fn put_numbers(way: &Option<LocalVia<'_>>, batch: &Numbers, numbers: &mut Numbers, rows: usize)
    requires targets { (l : ℕ) → l < rows → HasTarget way.now (slice_index batch.now l) }
    requires few { rows ≤ ROWS }
    ensures { (l : ℕ) → l < rows → slice_index numbers.new l ≡ local_in way.now (slice_index batch.now l) }
{
    match way {
        None => *numbers = *batch,
        Some(via) => put_targets(via, batch, numbers, rows),
    }
}

/// The local numbers of the elements to which each way leads from the first places of a batch, at most 64.
pub fn put_all_numbers(
    ways: &[Option<LocalVia<'_>>],
    batch: &Numbers,
    numbers: &mut [Numbers],
    rows: usize,
)
    requires targets { (w l : ℕ) → w < length ways.now → l < rows → HasTarget (get_or ways.now w None) (slice_index batch.now l) }
    requires room { length ways.now ≤ length numbers.old }
    requires few { rows ≤ ROWS }
    ensures { AreNumbers rows ways.now batch.now numbers.new }
{
    for (w, way) in ways.iter().enumerate() {
        put_numbers(way, batch, &mut numbers[w], rows);
    }
}
