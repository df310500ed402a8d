// Elements whose amounts count.

ghost use Rattle.std.specs.Prelude.{◌≡◌, ◌<◌, ◌≤◌, ◌+◌, ◌==◌, ℕ, true, length, get_or};
ghost use Rattle.rank_program.specs.Batches.{Counts, reduces};
ghost use Rattle.rank_program.specs.LocalLoops.{IsLocalLoop};
ghost use Rattle.rank_program.specs.LocalRuns.{AllBeginHere};
ghost use Rattle.rank_program.specs.Sound.{setup_in, layout_in};

use crate::begun::own_places;
use crate::local_loops::LocalLoop;
use rank_state::Scalar;

// Whether a loop reduces into a variable.
fn reduces(scalars: &[Scalar]) -> bool
    ensures { result ≡ reduces scalars.now }
{
    for scalar in scalars {
        if let Scalar::Amount { .. } = scalar {
            return true;
        }
    }
    false
}

// Whether so many places from `at` on are below one.
fn all_below(places: &[u32], at: usize, count: usize, end: u32) -> bool
    requires some { 0 < count }
    requires fits { at + count ≤ length places.now }
    ensures { result ≡ true → (j : ℕ) → j < count → get_or places.now (at + j) 0 < end }
{
    let mut most = 0;
    for j in 0..count {
        most = places[at + j].max(most);
    }
    most < end
}

/// Whether what the elements of a loop at so many places from `at` on leave of its scalars counts: it reduces into
/// none, or its rank owns the elements.
pub fn all_count(local: &LocalLoop<'_>, at: usize, count: usize) -> bool
    requires is { IsLocalLoop local.now }
    requires steps { AllBeginHere local.now }
    requires some { 0 < count }
    requires fits { at + count ≤ length local.now.places.now }
    ensures { result ≡ true → (j : ℕ) → j < count → Counts
        ((setup_in local.now.program.now).owner ((setup_in local.now.program.now).program.set local.now.item)
        ((layout_in local.now.program.now).original local.now.item local.now.rank (get_or local.now.places.now (at + j) 0))
        == local.now.rank)
        local.now.scalars.now }
{
    if !reduces(local.scalars) {
        return true;
    }
    let end = own_places(local.program, local.item, local.rank);
    all_below(local.places, at, count, end)
}
