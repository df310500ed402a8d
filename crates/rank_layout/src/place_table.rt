// How many places ranks have.

ghost use Rattle.std.specs.Prelude.{◌≡◌, ℕ, ◌<◌, IfOk, length, get_or, slice_index};
ghost use Rattle.loop_plan.specs.Values.{plan_of};
ghost use Rattle.rank_layout.specs.Tables.{places_on};

use loop_plan::{Plan, SitePlan};
use op_num::OutOfMemory;
use std::alloc::Global;

// How many places a rank has of a loop.
fn places_in(part: &SitePlan, rank: u32) -> u32
    ensures { result ≡ slice_index part.now.places.items rank }
{
    match part.places.as_slice().get(rank as usize) {
        None => 0,
        Some(places) => *places,
    }
}

// The most places that a rank has of a loop.
fn most_places(plan: &Plan, rank: u32) -> usize
    ensures { result ≡ places_on (plan_of plan.now) rank }
{
    let mut most = 0;
    for place in 0..plan.sites.len() {
        let (_, part) = plan.sites.loop_at(place);
        most = places_in(part, rank).max(most);
    }
    most as usize
}

/// The most places of a loop, by rank.
///
/// # Errors
/// Want of memory alone.
pub fn place_table(alloc: Global, plan: &Plan, ranks: u32) -> Result<Vec<usize>, OutOfMemory>
    ensures count { IfOk result (λ v. length v.items ≡ ranks) }
    ensures places { IfOk result (λ v. (r : ℕ) → r < ranks → get_or v.items r 0 ≡ places_on (plan_of plan.now) r) }
{
    let mut places = Vec::with_capacity(alloc, ranks as usize)?;
    for rank in 0..ranks {
        places.push(most_places(plan, rank))?;
    }
    Ok(places)
}
