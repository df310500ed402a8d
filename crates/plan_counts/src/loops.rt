// The counts of a loop.

ghost use Rattle.std.specs.Prelude.{◌≡◌, ◌<◌, ℕ, IfOk, length};
ghost use Rattle.bound_program.specs.Values.{bound_of};
ghost use Rattle.bound_program.specs.Fits.{site_at};
ghost use Rattle.loop_plan.specs.Values.{plan_of, site_plan};
ghost use Rattle.loop_plan.specs.Pairs.{sets_of};
ghost use Rattle.plan_counts.specs.Counts.{counts_of};
ghost use Rattle.plan_counts.specs.Parts.{items_tally};

use crate::tallies::Tally;
use crate::types::LoopCounts;
use crate::work::{
    block_colours_of, blocks_of, imbalance_of, inner_colours_of, owned_of, repeated_of,
};
use bound_program::Bound;
use colouring::Colours;
use local_mesh::RankMesh;
use loop_plan::Plan;
use op_num::OutOfMemory;

// By rank the places of a loop; none where it runs as no Free one.
fn places_of<'a>(plan: &'a Plan, site: u32) -> &'a [u32]
    ensures { result.now ≡ (site_plan (plan_of plan.now) site).places }
{
    match plan.sites.get(site) {
        Some(found) => &found.places,
        None => &[],
    }
}

// The same of their colours.
fn colours_of<'a>(plan: &'a Plan, site: u32) -> &'a [Colours]
    ensures { result.now ≡ (site_plan (plan_of plan.now) site).colours }
{
    match plan.sites.get(site) {
        Some(found) => &found.colours,
        None => &[],
    }
}

// The set of a loop.
fn set_of(bound: &Bound, site: u32) -> u32
    requires { site < length (bound_of bound.now).sites }
    ensures { result ≡ (site_at (bound_of bound.now) site).set }
{
    bound.sites[site as usize].set
}

/// The counts of a loop whose items do this. An error is want of memory, where 64 bits can't count.
pub fn loop_counts(
    bound: &Bound,
    ranks: &[RankMesh],
    plan: &Plan,
    site: u32,
    tally: Tally,
) -> Result<LoopCounts, OutOfMemory>
    requires site { site < length (bound_of bound.now).sites }
    requires sets { (r : ℕ) → r < length ranks.now
        → (site_at (bound_of bound.now) site).set < length (sets_of ranks.now r) }
    requires tally { tally ≡ items_tally (bound_of bound.now) ranks.now site (bound_of bound.now).trace (plan_of plan.now).items }
    ensures { IfOk result (λ c. c ≡ counts_of (bound_of bound.now) ranks.now (plan_of plan.now) site) }
{
    let owned = owned_of(ranks, set_of(bound, site))?;
    let places = places_of(plan, site);
    let colours = colours_of(plan, site);
    let repeated = repeated_of(places, owned)?;
    let imbalance = imbalance_of(places)?;
    let blocks = blocks_of(colours)?;
    Ok(LoopCounts {
        runs: tally.runs,
        exchanges: tally.exchanges,
        messages: tally.messages,
        cells: tally.cells,
        owned,
        repeated,
        imbalance,
        blocks,
        block_colours: block_colours_of(colours),
        inner_colours: inner_colours_of(colours),
    })
}
