// The number of each element of a set: the colour of the block of its place on its owner.
ghost use Rattle.std.specs.Prelude.{◌≡◌, ◌/◌, ◌<◌, ℕ, true, [], map, length, slice_index, slice_index_or, IfOk};
ghost use Rattle.mesh_decl.specs.Mesh.{set_count, set_size};
ghost use Rattle.mesh_decl.specs.Owners.{owner_of};
ghost use Rattle.bound_program.specs.Values.{bound_of, item_of};
ghost use Rattle.bound_program.specs.Fits.{site_at};
ghost use Rattle.colouring.specs.declared.types.Colours.{Colours as ColoursValue};
ghost use Rattle.loop_plan.specs.Values.{plan_of, site_plan, site_plan_of};
ghost use Rattle.loop_plan.specs.Places.{runs_loop, runs_free};
ghost use Rattle.cell_numbers.specs.Numbers.{IsBlockColour};
ghost use Rattle.cell_numbers.specs.Shown.{IsOnRanks, IsFreeRun};

use bound_program::{Bound, Item};
use colouring::block_plan::block_of;
use loop_plan::{Plan, SitePlan};
use op_num::OutOfMemory;
use partition::distribute::Distribution;
use std::alloc::Global;

// Whether an item runs a loop as a Free one.
fn is_run(item: &Item, site: u32) -> bool
    ensures { result ≡ runs_loop site (item_of item.now) }
{
    match item {
        Item::Free { site: other } => *other == site,
        _ => false,
    }
}

/// Whether a loop runs as a Free one. It takes time linear in the items.
pub fn runs_free(bound: &Bound, site: u32) -> bool
    ensures { result ≡ runs_free (bound_of bound.now) site }
{
    for item in &bound.trace {
        if is_run(item, site) {
            return true;
        }
    }
    false
}

// The plan of a loop that runs as a Free one.
fn site_of(plan: &Plan, site: u32) -> &SitePlan
    requires { 0 < length (site_plan (plan_of plan.now) site).places }
    ensures { site_plan_of result.now ≡ site_plan (plan_of plan.now) site }
{
    match plan.sites.get(site) {
        Some(found) => found,
        None => unreachable!(),
    }
}

// The colour of the block of a rank's place, where a loop has this plan in blocks of this size.
fn block_colour(plan: &SitePlan, rank: u32, place: u32, size: u32) -> u32
    requires size { 0 < size }
    requires rank { rank < length plan.now.colours.items }
    requires block { (d : ColoursValue) → place / size < length (slice_index_or plan.now.colours.items rank d).blocks.items }
    ensures { result ≡ slice_index (slice_index_or (map (λ c. c.blocks.items) plan.now.colours.items) rank []) (place / size) }
{
    let colours = &plan.colours[rank as usize];
    colours.blocks[block_of(place, size) as usize]
}

// The set of a loop.
fn set_of(bound: &Bound, site: u32) -> u32
    requires { site < length (bound_of bound.now).sites }
    ensures { result ≡ (site_at (bound_of bound.now) site).set }
{
    bound.sites[site as usize].set
}

// The colour of the block of an element's place on its owner, in a loop with this plan.
fn colour_of(
    bound: &Bound,
    found: &Distribution,
    plan: &Plan,
    site: u32,
    element: u32,
    rank: u32,
) -> u32
    requires planned { IsOnRanks (bound_of bound.now) found.now (plan_of plan.now) }
    requires runs { IsFreeRun (bound_of bound.now) site }
    requires set { (site_at (bound_of bound.now) site).set < set_count (bound_of bound.now).mesh }
    requires element { element < set_size (bound_of bound.now).mesh (site_at (bound_of bound.now) site).set }
    requires owner { rank ≡ owner_of found.now.owners (site_at (bound_of bound.now) site).set element }
    ensures { IsBlockColour found.now.owners found.now.ranks.items (plan_of plan.now) site
        (site_at (bound_of bound.now) site).set element result }
{
    local_mesh::originals_are_held();
    local_mesh::owned_come_first();
    local_mesh::executed_come_first();
    let set = bound.sites[site as usize].set;
    match found.ranks[rank as usize].local_of(set, element) {
        Some(place) => block_colour(site_of(plan, site), rank, place, plan.block),
        None => unreachable!(),
    }
}

/// By element of the set of a loop that runs as a Free one, the colour of the block of its place on its owner.
pub fn block_colours(
    alloc: Global,
    bound: &Bound,
    found: &Distribution,
    plan: &Plan,
    site: u32,
) -> Result<Vec<u32>, OutOfMemory>
    requires planned { IsOnRanks (bound_of bound.now) found.now (plan_of plan.now) }
    requires runs { IsFreeRun (bound_of bound.now) site }
    requires set { (site_at (bound_of bound.now) site).set < set_count (bound_of bound.now).mesh }
    ensures count { IfOk result (λ v. length v.items ≡ set_size (bound_of bound.now).mesh (site_at (bound_of bound.now) site).set) }
    ensures colours { IfOk result (λ v. (x : ℕ) → x < set_size (bound_of bound.now).mesh (site_at (bound_of bound.now) site).set
        → IsBlockColour found.now.owners found.now.ranks.items (plan_of plan.now) site
        (site_at (bound_of bound.now) site).set x (slice_index v.items x)) }
{
    bound.mesh.is_in_range();
    let set = set_of(bound, site);
    let mut colours = Vec::new(alloc);
    for element in 0..bound.mesh.set_size(set) {
        let rank = found.owners.rank_of(set, element);
        colours.push(colour_of(bound, found, plan, site, element, rank))?;
    }
    Ok(colours)
}
