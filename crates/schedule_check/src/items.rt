// The marks of items.
ghost use Rattle.std.specs.Prelude.{◌≡◌, ◌<◌, ◌≤◌, ℕ, IfOk, length, get_or};
ghost use Rattle.bound_program.specs.Values.{bound_of, Free};
ghost use Rattle.bound_program.specs.Fits.{site_at};
ghost use Rattle.step_judge.specs.Marked.{no_item};
ghost use Rattle.loop_plan.specs.Values.{site_plan_of, plan_of, site_plan};
ghost use Rattle.loop_plan.specs.Needs.{item_at, IsInRange};
ghost use Rattle.loop_plan.specs.Proper.{Proper};
ghost use Rattle.schedule_check.specs.NewPlaces.{AreColoured};
ghost use Rattle.schedule_check.specs.ItemMarks.{AreItemMarks};

use crate::pairs::{receivers, senders};
use crate::places::places_by_rank;
use bound_program::Bound;
use local_mesh::RankMesh;
use loop_plan::{LoopRun, Plan, SitePlan, run_at};
use op_num::OutOfMemory;
use std::alloc::Global;
use step_judge::marks::ItemMarks;

// The plan of a loop that runs on a rank.
fn site_of(plan: &Plan, site: u32) -> &SitePlan
    requires { 0 < length (site_plan (plan_of plan.now) site).places }
    ensures { site_plan_of result.now ≡ site_plan (plan_of plan.now) site }
{
    match plan.sites.get(site) {
        Some(found) => found,
        None => unreachable!(),
    }
}

// The set of a loop.
fn set_of(bound: &Bound, site: u32) -> u32
    requires { site < length (bound_of bound.now).sites }
    ensures { result ≡ (site_at (bound_of bound.now) site).set }
{
    bound.sites[site as usize].set
}

// The marks of an item that runs this loop as a Free one.
fn free_item(
    alloc: Global,
    bound: &Bound,
    plan: &Plan,
    ranks: &[RankMesh],
    item: usize,
    site: u32,
) -> Result<ItemMarks, OutOfMemory>
    requires plan { Proper (bound_of bound.now) ranks.now (plan_of plan.now) }
    requires some { 0 < length ranks.now }
    requires few { length ranks.now ≤ 64 }
    requires item { item < length (bound_of bound.now).trace }
    requires runs { item_at (bound_of bound.now) item ≡ Free site }
    requires site { site < length (bound_of bound.now).sites }
    requires colours { AreColoured plan.now.block (length ranks.now) (site_plan (plan_of plan.now) site) }
    ensures { IfOk result (λ w. AreItemMarks (bound_of bound.now) ranks.now (plan_of plan.now) item w) }
{
    let pairs = plan.items[item].pairs.as_slice();
    let found = site_of(plan, site);
    let places = places_by_rank(alloc, plan.block, ranks, set_of(bound, site), found)?;
    let marks = ItemMarks::of_messages(
        alloc,
        plan.ranks,
        senders(alloc, pairs)?,
        receivers(alloc, pairs)?,
        places,
    )?;
    Ok(marks)
}

// The marks of an item.
fn item_marks(
    alloc: Global,
    bound: &Bound,
    plan: &Plan,
    ranks: &[RankMesh],
    item: usize,
) -> Result<ItemMarks, OutOfMemory>
    requires plan { Proper (bound_of bound.now) ranks.now (plan_of plan.now) }
    requires range { IsInRange (bound_of bound.now) }
    requires some { 0 < length ranks.now }
    requires few { length ranks.now ≤ 64 }
    requires item { item < length (bound_of bound.now).trace }
    ensures { IfOk result (λ w. AreItemMarks (bound_of bound.now) ranks.now (plan_of plan.now) item w) }
{
    match run_at(bound, item) {
        LoopRun::Free { site } => free_item(alloc, bound, plan, ranks, item, site),
        LoopRun::Ordered { .. } => ItemMarks::of_join(alloc),
        LoopRun::No => ItemMarks::of_join(alloc),
    }
}

/// The marks of a plan's items, of which no step is taken.
pub fn all_items(
    alloc: Global,
    bound: &Bound,
    plan: &Plan,
    ranks: &[RankMesh],
) -> Result<Vec<ItemMarks>, OutOfMemory>
    requires plan { Proper (bound_of bound.now) ranks.now (plan_of plan.now) }
    requires range { IsInRange (bound_of bound.now) }
    requires some { 0 < length ranks.now }
    requires few { length ranks.now ≤ 64 }
    ensures count { IfOk result (λ v. length v.items ≡ length (bound_of bound.now).trace) }
    ensures items { IfOk result (λ v. (k : ℕ) → k < length (bound_of bound.now).trace
        → AreItemMarks (bound_of bound.now) ranks.now (plan_of plan.now) k (get_or v.items k no_item)) }
{
    let mut items = Vec::new(alloc);
    for item in 0..bound.trace.len() {
        items.push(item_marks(alloc, bound, plan, ranks, item)?)?;
    }
    Ok(items)
}
