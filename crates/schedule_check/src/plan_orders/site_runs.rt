// The runs of loops, by the slot of their plan and by rank.
ghost use Rattle.std.specs.Prelude.{◌≡◌, ◌<◌, ◌≤◌, ◌+◌, ℕ, [], IfOk, OnOk, length};
ghost use Rattle.schedule_steps.specs.Outline.{Outline};
ghost use Rattle.step_orders.specs.Order.{IsColoured};
ghost use Rattle.step_orders.specs.ElementRuns.{runs_of};
ghost use Rattle.bound_program.specs.Values.{bound_of};
ghost use Rattle.loop_plan.specs.Values.{plan_of, site_plan_of};
ghost use Rattle.loop_plan.specs.Proper.{IsSitePlan, Proper};
ghost use Rattle.schedule_check.specs.Runs.{runs_at, slot_runs, AreRunsOf, AreSlotRuns};

use bound_program::Bound;
use local_mesh::RankMesh;
use loop_plan::{Colours, Plan, SitePlan};
use op_num::OutOfMemory;
use std::alloc::Global;
use step_orders::Runs;

// The runs of a rank that executes so many places, with these colours.
fn rank_runs(
    alloc: Global,
    block: u32,
    count: u32,
    colours: &Colours,
    group: u32,
) -> Result<Runs, OutOfMemory>
    requires block { 1 ≤ block }
    requires group { 1 ≤ group }
    requires count { length colours.now.inner.items ≡ count }
    ensures { IfOk result (λ v. (o : Outline) (k r : ℕ)
        → IsColoured o k r block colours.now.blocks.items colours.now.inner.items → v ≡ runs_of o group k r) }
{
    let _ = count;
    Runs::of_places(alloc, block, &colours.blocks, &colours.inner, group)
}

// By rank the runs of a loop with this plan.
fn loop_runs(
    alloc: Global,
    bound: &Bound,
    ranks: &[RankMesh],
    plan: &SitePlan,
    site: u32,
    block: u32,
    group: u32,
) -> Result<Vec<Runs>, OutOfMemory>
    requires block { 1 ≤ block }
    requires group { 1 ≤ group }
    requires plan { IsSitePlan (bound_of bound.now) ranks.now block site (site_plan_of plan.now) }
    ensures { IfOk result (λ v. AreRunsOf (length ranks.now) block group (site_plan_of plan.now).colours v.items) }
{
    let mut runs = Vec::new(alloc);
    for rank in 0..ranks.len() {
        let colours = &plan.colours[rank];
        runs.push(rank_runs(alloc, block, plan.places[rank], colours, group)?)?;
    }
    Ok(runs)
}

// By slot no runs.
fn no_runs(alloc: Global, slots: usize) -> Result<Vec<Vec<Runs>>, OutOfMemory>
    ensures count { IfOk result (λ v. length v.items ≡ slots) }
    ensures none { IfOk result (λ v. (k : ℕ) → slot_runs v.items k ≡ []) }
{
    let mut runs = Vec::with_capacity(alloc, slots)?;
    for _ in 0..slots {
        runs.push(Vec::new(alloc))?;
    }
    Ok(runs)
}

// The runs of a loop's plan, where no loop before it had the same.
fn put_runs(
    runs: &mut [Vec<Runs>],
    alloc: Global,
    bound: &Bound,
    ranks: &[RankMesh],
    plan: &Plan,
    site: u32,
    group: u32,
) -> Result<(), OutOfMemory>
    requires plan { Proper (bound_of bound.now) ranks.now (plan_of plan.now) }
    requires group { 1 ≤ group }
    requires count { length runs.old ≡ length plan.now.sites.plans }
    requires before { AreSlotRuns (length ranks.now) plan.now.block group plan.now.sites site runs.old }
    ensures count { length runs.new ≡ length runs.old }
    ensures runs { OnOk result (AreSlotRuns (length ranks.now) plan.now.block group plan.now.sites (site + 1) runs.new) }
{
    let Some(slot) = plan.sites.slot(site) else {
        return Ok(());
    };
    let Some(found) = plan.sites.get(site) else {
        unreachable!()
    };
    if runs[slot].is_empty() {
        runs[slot] = loop_runs(alloc, bound, ranks, found, site, plan.block, group)?;
    }
    Ok(())
}

/// By the slot of a loop's plan and rank, the runs of the loop's places. An error is want of memory.
pub fn plan_runs(
    alloc: Global,
    bound: &Bound,
    ranks: &[RankMesh],
    plan: &Plan,
    sites: u32,
    group: u32,
) -> Result<Vec<Vec<Runs>>, OutOfMemory>
    requires plan { Proper (bound_of bound.now) ranks.now (plan_of plan.now) }
    requires sites { length (bound_of bound.now).sites ≡ sites }
    requires group { 1 ≤ group }
    ensures count { IfOk result (λ v. length v.items ≡ length plan.now.sites.plans) }
    ensures runs { IfOk result (λ v. AreSlotRuns (length ranks.now) plan.now.block group plan.now.sites sites v.items) }
{
    let mut runs = no_runs(alloc, plan.sites.count())?;
    for site in 0..sites {
        put_runs(&mut runs, alloc, bound, ranks, plan, site, group)?;
    }
    Ok(runs)
}

/// The runs on a rank of the places of loops whose plan has this slot.
pub fn runs_on(runs: &[Vec<Runs>], slot: usize, rank: u32) -> &Runs
    requires slot { slot < length runs.now }
    requires rank { rank < length (slot_runs runs.now slot) }
    ensures { result.now ≡ runs_at (slot_runs runs.now slot) rank }
{
    &runs[slot][rank as usize]
}
