// The number of steps.
ghost use Rattle.std.specs.Prelude.{◌≡◌, ℕ, ◌+◌, ◌*◌, ◌^◌, ◌<◌, ◌≤◌, IfOk, IfSome, IfNone, length, slice_index};
ghost use Rattle.mesh_decl.specs.Mesh.{set_count};
ghost use Rattle.bound_program.specs.Values.{bound_of};
ghost use Rattle.bound_program.specs.Fits.{site_at};
ghost use Rattle.loop_plan.specs.Needs.{IsLoopOf, IsInRange};
ghost use Rattle.loop_plan.specs.Places.{HaveSets};
ghost use Rattle.loop_plan.specs.ItemPlans.{plan_in};
ghost use Rattle.loop_plan.specs.StepCounts.{place_count, steps_by, steps_of_plans};

use crate::exchange::{LoopRun, run_at};
use crate::places::place_count;
use crate::types::ItemPlan;
use bound_program::Bound;
use local_mesh::RankMesh;
use op_num::OutOfMemory;
use std::alloc::Global;

/// By loop, how many places all ranks execute.
pub fn totals_by_loop(
    alloc: Global,
    bound: &Bound,
    ranks: &[RankMesh],
) -> Result<Vec<u64>, OutOfMemory>
    requires ranks { HaveSets (bound_of bound.now).mesh ranks.now }
    requires sets { (s : ℕ) → s < length (bound_of bound.now).sites
        → (site_at (bound_of bound.now) s).set < set_count (bound_of bound.now).mesh }
    requires few { length (bound_of bound.now).sites < 2 ^ 32 }
    ensures count { IfOk result (λ v. length v.items ≡ length (bound_of bound.now).sites) }
    ensures totals { IfOk result (λ v. (s : ℕ) → s < length (bound_of bound.now).sites
        → slice_index v.items s ≡ place_count (bound_of bound.now) ranks.now s) }
{
    let mut totals = Vec::new(alloc);
    for site in 0..bound.sites.len() as u32 {
        totals.push(place_count(alloc, bound, ranks, site)?)?;
    }
    Ok(totals)
}

// Twice the sum, where 64 bits hold it.
fn twice_sum(a: u64, b: u64) -> Option<u64>
    ensures some { IfSome result (λ n. n ≡ 2 * (a + b)) }
    ensures none { IfNone result (2 ^ 64 ≤ 2 * (a + b)) }
{
    let sum = a.checked_add(b)?;
    sum.checked_mul(2)
}

// The steps of an item that runs this loop, where 64 bits count them.
fn steps_by(run: LoopRun, messages: u64, totals: &[u64]) -> Option<u64>
    requires { IsLoopOf (length totals.now) run }
    ensures some { IfSome result (λ n. n ≡ steps_by run messages totals.now) }
    ensures none { IfNone result (2 ^ 64 ≤ steps_by run messages totals.now) }
{
    match run {
        LoopRun::Free { site } => twice_sum(messages, totals[site as usize]),
        LoopRun::Ordered { .. } => Some(1),
        LoopRun::No => Some(1),
    }
}

// How many messages an item has.
fn message_count(items: &[ItemPlan], item: usize) -> u64
    requires { item < length items.now }
    ensures { result ≡ length (plan_in items.now item).pairs }
{
    items[item].pairs.len() as u64
}

/// All steps of items with these plans; none exactly where 64 bits can't count them.
pub fn count_steps(bound: &Bound, items: &[ItemPlan], totals: &[u64]) -> Option<u64>
    requires range { IsInRange (bound_of bound.now) }
    requires items { length items.now ≡ length (bound_of bound.now).trace }
    requires totals { length totals.now ≡ length (bound_of bound.now).sites }
    ensures some { IfSome result (λ n. n ≡ steps_of_plans (bound_of bound.now) items.now totals.now (length (bound_of bound.now).trace)) }
    ensures none { IfNone result (2 ^ 64
        ≤ steps_of_plans (bound_of bound.now) items.now totals.now (length (bound_of bound.now).trace)) }
{
    let mut steps = 0u64;
    for item in 0..bound.trace.len() {
        let messages = message_count(items, item);
        let more = steps_by(run_at(bound, item), messages, totals)?;
        steps = steps.checked_add(more)?;
    }
    Some(steps)
}
