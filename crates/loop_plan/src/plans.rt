// Plans.
ghost use Rattle.std.specs.Prelude.{◌≡◌, ◌<◌, ◌≤◌, ◌^◌, IfOk, IfErr, length};
ghost use Rattle.bound_program.specs.Values.{bound_of};
ghost use Rattle.bound_program.specs.Fits.{Fits};
ghost use Rattle.loop_plan.specs.Values.{plan_of};
ghost use Rattle.loop_plan.specs.Distributed.{Distributed};
ghost use Rattle.loop_plan.specs.ItemPlans.{ArePlanned};
ghost use Rattle.loop_plan.specs.Places.{HaveSets};
ghost use Rattle.loop_plan.specs.StepCounts.{program_steps, max_steps, Refuses};
ghost use Rattle.loop_plan.specs.Proper.{Proper, HasLeastColours};

use crate::counting::{count_steps, totals_by_loop};
use crate::items::item_plans;
use crate::sites::site_plans;
use crate::types::{ItemPlan, Plan, PlanRefusal};
use bound_program::Bound;
use local_mesh::RankMesh;
use local_mesh::halo_lists::Halos;
use op_num::OutOfMemory;
use std::alloc::{AllocError, Global};

/// The limit of the number of steps.
pub const MAX_STEPS: u64 = 8_388_608;

/// The plan of each item, by the local meshes: the dats that it exchanges, and its messages. It fails only for want of
/// memory.
pub fn planned_items(
    alloc: Global,
    bound: &Bound,
    ranks: &[RankMesh],
    halos: &Halos,
) -> Result<Vec<ItemPlan>, OutOfMemory>
    requires fits { Fits (bound_of bound.now) }
    requires ranks { Distributed (bound_of bound.now).mesh halos.now ranks.now }
    ensures { IfOk result (λ v. ArePlanned (bound_of bound.now) ranks.now v.items) }
{
    bound.mesh.is_in_range();
    let _ = ranks.len();
    let plans = item_plans(alloc, bound, halos)?;
    Ok(plans)
}

/// How many steps the program has on these ranks, by the plans of its items. It fails only for want of memory, also
/// where 64 bits can't count the steps.
pub fn number_of_steps(
    alloc: Global,
    bound: &Bound,
    ranks: &[RankMesh],
    items: &[ItemPlan],
) -> Result<u64, OutOfMemory>
    requires fits { Fits (bound_of bound.now) }
    requires few { length (bound_of bound.now).sites < 2 ^ 32 }
    requires sets { HaveSets (bound_of bound.now).mesh ranks.now }
    requires items { ArePlanned (bound_of bound.now) ranks.now items.now }
    ensures { IfOk result (λ n. n ≡ program_steps (bound_of bound.now) ranks.now) }
{
    let totals = totals_by_loop(alloc, bound, ranks)?;
    match count_steps(bound, items, &totals) {
        Some(steps) => Ok(steps),
        None => Err(AllocError),
    }
}

// The plans of the items, and how many steps the program has.
#[derive(Drop)]
struct Counted {
    items: Vec<ItemPlan>,
    steps: u64,
}

// The plans of a program's items, where it has no more steps than the limit. The refusals are those of `plan`.
fn counted_items(
    alloc: Global,
    bound: &Bound,
    ranks: &[RankMesh],
    halos: &Halos,
) -> Result<Counted, PlanRefusal>
    requires fits { Fits (bound_of bound.now) }
    requires ranks { Distributed (bound_of bound.now).mesh halos.now ranks.now }
    ensures items { IfOk result (λ c. ArePlanned (bound_of bound.now) ranks.now c.items.items) }
    ensures sites { IfOk result (λ c. length (bound_of bound.now).sites < 2 ^ 32) }
    ensures steps { IfOk result (λ c. c.steps ≡ program_steps (bound_of bound.now) ranks.now) }
    ensures few { IfOk result (λ c. c.steps ≤ max_steps) }
    ensures refused { IfErr result (λ e. Refuses (program_steps (bound_of bound.now) ranks.now) e) }
{
    bound.mesh.is_in_range();
    if bound.sites.len() > u32::MAX as usize {
        return Err(PlanRefusal::OutOfMemory);
    }
    let items = planned_items(alloc, bound, ranks, halos)?;
    let steps = number_of_steps(alloc, bound, ranks, &items)?;
    if MAX_STEPS < steps {
        return Err(PlanRefusal::TooManySteps { steps });
    }
    Ok(Counted { items, steps })
}

/// The plan of a program on these ranks, in blocks of `block` places, with least colours.
///
/// It is refused exactly where there are more steps than `MAX_STEPS`, and fails otherwise only for want of memory, also
/// where 64 bits can't count the steps, or 32 bits the loops. No step is made to count them.
pub fn plan(
    alloc: Global,
    bound: &Bound,
    ranks: &[RankMesh],
    halos: &Halos,
    block: u32,
) -> Result<Plan, PlanRefusal>
    requires fits { Fits (bound_of bound.now) }
    requires ranks { Distributed (bound_of bound.now).mesh halos.now ranks.now }
    requires block { 0 < block }
    ensures proper { IfOk result (λ p. Proper (bound_of bound.now) ranks.now (plan_of p)) }
    ensures colours { IfOk result (λ p. HasLeastColours (bound_of bound.now) ranks.now (plan_of p)) }
    ensures block { IfOk result (λ p. p.block ≡ block) }
    ensures steps { IfOk result (λ p. p.steps ≡ program_steps (bound_of bound.now) ranks.now) }
    ensures few { IfOk result (λ p. p.steps ≤ max_steps) }
    ensures refused { IfErr result (λ e. Refuses (program_steps (bound_of bound.now) ranks.now) e) }
{
    bound.mesh.is_in_range();
    let counted = counted_items(alloc, bound, ranks, halos)?;
    let sites = site_plans(alloc, bound, ranks, block)?;
    Ok(Plan {
        ranks: ranks.len() as u32,
        block,
        sites,
        items: counted.items,
        steps: counted.steps,
    })
}
