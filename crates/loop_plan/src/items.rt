// The plans of items.
ghost use Rattle.std.specs.Prelude.{◌≡◌, ◌<◌, ◌&&◌, ◌||◌, ℕ, false, not, IfOk, OnOk, length, slice_index_or};
ghost use Rattle.lemmas.specs.Below.{listed};
ghost use Rattle.mesh_decl.specs.Mesh.{dat_count};
ghost use Rattle.bound_program.specs.Values.{bound_of};
ghost use Rattle.loop_plan.specs.Pairs.{pairs_below};
ghost use Rattle.loop_plan.specs.Needs.{item_needs, item_modifies, IsInRange};
ghost use Rattle.loop_plan.specs.Exports.{passes_by_exports, HaveExports, AreReceivers};
ghost use Rattle.loop_plan.specs.ItemPlans.{AreItemPlans};

use crate::dirty::Dirty;
use crate::exchange::exchange_at;
use crate::messages::{all_receivers, messages};
use crate::types::ItemPlan;
use bound_program::Bound;
use local_mesh::halo_lists::Halos;
use local_mesh::rank_sets::RankSet;
use op_num::OutOfMemory;
use std::alloc::Global;

// The plan of an item; behind it the bits are those behind the item.
fn plan_item(
    alloc: Global,
    bound: &Bound,
    halos: &Halos,
    receivers: &[Vec<RankSet>],
    item: usize,
    dirty: &mut Dirty,
    dats: u32,
) -> Result<ItemPlan, OutOfMemory>
    requires item { item < length (bound_of bound.now).trace }
    requires dats { dats ≡ dat_count (bound_of bound.now).mesh }
    requires count { length dirty.old ≡ dats }
    requires range { IsInRange (bound_of bound.now) }
    requires exports { HaveExports (bound_of bound.now).mesh halos.now }
    requires receivers { AreReceivers (bound_of bound.now).mesh halos.now receivers.now }
    ensures exchange { IfOk result (λ v. v.exchange.items ≡ listed dats (λ d. slice_index_or dirty.old d false
        && item_needs (bound_of bound.now) item d)) }
    ensures pairs { IfOk result (λ v. v.pairs.items
        ≡ pairs_below (passes_by_exports (bound_of bound.now).mesh halos.now v.exchange.items) halos.now.ranks halos.now.ranks) }
    ensures count { OnOk result (length dirty.new ≡ dats) }
    ensures bits { OnOk result ((d : ℕ) → d < dats
        → slice_index_or dirty.new d false ≡ (item_modifies (bound_of bound.now) item d
        || (slice_index_or dirty.old d false && not (item_needs (bound_of bound.now) item d)))) }
{
    let exchange = exchange_at(alloc, bound, item, dirty, dats)?;
    let pairs = messages(alloc, &bound.mesh, halos, receivers, &exchange)?;
    Ok(ItemPlan { exchange, pairs })
}

/// The plan of each item: the dats that it exchanges, and its messages.
pub fn item_plans(alloc: Global, bound: &Bound, halos: &Halos) -> Result<Vec<ItemPlan>, OutOfMemory>
    requires range { IsInRange (bound_of bound.now) }
    requires exports { HaveExports (bound_of bound.now).mesh halos.now }
    ensures count { IfOk result (λ v. length v.items ≡ length (bound_of bound.now).trace) }
    ensures plans { IfOk result (λ v. AreItemPlans (bound_of bound.now) halos.now (length (bound_of bound.now).trace) v.items) }
{
    let dats = bound.mesh.dat_count();
    let receivers = all_receivers(alloc, &bound.mesh, halos)?;
    let mut dirty = Dirty::new(alloc, dats)?;
    let mut plans = Vec::new(alloc);
    for item in 0..bound.trace.len() {
        plans.push(plan_item(alloc, bound, halos, &receivers, item, &mut dirty, dats)?)?;
    }
    Ok(plans)
}
