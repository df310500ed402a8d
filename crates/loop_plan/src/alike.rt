// Which loops have the same plan.
ghost use Rattle.std.specs.Prelude.{◌≡◌, ◌<◌, true, IfOk, IfSome, length, slice_index_or};
ghost use Rattle.bound_program.specs.Values.{bound_of};
ghost use Rattle.bound_program.specs.Fits.{Fits};
ghost use Rattle.loop_plan.specs.Alike.{IsKey};
ghost use Rattle.loop_plan.specs.SameKeys.{AreSameKeys};
ghost use Rattle.loop_plan.specs.declared.alike.PlanKey.{PlanKey as KeyValue};
ghost use Rattle.bound_program.specs.Fits.{site_at};

use crate::exchange::args_of;
use crate::needs::is_scattering;
use crate::sites::reducing_args;
use bound_program::Bound;
use colouring::IncArg;
use op_num::OutOfMemory;
use std::alloc::Global;

/// What a loop's plan is made from, beside the ranks: its set, whether it scatters, and the arguments by which its
/// places have their colours.
#[derive(Drop)]
pub struct PlanKey {
    set: u32,
    scattering: bool,
    merged: Vec<IncArg>,
}

// As many plans as are looked through for one that a loop can share.
const LOOKED_AT: usize = 64;

/// What the plan of a loop is made from.
pub fn plan_key(alloc: Global, bound: &Bound, site: u32) -> Result<PlanKey, OutOfMemory>
    requires { site < length (bound_of bound.now).sites }
    ensures { IfOk result (IsKey (bound_of bound.now) site) }
{
    let merged = reducing_args(alloc, args_of(bound, site))?;
    Ok(PlanKey {
        set: bound.sites[site as usize].set,
        scattering: is_scattering(args_of(bound, site)),
        merged,
    })
}

// Whether these are the same arguments in the same order.
fn are_same_args(some: &[IncArg], others: &[IncArg]) -> bool
    ensures { result ≡ true → some.now ≡ others.now }
{
    if some.len() != others.len() {
        return false;
    }
    for k in 0..some.len() {
        if some[k] != others[k] {
            return false;
        }
    }
    true
}

// Whether plans that are made from these are the same.
fn are_same_keys(some: &PlanKey, other: &PlanKey) -> bool
    ensures { result ≡ true → AreSameKeys some.now other.now }
{
    some.set == other.set
        && some.scattering == other.scattering
        && are_same_args(&some.merged, &other.merged)
}

/// The place, among the last 64 keys, of one that is the same as `key`.
pub fn same_key(keys: &[PlanKey], key: &PlanKey) -> Option<usize>
    ensures within { IfSome result (λ k. k < length keys.now) }
    ensures same { IfSome result (λ k. (d : KeyValue) → AreSameKeys (slice_index_or keys.now k d) key.now) }
{
    for place in keys.len().saturating_sub(LOOKED_AT)..keys.len() {
        if are_same_keys(&keys[place], key) {
            return Some(place);
        }
    }
    None
}
