// The number of each element of a set.
ghost use Rattle.std.specs.Prelude.{◌≡◌, ◌<◌, OnOk, IfOk, IfErr};
ghost use Rattle.mesh_decl.specs.Mesh.{set_count};
ghost use Rattle.bound_program.specs.Values.{bound_of};
ghost use Rattle.bound_program.specs.Fits.{site_at};
ghost use Rattle.cell_numbers.specs.Shown.{AreNumbers, IsFreeRun, IsNoLoop, IsUnshown};

use crate::blocks::{block_colours, runs_free};
use crate::owned::parts_of;
use crate::types::{Shown, ShownRefusal};
use bound_program::Bound;
use loop_plan::planned_program::Planned;
use std::alloc::Global;

// Whether a loop runs over a set as a Free one.
fn judge_loop(bound: &Bound, site: u32, set: u32) -> Result<(), ShownRefusal>
    ensures runs { OnOk result (IsFreeRun (bound_of bound.now) site) }
    ensures over { OnOk result ((site_at (bound_of bound.now) site).set ≡ set) }
    ensures err { IfErr result (IsNoLoop (bound_of bound.now) site set) }
{
    if site as usize >= bound.sites.len() || !runs_free(bound, site) {
        return Err(ShownRefusal::NoLoop);
    }
    if bound.sites[site as usize].set != set {
        return Err(ShownRefusal::OtherSet);
    }
    Ok(())
}

/// By element of a set, its number of what is shown of a planned program.
///
/// # Errors
/// The first cause of [`ShownRefusal`] that is so; `OutOfMemory` where memory runs out.
pub fn numbers_of(
    alloc: Global,
    planned: &Planned<'_>,
    set: u32,
    shown: Shown,
) -> Result<Vec<u32>, ShownRefusal>
    requires set { set < set_count (bound_of planned.now.bound).mesh }
    ensures ok { IfOk result (λ v. AreNumbers (bound_of planned.now.bound) planned.now.distribution planned.now.plan
        shown set v.items) }
    ensures err { IfErr result (IsUnshown (bound_of planned.now.bound) planned.now.distribution shown set) }
{
    let (bound, found) = (planned.bound, &planned.distribution);
    match shown {
        Shown::Owners => Ok(Vec::from_slice(alloc, found.owners.of_set(set))?),
        Shown::Halos { rank } => {
            if rank >= found.owners.ranks {
                return Err(ShownRefusal::NoRank);
            }
            Ok(parts_of(alloc, &bound.mesh, &found.owners, &found.halos, set, rank)?)
        }
        Shown::Colours { site } => {
            judge_loop(bound, site, set)?;
            Ok(block_colours(alloc, bound, found, &planned.plan, site)?)
        }
    }
}
