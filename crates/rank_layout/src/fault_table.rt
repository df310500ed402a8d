// Which loops have a kernel whose faults come before its stores.

ghost use Rattle.std.specs.Prelude.{◌≡◌, ℕ, ◌<◌, IfOk, false, length, map, get_or};
ghost use Rattle.bound_program.specs.Values.{bound_of, site_of};
ghost use Rattle.bound_program.specs.Fits.{Fits, SiteFits, site_at};
ghost use Rattle.run_model.specs.Arguments.{arg_width};
ghost use Rattle.rank_layout.specs.Made.{FaultsFirst};

use crate::windows::{MAX_ARGS, width_of};
use bound_program::{Bound, Site};
use kernel_model::fault_order::faults_first;
use op_num::OutOfMemory;
use std::alloc::Global;

// By argument, how many cells its window has.
fn put_counts(bound: &Bound, site: &Site, counts: &mut [u32])
    requires site { SiteFits (bound_of bound.now) (site_of site.now) }
    requires count { length counts.old ≡ length site.now.args.items }
    ensures { counts.new ≡ map (arg_width (bound_of bound.now)) site.now.args.items }
{
    for (i, arg) in site.args.iter().enumerate() {
        counts[i] = width_of(bound, *arg) as u32;
    }
}

// Whether the faults of a loop's kernel come before its stores.
fn site_faults_first(bound: &Bound, site: &Site) -> bool
    requires { SiteFits (bound_of bound.now) (site_of site.now) }
    ensures { FaultsFirst (bound_of bound.now) (site_of site.now) result }
{
    let mut room = [0; MAX_ARGS];
    let counts = &mut room[..site.args.len()];
    put_counts(bound, site, counts);
    faults_first(&bound.kernels[site.kernel as usize], counts)
}

/// By loop, whether the faults of its kernel come before its stores, over the windows of the loop's arguments.
///
/// # Errors
/// Want of memory alone.
pub fn loop_faults_first(alloc: Global, bound: &Bound) -> Result<Vec<bool>, OutOfMemory>
    requires fits { Fits (bound_of bound.now) }
    ensures count { IfOk result (λ v. length v.items ≡ length (bound_of bound.now).sites) }
    ensures first { IfOk result (λ v. (s : ℕ) → s < length (bound_of bound.now).sites
        → FaultsFirst (bound_of bound.now) (site_at (bound_of bound.now) s) (get_or v.items s false)) }
{
    let mut first = Vec::with_capacity(alloc, bound.sites.len())?;
    for site in &bound.sites {
        first.push(site_faults_first(bound, site))?;
    }
    Ok(first)
}
