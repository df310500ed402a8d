// The loops of chains, and what ranks need before an item.

ghost use Rattle.std.specs.Prelude.{◌≡◌, ◌<◌, ◌≤◌, ℕ, Some, IfOk, length, map, slice_index};
ghost use Rattle.local_mesh.specs.RankSet.{has_at};
ghost use Rattle.run_model.specs.Laws.{site_of};
ghost use Rattle.mesh_decl.specs.Mesh.{dat_count, dat_set, set_size};
ghost use Rattle.mesh_decl.specs.Owners.{AreOwners};
ghost use Rattle.bound_program.specs.Values.{bound_of, item_of};
ghost use Rattle.bound_program.specs.Fits.{Fits, site_at};
ghost use Rattle.run_model.specs.Programs.{item_at};
ghost use Rattle.chain_model.specs.Slices.{loops_from, needs, executes};
ghost use Rattle.chain_needs.specs.PairSets.{ArePairSets, pairs_of};
ghost use Rattle.chain_needs.specs.FreeSites.{free_site_of};

use crate::executing::executing_all;
use crate::needing::needed_before;
use bound_program::{Bound, Item};
use local_mesh::rank_sets::RankSet;
use mesh_decl::Owners;
use op_num::OutOfMemory;
use std::alloc::Global;

// The number of the loop of an item, where it is Free.
fn free_site_in(item: &Item) -> Option<u32>
    ensures { result ≡ free_site_of (item_of item.now) }
{
    match item {
        Item::Free { site } => Some(*site),
        Item::Reduce { .. } => None,
        Item::Ordered { .. } => None,
        Item::Host { .. } => None,
    }
}

/// The number of the loop of the item of this number, where it is Free.
pub fn free_site(bound: &Bound, item: usize) -> Option<u32>
    requires { item < length (bound_of bound.now).trace }
    ensures { result ≡ free_site_of (item_at (bound_of bound.now) item) }
{
    free_site_in(&bound.trace[item])
}

/// The loops of a chain from an item on, by number; none where the item isn't Free.
pub fn chain_sites(alloc: Global, bound: &Bound, item: usize) -> Result<Vec<u32>, OutOfMemory>
    requires fits { Fits (bound_of bound.now) }
    requires item { item ≤ length (bound_of bound.now).trace }
    ensures loops { IfOk result (λ v. map (site_at (bound_of bound.now)) v.items ≡ loops_from (bound_of bound.now) item) }
    ensures there { IfOk result (λ v. (i : ℕ) → i < length v.items → slice_index v.items i < length (bound_of bound.now).sites) }
{
    run_model::items_are_there();
    let mut sites = Vec::new(alloc);
    for k in item..bound.trace.len() {
        match free_site(bound, k) {
            Some(site) => sites.push(site)?,
            None => return Ok(sites),
        }
    }
    Ok(sites)
}

/// The ranks that need each pair before an item.
pub fn needed_at(
    alloc: Global,
    bound: &Bound,
    owners: &Owners,
    item: usize,
) -> Result<Vec<Vec<RankSet>>, OutOfMemory>
    requires fits { Fits (bound_of bound.now) }
    requires owners { AreOwners (bound_of bound.now).mesh owners.now }
    requires item { item ≤ length (bound_of bound.now).trace }
    ensures pairs { IfOk result (λ v. ArePairSets (bound_of bound.now).mesh v.items) }
    ensures has { IfOk result (λ v. (d y r : ℕ) → d < dat_count (bound_of bound.now).mesh
        → y < set_size (bound_of bound.now).mesh (dat_set (bound_of bound.now).mesh d)
        → pairs_of v.items r d y ≡ needs (bound_of bound.now) owners.now item r d y) }
{
    let sites = chain_sites(alloc, bound, item)?;
    let needs = needed_before(alloc, bound, owners, &sites)?;
    Ok(needs)
}

/// The ranks that execute each element of an item's loop, which is Free.
pub fn executed_at(
    alloc: Global,
    bound: &Bound,
    owners: &Owners,
    item: usize,
    site: u32,
) -> Result<Vec<RankSet>, OutOfMemory>
    requires fits { Fits (bound_of bound.now) }
    requires owners { AreOwners (bound_of bound.now).mesh owners.now }
    requires item { item < length (bound_of bound.now).trace }
    requires site { free_site_of (item_at (bound_of bound.now) item) ≡ Some site }
    ensures length { IfOk result (λ v. length v.items ≡ set_size (bound_of bound.now).mesh (site_of (bound_of bound.now) item).set) }
    ensures has { IfOk result (λ v. (e r : ℕ) → e < set_size (bound_of bound.now).mesh (site_of (bound_of bound.now) item).set
        → has_at v.items e r ≡ executes (bound_of bound.now) owners.now item r e) }
{
    run_model::items_are_there();
    bound.mesh.is_in_range();
    let needs = needed_at(alloc, bound, owners, item + 1)?;
    let executing = executing_all(alloc, bound, owners, &needs, site)?;
    Ok(executing)
}
