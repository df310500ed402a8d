// What ranks need before the loops of a chain.

ghost use Rattle.std.specs.Prelude.{◌≡◌, ◌<◌, ◌∷◌, ℕ, List, IfOk, OnOk, All, length, map, slice_index};
ghost use Rattle.mesh_decl.specs.Owners.{AreOwners};
ghost use Rattle.bound_program.specs.Values.{SiteValue, bound_of};
ghost use Rattle.bound_program.specs.Fits.{SiteFits, site_at};
ghost use Rattle.chain_needs.specs.PairSets.{ArePairSets};
ghost use Rattle.chain_needs.specs.Needed.{AreNeeded};

use crate::executing::executing_all;
use crate::owning::own_sets;
use crate::reading::read_dats;
use bound_program::Bound;
use local_mesh::rank_sets::RankSet;
use mesh_decl::Owners;
use op_num::OutOfMemory;
use std::alloc::Global;

// From what is needed behind a loop to what is needed before it.
fn before_loop(
    alloc: Global,
    bound: &Bound,
    owners: &Owners,
    site: u32,
    needs: &mut [Vec<RankSet>],
) -> Result<(), OutOfMemory>
    requires owners { AreOwners (bound_of bound.now).mesh owners.now }
    requires needs { ArePairSets (bound_of bound.now).mesh needs.old }
    requires site { site < length (bound_of bound.now).sites }
    requires fits { SiteFits (bound_of bound.now) (site_at (bound_of bound.now) site) }
    ensures { OnOk result ((sites : List SiteValue) → AreNeeded (bound_of bound.now) owners.now sites needs.old
        → AreNeeded (bound_of bound.now) owners.now (site_at (bound_of bound.now) site ∷ sites) needs.new) }
{
    bound.mesh.is_in_range();
    let executing = executing_all(alloc, bound, owners, needs, site)?;
    read_dats(needs, bound, site, &executing);
    Ok(())
}

/// The ranks that need each pair before these loops of a chain, one after another. Its time goes by the elements and
/// the arguments of the loops, whatever the number of ranks is.
pub fn needed_before(
    alloc: Global,
    bound: &Bound,
    owners: &Owners,
    sites: &[u32],
) -> Result<Vec<Vec<RankSet>>, OutOfMemory>
    requires owners { AreOwners (bound_of bound.now).mesh owners.now }
    requires sites { (k : ℕ) → k < length sites.now → slice_index sites.now k < length (bound_of bound.now).sites }
    requires fits { All (SiteFits (bound_of bound.now)) (bound_of bound.now).sites }
    ensures { IfOk result (λ v. AreNeeded (bound_of bound.now) owners.now (map (site_at (bound_of bound.now)) sites.now) v.items) }
{
    let mut needs = own_sets(alloc, bound, owners)?;
    let count = sites.len();
    for done in 0..count {
        let site = sites[count - 1 - done];
        before_loop(alloc, bound, owners, site, &mut needs)?;
    }
    Ok(needs)
}
