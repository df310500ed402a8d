// The ranks that execute the elements of a loop.

ghost use Rattle.std.specs.Prelude.{◌≡◌, ◌<◌, ◌||◌, nat_eq, ℕ, IfOk, All, length};
ghost use Rattle.std.specs.List.{list_any};
ghost use Rattle.mesh_decl.specs.Mesh.{set_count, set_size};
ghost use Rattle.mesh_decl.specs.Owners.{AreOwners, owner_of};
ghost use Rattle.local_mesh.specs.RankSet.{has, has_at};
ghost use Rattle.bound_program.specs.Values.{bound_of};
ghost use Rattle.bound_program.specs.Fits.{SiteFits, site_at};
ghost use Rattle.chain_model.specs.Slices.{executes_for, modifies_some};
ghost use Rattle.chain_needs.specs.PairSets.{ArePairSets, ArgLeads, pairs_of};

use crate::reaching::{element_of, ranks_at};
use crate::sites::{args_of, set_of};
use bound_program::{Access, Arg, Bound, is_access};
use local_mesh::rank_sets::RankSet;
use mesh_decl::Owners;
use op_num::OutOfMemory;
use std::alloc::Global;

// The ranks of the pair that an element reaches by an argument other than OP_READ.
fn modifying(bound: &Bound, needs: &[Vec<RankSet>], arg: Arg, element: u32) -> RankSet
    requires needs { ArePairSets (bound_of bound.now).mesh needs.now }
    requires arg { ArgLeads (bound_of bound.now).mesh element arg }
    ensures { (r : ℕ) → has result r ≡ modifies_some (bound_of bound.now) (pairs_of needs.now r) element arg }
{
    match arg {
        Arg::Dat { dat, via, access } => {
            if is_access(Access::Read, access) {
                RankSet::empty()
            } else {
                ranks_at(needs, dat, element_of(bound, dat, via, element))
            }
        }
        Arg::Global { .. } => RankSet::empty(),
    }
}

// The ranks that execute an element of a loop: its owner, and those that need a pair which it modifies.
fn executing(
    bound: &Bound,
    owners: &Owners,
    needs: &[Vec<RankSet>],
    set: u32,
    args: &[Arg],
    element: u32,
) -> RankSet
    requires owners { AreOwners (bound_of bound.now).mesh owners.now }
    requires needs { ArePairSets (bound_of bound.now).mesh needs.now }
    requires set { set < set_count (bound_of bound.now).mesh }
    requires element { element < set_size (bound_of bound.now).mesh set }
    requires args { All (ArgLeads (bound_of bound.now).mesh element) args.now }
    ensures { (r : ℕ) → has result r ≡ (nat_eq (owner_of owners.now set element) r
        || list_any (modifies_some (bound_of bound.now) (pairs_of needs.now r) element) args.now) }
{
    let mut ranks = RankSet::empty().with(owners.rank_of(set, element));
    for arg in args {
        ranks = ranks.union(modifying(bound, needs, *arg, element));
    }
    ranks
}

/// The ranks that execute each element of a loop, where these ranks need these pairs behind it.
pub fn executing_all(
    alloc: Global,
    bound: &Bound,
    owners: &Owners,
    needs: &[Vec<RankSet>],
    site: u32,
) -> Result<Vec<RankSet>, OutOfMemory>
    requires owners { AreOwners (bound_of bound.now).mesh owners.now }
    requires needs { ArePairSets (bound_of bound.now).mesh needs.now }
    requires site { site < length (bound_of bound.now).sites }
    requires fits { SiteFits (bound_of bound.now) (site_at (bound_of bound.now) site) }
    ensures length { IfOk result (λ v. length v.items ≡ set_size (bound_of bound.now).mesh (site_at (bound_of bound.now) site).set) }
    ensures has { IfOk result (λ v. (x r : ℕ) → x < set_size (bound_of bound.now).mesh (site_at (bound_of bound.now) site).set
        → has_at v.items x r
        ≡ executes_for (bound_of bound.now) owners.now r (pairs_of needs.now r) (site_at (bound_of bound.now) site) x) }
{
    let set = set_of(bound, site);
    let args = args_of(bound, site);
    let mut sets = Vec::new(alloc);
    for element in 0..bound.mesh.set_size(set) {
        sets.push(executing(bound, owners, needs, set, args, element))?;
    }
    Ok(sets)
}
