// The pairs that ranks need of others, as lists of elements.

ghost use Rattle.std.specs.Prelude.{◌≡◌, ◌<◌, ◌&&◌, not, nat_eq, ℕ, IfOk, length};
ghost use Rattle.lemmas.specs.Below.{listed, row, rows};
ghost use Rattle.local_mesh.specs.RankSet.{has, has_at};
ghost use Rattle.mesh_decl.specs.Mesh.{dat_count, dat_set, set_size};
ghost use Rattle.mesh_decl.specs.Owners.{AreOwners};
ghost use Rattle.bound_program.specs.Values.{bound_of};
ghost use Rattle.chain_model.specs.Slices.{owns_pair};
ghost use Rattle.chain_needs.specs.PairSets.{ArePairSets, pairs_of};
ghost use Rattle.chain_needs.specs.Levels.{AreBelow};

use crate::ranks_at;
use bound_program::Bound;
use local_mesh::rank_sets::{RankSet, places_by_rank};
use mesh_decl::Owners;
use op_num::OutOfMemory;
use std::alloc::Global;

// The ranks of a set but one.
fn other_ranks(ranks: RankSet, owner: u32) -> RankSet
    requires { owner < 64 }
    ensures { (r : ℕ) → r < 64 → has result r ≡ (has ranks r && not (nat_eq r owner)) }
{
    ranks.minus(RankSet::empty().with(owner))
}

/// By element, the ranks that need the pair of a dat and don't own it.
///
/// # Errors
/// Want of memory alone.
pub fn others_of(
    alloc: Global,
    bound: &Bound,
    owners: &Owners,
    needed: &[Vec<RankSet>],
    dat: u32,
) -> Result<Vec<RankSet>, OutOfMemory>
    requires owners { AreOwners (bound_of bound.now).mesh owners.now }
    requires needed { ArePairSets (bound_of bound.now).mesh needed.now }
    requires dat { dat < dat_count (bound_of bound.now).mesh }
    ensures length { IfOk result (λ v. length v.items ≡ set_size (bound_of bound.now).mesh (dat_set (bound_of bound.now).mesh dat)) }
    ensures has { IfOk result (λ v. (y r : ℕ) → y < set_size (bound_of bound.now).mesh (dat_set (bound_of bound.now).mesh dat) → r < 64
        → has_at v.items y r ≡ (pairs_of needed.now r dat y && not (owns_pair (bound_of bound.now) owners.now r dat y))) }
{
    bound.mesh.is_in_range();
    let (set, _) = bound.mesh.dat_shape(dat);
    let mut sets = Vec::new(alloc);
    for element in 0..bound.mesh.set_size(set) {
        let ranks = ranks_at(needed, dat, element);
        sets.push(other_ranks(ranks, owners.rank_of(set, element)))?;
    }
    Ok(sets)
}

/// By dat and rank, the elements of pairs that the rank needs and doesn't own, in increasing order.
///
/// # Errors
/// Want of memory alone.
pub fn copies_of(
    alloc: Global,
    bound: &Bound,
    owners: &Owners,
    needed: &[Vec<RankSet>],
) -> Result<Vec<Vec<Vec<u32>>>, OutOfMemory>
    requires owners { AreOwners (bound_of bound.now).mesh owners.now }
    requires needed { ArePairSets (bound_of bound.now).mesh needed.now }
    requires below { AreBelow owners.now.ranks needed.now }
    ensures dats { IfOk result (λ v. length v.items ≡ dat_count (bound_of bound.now).mesh) }
    ensures ranks { IfOk result (λ v. (d : ℕ) → d < dat_count (bound_of bound.now).mesh → length (rows v.items d) ≡ owners.now.ranks) }
    ensures copies { IfOk result (λ v. (d r : ℕ) → d < dat_count (bound_of bound.now).mesh → r < owners.now.ranks
        → row (rows v.items d) r ≡ listed (set_size (bound_of bound.now).mesh (dat_set (bound_of bound.now).mesh d))
        (λ y. pairs_of needed.now r d y && not (owns_pair (bound_of bound.now) owners.now r d y))) }
{
    bound.mesh.is_in_range();
    let mut all = Vec::new(alloc);
    for dat in 0..bound.mesh.dat_count() {
        let others = others_of(alloc, bound, owners, needed, dat)?;
        all.push(places_by_rank(alloc, &others, owners.ranks)?)?;
    }
    Ok(all)
}
