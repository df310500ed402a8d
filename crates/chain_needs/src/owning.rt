// The owners of pairs, as sets of ranks.

ghost use Rattle.std.specs.Prelude.{◌≡◌, ◌<◌, ℕ, IfOk, length};
ghost use Rattle.mesh_decl.specs.Mesh.{set_size, dat_set, dat_count};
ghost use Rattle.mesh_decl.specs.Owners.{AreOwners};
ghost use Rattle.local_mesh.specs.RankSet.{has_at};
ghost use Rattle.local_mesh.specs.Sets.{has_in};
ghost use Rattle.bound_program.specs.Values.{bound_of};
ghost use Rattle.chain_model.specs.Slices.{owns_pair};
ghost use Rattle.chain_needs.specs.PairSets.{ArePairSets};

use bound_program::Bound;
use local_mesh::rank_sets::RankSet;
use mesh_decl::Owners;
use op_num::OutOfMemory;
use std::alloc::Global;

// The owner of each pair of a dat.
fn own_of(
    alloc: Global,
    bound: &Bound,
    owners: &Owners,
    dat: u32,
) -> Result<Vec<RankSet>, OutOfMemory>
    requires owners { AreOwners (bound_of bound.now).mesh owners.now }
    requires dat { dat < dat_count (bound_of bound.now).mesh }
    ensures length { IfOk result (λ v. length v.items ≡ set_size (bound_of bound.now).mesh (dat_set (bound_of bound.now).mesh dat)) }
    ensures has { IfOk result (λ v. (y r : ℕ) → y < set_size (bound_of bound.now).mesh (dat_set (bound_of bound.now).mesh dat)
        → has_at v.items y r ≡ owns_pair (bound_of bound.now) owners.now r dat y) }
{
    bound.mesh.is_in_range();
    let (set, _) = bound.mesh.dat_shape(dat);
    let mut sets = Vec::new(alloc);
    for element in 0..bound.mesh.set_size(set) {
        sets.push(RankSet::empty().with(owners.rank_of(set, element)))?;
    }
    Ok(sets)
}

/// The owner of each pair.
pub fn own_sets(
    alloc: Global,
    bound: &Bound,
    owners: &Owners,
) -> Result<Vec<Vec<RankSet>>, OutOfMemory>
    requires owners { AreOwners (bound_of bound.now).mesh owners.now }
    ensures sets { IfOk result (λ v. ArePairSets (bound_of bound.now).mesh v.items) }
    ensures has { IfOk result (λ v. (d y r : ℕ) → d < dat_count (bound_of bound.now).mesh
        → y < set_size (bound_of bound.now).mesh (dat_set (bound_of bound.now).mesh d)
        → has_in v.items d y r ≡ owns_pair (bound_of bound.now) owners.now r d y) }
{
    let mut all = Vec::new(alloc);
    for dat in 0..bound.mesh.dat_count() {
        all.push(own_of(alloc, bound, owners, dat)?)?;
    }
    Ok(all)
}
