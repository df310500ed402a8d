// Messages, counted.

ghost use Rattle.std.specs.Prelude.{◌≡◌, ◌<◌, ◌≤◌, ◌&&◌, ◌||◌, not, false, ℕ, List, IfOk, length, nat_eq};
ghost use Rattle.lemmas.specs.Below.{any_below, count_below};
ghost use Rattle.local_mesh.specs.RankSet.{has, has_at};
ghost use Rattle.mesh_decl.specs.Mesh.{dat_count, dat_set, set_size};
ghost use Rattle.mesh_decl.specs.Owners.{AreOwners};
ghost use Rattle.bound_program.specs.Values.{SiteValue, bound_of};
ghost use Rattle.chain_model.specs.Slices.{owns_pair};
ghost use Rattle.chain_model.specs.Counts.{some_pair, sum_below};
ghost use Rattle.chain_needs.specs.PairSets.{ArePairSets, pairs_of};
ghost use Rattle.chain_needs.specs.Needed.{AreNeeded};
ghost use Rattle.chain_needs.specs.Shapes.{chain_messages};

use crate::chain_slices::lists::others_of;
use bound_program::Bound;
use local_mesh::rank_sets::RankSet;
use mesh_decl::Owners;
use op_num::OutOfMemory;
use std::alloc::Global;

/// Whether a set has a rank.
pub fn contains(set: RankSet, rank: u32) -> bool
    requires { rank < 64 }
    ensures { result ≡ has set rank }
{
    RankSet::empty().with(rank).minus(set).is_empty()
}

// How many of so many ranks a set has.
fn count_in(set: RankSet, ranks: u32) -> u64
    requires { ranks ≤ 64 }
    ensures few { result ≤ ranks }
    ensures is { result ≡ count_below ranks (has set) }
{
    let mut count = 0;
    for rank in 0..ranks {
        if contains(set, rank) {
            count += 1;
        }
    }
    count
}

// Adds ranks to the set at a place.
fn add_at(sets: &mut [RankSet], place: u32, ranks: RankSet)
    requires { place < length sets.old }
    ensures { (s r : ℕ) → has_at sets.new s r ≡ (has_at sets.old s r || (has ranks r && nat_eq place s)) }
{
    sets[place as usize] = sets[place as usize].union(ranks);
}

/// The ranks of an element.
#[tactic(auto, unfolding(local_mesh::specs::RankSet::has_at))]
pub fn ranks_of(sets: &[RankSet], element: u32) -> RankSet
    requires { element < length sets.now }
    ensures { (r : ℕ) → has result r ≡ has_at sets.now element r }
{
    sets[element as usize]
}

// Adds, to the set of the owner of each pair of a dat, the others that need it.
fn add_dat(to: &mut [RankSet], bound: &Bound, owners: &Owners, dat: u32, others: &[RankSet])
    requires owners { AreOwners (bound_of bound.now).mesh owners.now }
    requires dat { dat < dat_count (bound_of bound.now).mesh }
    requires to { length to.old ≡ owners.now.ranks }
    requires others { length others.now ≡ set_size (bound_of bound.now).mesh (dat_set (bound_of bound.now).mesh dat) }
    ensures { (s r : ℕ) → has_at to.new s r
        ≡ (has_at to.old s r
        || any_below (length others.now) (λ y. has_at others.now y r && owns_pair (bound_of bound.now) owners.now s dat y)) }
{
    bound.mesh.is_in_range();
    let (set, _) = bound.mesh.dat_shape(dat);
    for element in 0..bound.mesh.set_size(set) {
        let ranks = ranks_of(others, element);
        add_at(to, owners.rank_of(set, element), ranks);
    }
}

// Empty sets, as many as told.
fn empty_sets(alloc: Global, count: u32) -> Result<Vec<RankSet>, OutOfMemory>
    ensures length { IfOk result (λ v. length v.items ≡ count) }
    ensures empty { IfOk result (λ v. (s r : ℕ) → has_at v.items s r ≡ false) }
{
    let mut sets = Vec::new(alloc);
    for _rank in 0..count {
        sets.push(RankSet::empty())?;
    }
    Ok(sets)
}

// By rank, those that need a pair which it owns and they don't.
fn receivers(
    alloc: Global,
    bound: &Bound,
    owners: &Owners,
    needed: &[Vec<RankSet>],
) -> Result<Vec<RankSet>, OutOfMemory>
    requires owners { AreOwners (bound_of bound.now).mesh owners.now }
    requires needed { ArePairSets (bound_of bound.now).mesh needed.now }
    ensures length { IfOk result (λ v. length v.items ≡ owners.now.ranks) }
    ensures has { IfOk result (λ v. (s r : ℕ) → r < 64 → has_at v.items s r ≡ some_pair (bound_of bound.now) (λ d y.
        (pairs_of needed.now r d y && not (owns_pair (bound_of bound.now) owners.now r d y))
        && owns_pair (bound_of bound.now) owners.now s d y)) }
{
    let mut to = empty_sets(alloc, owners.ranks)?;
    for dat in 0..bound.mesh.dat_count() {
        let others = others_of(alloc, bound, owners, needed, dat)?;
        add_dat(&mut to, bound, owners, dat, &others);
    }
    Ok(to)
}

/// How many messages there are before loops before which these pairs are needed.
///
/// # Errors
/// Want of memory alone.
pub fn messages_of(
    alloc: Global,
    bound: &Bound,
    owners: &Owners,
    needed: &[Vec<RankSet>],
) -> Result<u64, OutOfMemory>
    requires owners { AreOwners (bound_of bound.now).mesh owners.now }
    requires needed { ArePairSets (bound_of bound.now).mesh needed.now }
    ensures is { IfOk result (λ n. (sites : List SiteValue) → AreNeeded (bound_of bound.now) owners.now sites needed.now
        → n ≡ chain_messages (bound_of bound.now) owners.now sites) }
    ensures few { IfOk result (λ n. n ≤ 4096) }
{
    let to = receivers(alloc, bound, owners, needed)?;
    let mut count = 0;
    for rank in 0..owners.ranks {
        count += count_in(ranks_of(&to, rank), owners.ranks);
    }
    Ok(count)
}
