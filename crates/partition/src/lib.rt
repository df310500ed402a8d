//! Owners of the elements of a mesh, by rule or from a text, and the distribution that they give.
#![tactic(auto)]

ghost use Rattle.std.specs.Prelude.{◌≡◌, ℕ, ◌<◌, ◌≤◌, IfOk, length, slice_index, nat_eq};
ghost use Rattle.mesh_decl.specs.Mesh.{dat_count, dat_set, dat_dim, dat_values, map_count, map_to, set_size};
ghost use Rattle.mesh_decl.specs.Owners.{owners_in, owner_of};
ghost use Rattle.renumber.specs.Neighbours.{are_neighbours};
ghost use Rattle.partition.specs.Bisect.{IsBisected};
ghost use Rattle.partition.specs.Block.{AreBlocks};
ghost use Rattle.partition.specs.Derive.{AreGiven, AreDerived, is_given, given_in};
ghost use Rattle.partition.specs.Grow.{IsGrown};

mod axis;
mod blocks;
mod derived;
pub mod distribute;
mod elect;
mod given;
mod growth;
mod halves;
mod laws;
mod next;
mod one_derivation;
pub mod part_text;
mod turns;

pub use crate::part_text::{PartRefusal, one_partition, read_partition};
use blocks::block_set;
pub use given::given_fits;
use growth::grow_set;
use halves::bisect_set;
pub use laws::{one_bisection, one_growth};
use mesh_decl::{Mesh, Numbers, Owners};
pub use one_derivation::one_derived;
use op_num::OutOfMemory;
use std::alloc::Global;
use turns::{derive_from, derive_rest, split_given};

/// Gives each set to the ranks in blocks: of n elements, rank i has those from floor(i n / ranks) up to, not including,
/// floor((i + 1) n / ranks). There are 1 to 64 ranks. It takes time linear in the elements, and fails only for want of
/// memory.
pub fn block(alloc: Global, mesh: &Mesh, ranks: u32) -> Result<Owners, OutOfMemory>
    requires some { 0 < ranks }
    requires few { ranks ≤ 64 }
    ensures { IfOk result (AreBlocks mesh.now ranks) }
{
    let mut sets = Vec::new(alloc);
    for set in 0..mesh.set_count() {
        sets.push(Numbers::new(block_set(alloc, mesh.set_size(set), ranks)?))?;
    }
    Ok(Owners { ranks, sets })
}

/// Gives owners to all sets from those of some. `given` has an entry for each set: a list with a rank below `ranks`, of
/// which there are 1 to 64, for each element, or none. The given lists stay. Until every set has owners:
///
/// 1. the first set without owners from which some map leads to a set with owners takes the first such map; each
///    element gets the rank most frequent among its targets;
/// 2. where there is no such set, the first set without owners to which some map leads from a set with owners takes the
///    first such map; each element gets the rank most frequent among the entries that name it, counted by the owners of
///    their elements; an element that isn't named gets its rank as by `block`;
/// 3. where there is neither, the first set without owners is given as by `block`.
///
/// Of ranks equally frequent the lowest is taken; sets and maps come in order of declaration. For each set that gets
/// owners it takes time and memory linear in the entries of one map and the elements of the set, and it fails only for
/// want of memory.
pub fn derive(
    alloc: Global,
    mesh: &Mesh,
    ranks: u32,
    given: Vec<Option<Vec<u32>>>,
) -> Result<Owners, OutOfMemory>
    requires some { 0 < ranks }
    requires few { ranks ≤ 64 }
    requires given { AreGiven mesh.now ranks given.items }
    ensures ranks { IfOk result (λ o. o.ranks ≡ ranks) }
    ensures derived { IfOk result (λ o. AreDerived mesh.now o (λ s. is_given given.items s) (λ s. given_in given.items s)) }
{
    let (sets, known) = split_given(alloc, given)?;
    derive_rest(alloc, mesh, ranks, sets, known)
}

/// Gives the set to which the map numbered `map` leads to the ranks by growth over its neighbours, and derives owners
/// of the other sets from it, as `derive` does. Two different elements are neighbours where one element has both as
/// targets. Each rank in turn takes as many elements as by `block`. It begins with the least element that no rank has;
/// then it takes, breadth first, the neighbours of its elements that no rank has, those of one element by number; where
/// none is left, it goes on with the least element that no rank has.
///
/// There are 1 to 64 ranks. It takes time linear in the elements and n log n in the pairs of targets of one element,
/// and fails only for want of memory.
pub fn grow(alloc: Global, mesh: &Mesh, ranks: u32, map: u32) -> Result<Owners, OutOfMemory>
    requires some { 0 < ranks }
    requires few { ranks ≤ 64 }
    requires map { map < map_count mesh.now }
    ensures ranks { IfOk result (λ o. o.ranks ≡ ranks) }
    ensures grown { IfOk result
        (λ o. IsGrown (set_size mesh.now (map_to mesh.now map)) ranks (are_neighbours mesh.now map) (owner_of o (map_to mesh.now map))) }
    ensures derived { IfOk result (λ o. AreDerived mesh.now o (λ s. nat_eq s (map_to mesh.now map)) (owners_in o)) }
{
    mesh.is_in_range();
    let (_, to, _) = mesh.map_ends(map);
    let owners = grow_set(alloc, mesh, map, ranks)?;
    derive_from(alloc, mesh, ranks, to, owners)
}

/// Gives the elements of the set of a dat to the ranks by the values of the dat, and derives the owners of the other
/// sets from these as `derive` does. `dat` is the number of a dat of the mesh. There are 1 to 64 ranks.
///
/// All elements are shared among all ranks. A list that several ranks share is cut in two: along the component with the
/// largest difference of the greatest and the least value in the list, of several the lowest, the elements are ordered
/// by (value, number); the lower half of the ranks, rounded down, shares the first of them, and the upper half the
/// others. A list of one rank is given to it. Of n elements rank i gets as many as by `block`. For the set of the dat
/// it takes time n log n, and n for each component, in each of at most 6 rounds of cuts; it fails only for want of
/// memory.
pub fn bisect(alloc: Global, mesh: &Mesh, ranks: u32, dat: u32) -> Result<Owners, OutOfMemory>
    requires some { 0 < ranks }
    requires few { ranks ≤ 64 }
    requires dat { dat < dat_count mesh.now }
    ensures ranks { IfOk result (λ o. o.ranks ≡ ranks) }
    ensures bisected { IfOk result
        (λ o. IsBisected (set_size mesh.now (dat_set mesh.now dat)) ranks (dat_values mesh.now dat) (dat_dim mesh.now dat)
        (owners_in o (dat_set mesh.now dat))) }
    ensures derived { IfOk result (λ o. AreDerived mesh.now o (λ s. nat_eq s (dat_set mesh.now dat)) (λ s. owners_in o s)) }
{
    let _dat_count = mesh.dat_count();
    let (set, dim) = mesh.dat_shape(dat);
    let owners = bisect_set(alloc, mesh.dat_values(dat), dim, mesh.set_size(set), ranks)?;
    derive_from(alloc, mesh, ranks, set, owners)
}
