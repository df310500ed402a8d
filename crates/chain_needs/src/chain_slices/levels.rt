// What ranks need before each loop of a chain, and which of its elements they execute.

ghost use Rattle.std.specs.Prelude.{◌≡◌, ◌<◌, ℕ, List, Vec, IfOk, All, length, map, slice_index};
ghost use Rattle.std.specs.declared.alloc.Global.{Global as Memory};
ghost use Rattle.local_mesh.specs.declared.rank_sets.rank_set.RankSet.{RankSet as Set};
ghost use Rattle.mesh_decl.specs.Owners.{AreOwners};
ghost use Rattle.bound_program.specs.Values.{SiteValue, bound_of};
ghost use Rattle.bound_program.specs.Fits.{SiteFits, site_at};
ghost use Rattle.chain_needs.specs.PairSets.{ArePairSets};
ghost use Rattle.chain_needs.specs.Needed.{AreNeeded};
ghost use Rattle.chain_needs.specs.Levels.{AreBelow, IsLevel, AreLevels, front_of};

use crate::chain_slices::copies::copy_sets;
use crate::{executing_all, own_sets, read_dats};
use bound_program::Bound;
use local_mesh::rank_sets::{RankSet, places_by_rank};
use mesh_decl::Owners;
use op_num::OutOfMemory;
use std::alloc::Global;

/// A loop of a chain.
#[derive(Drop)]
pub struct Level {
    /// By dat and element, the ranks that need the pair before the loop.
    pub needed: Vec<Vec<RankSet>>,
    /// By element of the loop's set, the ranks that execute it.
    pub executing: Vec<RankSet>,
    /// By rank, the elements that it executes, in increasing order.
    pub elements: Vec<Vec<u32>>,
}

// The level of a loop behind which ranks need these pairs.
fn before_loop(
    alloc: Global,
    bound: &Bound,
    owners: &Owners,
    needed: &[Vec<RankSet>],
    site: u32,
) -> Result<Level, OutOfMemory>
    requires owners { AreOwners (bound_of bound.now).mesh owners.now }
    requires needed { ArePairSets (bound_of bound.now).mesh needed.now }
    requires below { AreBelow owners.now.ranks needed.now }
    requires site { site < length (bound_of bound.now).sites }
    requires fits { SiteFits (bound_of bound.now) (site_at (bound_of bound.now) site) }
    ensures is { IfOk result (λ l. (sites : List SiteValue) → AreNeeded (bound_of bound.now) owners.now sites needed.now
        → IsLevel (bound_of bound.now) owners.now (site_at (bound_of bound.now) site) sites l) }
    ensures below { IfOk result (λ l. AreBelow owners.now.ranks l.needed.items) }
{
    bound.mesh.is_in_range();
    let executing = executing_all(alloc, bound, owners, needed, site)?;
    let elements = places_by_rank(alloc, &executing, owners.ranks)?;
    let mut before = copy_sets(alloc, needed)?;
    read_dats(&mut before, bound, site, &executing);
    Ok(Level {
        needed: before,
        executing,
        elements,
    })
}

/// What is needed before the loops that have levels, of which the last is the first loop's; before none, the owners'
/// pairs.
pub fn front<'a>(own: &'a [Vec<RankSet>], levels: &'a [Level]) -> &'a [Vec<RankSet>]
    ensures { result.now ≡ front_of own.now levels.now }
{
    if levels.is_empty() {
        own
    } else {
        &levels[levels.len() - 1].needed
    }
}

/// The levels of the loops of a chain, the last loop's first.
///
/// # Errors
/// Want of memory alone.
pub fn levels_of(
    alloc: Global,
    bound: &Bound,
    owners: &Owners,
    sites: &[u32],
) -> Result<Vec<Level>, OutOfMemory>
    requires owners { AreOwners (bound_of bound.now).mesh owners.now }
    requires sites { (k : ℕ) → k < length sites.now → slice_index sites.now k < length (bound_of bound.now).sites }
    requires fits { All (SiteFits (bound_of bound.now)) (bound_of bound.now).sites }
    ensures are { IfOk result (λ v. AreLevels (bound_of bound.now) owners.now (map (site_at (bound_of bound.now)) sites.now) v.items) }
    ensures front { IfOk result (λ v. (own : List (Vec Set Memory)) → 0 < length v.items
        → AreNeeded (bound_of bound.now) owners.now (map (site_at (bound_of bound.now)) sites.now) (front_of own v.items)) }
    ensures below { IfOk result (λ v. (own : List (Vec Set Memory))
        → 0 < length v.items → AreBelow owners.now.ranks (front_of own v.items)) }
{
    bound.mesh.is_in_range();
    let own = own_sets(alloc, bound, owners)?;
    let mut levels = Vec::new(alloc);
    let count = sites.len();
    for done in 0..count {
        let site = sites[count - 1 - done];
        let next = before_loop(alloc, bound, owners, front(&own, &levels), site)?;
        levels.push(next)?;
    }
    Ok(levels)
}
