// The ranks that execute an element.
ghost use Rattle.std.specs.Prelude.{◌≡◌, ℕ, Bool, false, true, ◌<◌, ◌≤◌, ◌↔◌, ◌&&◌, ◌||◌, not, nat_eq, IsTrue, IsSome, IfSome, IfNone};
ghost use Rattle.std.specs.Prelude.{IfOk, length, slice_index};
ghost use Rattle.lemmas.specs.Below.{any_below};
ghost use Rattle.mesh_decl.specs.Mesh.{map_count, set_count, set_size, map_from, map_to, map_dim, target, IsInRange};
ghost use Rattle.mesh_decl.specs.Owners.{AreOwners};
ghost use Rattle.local_mesh.specs.RankSet.{has, has_at};
ghost use Rattle.local_mesh.specs.Halo.{reaches_by, executes};

use crate::rank_sets::RankSet;
use mesh_decl::{Mesh, Owners};
use op_num::OutOfMemory;
use std::alloc::Global;

/// The owners of an element's targets by one map.
fn owners_by(mesh: &Mesh, owners: &Owners, map: u32, element: u32) -> RankSet
    requires mesh { IsInRange mesh.now }
    requires owners { AreOwners mesh.now owners.now }
    requires map { map < map_count mesh.now }
    requires element { element < set_size mesh.now (map_from mesh.now map) }
    ensures { (r : ℕ) → has result r ≡ reaches_by mesh.now owners.now map element r }
{
    let (_, to, dim) = mesh.map_ends(map);
    let mut ranks = RankSet::empty();
    for place in 0..dim {
        let target = mesh.target(map, element, place);
        ranks = ranks.with(owners.rank_of(to, target));
    }
    ranks
}

/// Adds the owners of the targets by one map to the sets of a map's from set.
fn reach_by(sets: &mut [RankSet], mesh: &Mesh, owners: &Owners, map: u32)
    requires mesh { IsInRange mesh.now }
    requires owners { AreOwners mesh.now owners.now }
    requires map { map < map_count mesh.now }
    requires length { length sets.old ≡ set_size mesh.now (map_from mesh.now map) }
    ensures { (x r : ℕ) → x < set_size mesh.now (map_from mesh.now map)
        → has_at sets.new x r ≡ (has_at sets.old x r || reaches_by mesh.now owners.now map x r) }
{
    let (from, _, _) = mesh.map_ends(map);
    for element in 0..mesh.set_size(from) {
        let reached = owners_by(mesh, owners, map, element);
        let at = element as usize;
        sets[at] = sets[at].union(reached);
    }
}

// For each element the set of its owner alone.
fn owner_sets(alloc: Global, owners: &[u32]) -> Result<Vec<RankSet>, OutOfMemory>
    requires { (x : ℕ) → x < length owners.now → slice_index owners.now x < 64 }
    ensures length { IfOk result (λ v. length v.items ≡ length owners.now) }
    ensures has { IfOk result (λ v. (x r : ℕ) → x < length owners.now → has_at v.items x r ≡ nat_eq (slice_index owners.now x) r) }
{
    let mut sets = Vec::with_capacity(alloc, owners.len())?;
    for owner in owners {
        sets.push(RankSet::empty().with(*owner))?;
    }
    Ok(sets)
}

/// The ranks that execute each element of a set: its owner, and the owners of its targets.
pub fn executing_all(
    alloc: Global,
    mesh: &Mesh,
    owners: &Owners,
    set: u32,
) -> Result<Vec<RankSet>, OutOfMemory>
    requires mesh { IsInRange mesh.now }
    requires owners { AreOwners mesh.now owners.now }
    requires set { set < set_count mesh.now }
    ensures length { IfOk result (λ v. length v.items ≡ set_size mesh.now set) }
    ensures has { IfOk result (λ v. (x r : ℕ) → x < set_size mesh.now set → has_at v.items x r ≡ executes mesh.now owners.now set x r) }
{
    let mut sets = owner_sets(alloc, owners.of_set(set))?;
    for map in 0..mesh.map_count() {
        let (from, _, _) = mesh.map_ends(map);
        if from == set {
            reach_by(&mut sets, mesh, owners, map);
        }
    }
    Ok(sets)
}
