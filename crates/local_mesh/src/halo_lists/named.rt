// The ranks that name an element as a target.
ghost use Rattle.std.specs.Prelude.{◌≡◌, ℕ, Bool, false, true, ◌<◌, ◌≤◌, ◌↔◌, ◌&&◌, ◌||◌, not, nat_eq, IsTrue, IsSome, IfSome, IfNone};
ghost use Rattle.std.specs.Prelude.{IfOk, length};
ghost use Rattle.lemmas.specs.Below.{any_below};
ghost use Rattle.mesh_decl.specs.Mesh.{map_count, set_count, set_size, map_from, map_to, map_dim, target, IsInRange};
ghost use Rattle.local_mesh.specs.RankSet.{has, has_at};
ghost use Rattle.local_mesh.specs.Halo.{named_by, named_from};
ghost use Rattle.local_mesh.specs.Sets.{AreSets, has_in};

use crate::rank_sets::RankSet;
use mesh_decl::Mesh;
use op_num::OutOfMemory;
use std::alloc::Global;

/// Adds ranks to each target of an element by one map.
fn name_targets(sets: &mut [RankSet], mesh: &Mesh, map: u32, element: u32, ranks: RankSet)
    requires mesh { IsInRange mesh.now }
    requires map { map < map_count mesh.now }
    requires element { element < set_size mesh.now (map_from mesh.now map) }
    requires length { length sets.old ≡ set_size mesh.now (map_to mesh.now map) }
    ensures { (y r : ℕ) → has_at sets.new y r
        ≡ (has_at sets.old y r || (has ranks r && any_below (map_dim mesh.now map) (λ i. nat_eq (target mesh.now map element i) y))) }
{
    let (_, _, dim) = mesh.map_ends(map);
    for place in 0..dim {
        let target = mesh.target(map, element, place) as usize;
        sets[target] = sets[target].union(ranks);
    }
}

/// Adds the ranks of each element of a map's from set to the element's targets.
fn name_by(sets: &mut [RankSet], mesh: &Mesh, map: u32, ranks: &[RankSet])
    requires mesh { IsInRange mesh.now }
    requires map { map < map_count mesh.now }
    requires ranks { length ranks.now ≡ set_size mesh.now (map_from mesh.now map) }
    requires length { length sets.old ≡ set_size mesh.now (map_to mesh.now map) }
    ensures { (y r : ℕ) → has_at sets.new y r ≡ (has_at sets.old y r || named_by mesh.now (has_at ranks.now) map y r) }
{
    let (from, _, _) = mesh.map_ends(map);
    for element in 0..mesh.set_size(from) {
        name_targets(sets, mesh, map, element, ranks[element as usize]);
    }
}

/// For each element of a set, the ranks of the elements that have it as a target.
#[tactic(auto, unfolding(crate::specs::Halo::named_from))]
pub fn naming_all(
    alloc: Global,
    mesh: &Mesh,
    ranks: &[Vec<RankSet>],
    set: u32,
) -> Result<Vec<RankSet>, OutOfMemory>
    requires mesh { IsInRange mesh.now }
    requires set { set < set_count mesh.now }
    requires ranks { AreSets mesh.now ranks.now }
    ensures length { IfOk result (λ v. length v.items ≡ set_size mesh.now set) }
    ensures has { IfOk result (λ v. (y r : ℕ) → has_at v.items y r ≡ named_from mesh.now (has_in ranks.now) set y r) }
{
    let mut sets = vec![in alloc; RankSet::empty(); mesh.set_size(set) as usize]?;
    for map in 0..mesh.map_count() {
        let (from, to, _) = mesh.map_ends(map);
        if to == set {
            name_by(&mut sets, mesh, map, &ranks[from as usize]);
        }
    }
    Ok(sets)
}
