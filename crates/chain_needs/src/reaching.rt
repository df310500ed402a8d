// What an element reaches by an argument, and the ranks of that pair.

ghost use Rattle.std.specs.Prelude.{◌≡◌, ◌<◌, ℕ, length};
ghost use Rattle.mesh_decl.specs.Mesh.{set_size, dat_set};
ghost use Rattle.local_mesh.specs.RankSet.{has};
ghost use Rattle.local_mesh.specs.Sets.{sets_in, has_in};
ghost use Rattle.bound_program.specs.Values.{bound_of};
ghost use Rattle.run_model.specs.Windows.{element_by};
ghost use Rattle.chain_needs.specs.PairSets.{ViaLeads};

use bound_program::{Bound, Via};
use local_mesh::rank_sets::RankSet;

/// The element of a dat's set to which an element of a loop leads, itself or by a map.
pub fn element_of(bound: &Bound, dat: u32, via: Option<Via>, element: u32) -> u32
    requires { ViaLeads (bound_of bound.now).mesh element dat via }
    ensures is { result ≡ element_by (bound_of bound.now) via element }
    ensures within { result < set_size (bound_of bound.now).mesh (dat_set (bound_of bound.now).mesh dat) }
{
    match via {
        None => element,
        Some(via) => bound.mesh.target(via.map, element, via.index),
    }
}

/// The ranks of a pair.
pub fn ranks_at(sets: &[Vec<RankSet>], dat: u32, element: u32) -> RankSet
    requires dat { dat < length sets.now }
    requires element { element < length (sets_in sets.now dat) }
    ensures { (r : ℕ) → has result r ≡ has_in sets.now dat element r }
{
    let of_dat = &sets[dat as usize];
    of_dat[element as usize]
}
