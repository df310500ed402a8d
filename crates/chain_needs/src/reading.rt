// The ranks that need a pair before a loop, since an element that they execute reads it.

ghost use Rattle.std.specs.Prelude.{◌≡◌, ◌≢◌, ◌<◌, ◌&&◌, ◌||◌, nat_eq, ℕ, All, length};
ghost use Rattle.std.specs.List.{list_any};
ghost use Rattle.mesh_decl.specs.Mesh.{set_size, dat_set, dat_count};
ghost use Rattle.local_mesh.specs.RankSet.{has, has_at};
ghost use Rattle.lemmas.specs.Below.{any_below};
ghost use Rattle.bound_program.specs.Values.{bound_of};
ghost use Rattle.bound_program.specs.Fits.{SiteFits, site_at};
ghost use Rattle.local_mesh.specs.Sets.{sets_in, has_in};
ghost use Rattle.chain_model.specs.Slices.{may_read, reads_pair};
ghost use Rattle.chain_needs.specs.PairSets.{ArePairSets, ArgLeads};

use crate::reaching::element_of;
use crate::sites::{args_of, set_of};
use bound_program::{Access, Arg, Bound};
use local_mesh::rank_sets::RankSet;

// OP_READ or OP_RW.
fn may_read(access: Access) -> bool
    ensures { result ≡ may_read access }
{
    match access {
        Access::Read | Access::Rw => true,
        _ => false,
    }
}

// Adds ranks to the set at a place.
fn add_at(sets: &mut [RankSet], place: u32, ranks: RankSet)
    requires { place < length sets.old }
    ensures { (y r : ℕ) → has_at sets.new y r ≡ (has_at sets.old y r || (has ranks r && nat_eq place y)) }
{
    sets[place as usize] = sets[place as usize].union(ranks);
}

// Adds ranks to the pair of a dat that an element reads by an argument.
fn read_by(sets: &mut [RankSet], bound: &Bound, dat: u32, arg: Arg, element: u32, ranks: RankSet)
    requires sets { length sets.old ≡ set_size (bound_of bound.now).mesh (dat_set (bound_of bound.now).mesh dat) }
    requires arg { ArgLeads (bound_of bound.now).mesh element arg }
    ensures { (y r : ℕ) → has_at sets.new y r
        ≡ (has_at sets.old y r || (has ranks r && reads_pair (bound_of bound.now) dat y element arg)) }
{
    if let Arg::Dat {
        dat: other,
        via,
        access,
    } = arg
    {
        if may_read(access) && other == dat {
            add_at(sets, element_of(bound, other, via, element), ranks);
        }
    }
}

// Adds ranks to the pairs of a dat that an element reads.
fn read_by_all(
    sets: &mut [RankSet],
    bound: &Bound,
    dat: u32,
    args: &[Arg],
    element: u32,
    ranks: RankSet,
)
    requires sets { length sets.old ≡ set_size (bound_of bound.now).mesh (dat_set (bound_of bound.now).mesh dat) }
    requires args { All (ArgLeads (bound_of bound.now).mesh element) args.now }
    ensures { (y r : ℕ) → has_at sets.new y r
        ≡ (has_at sets.old y r || (has ranks r && list_any (reads_pair (bound_of bound.now) dat y element) args.now)) }
{
    for arg in args {
        read_by(sets, bound, dat, *arg, element, ranks);
    }
}

// The ranks that execute an element.
#[tactic(auto, unfolding(local_mesh::specs::RankSet::has_at))]
fn ranks_of(executing: &[RankSet], element: u32) -> RankSet
    requires { element < length executing.now }
    ensures { (r : ℕ) → has result r ≡ has_at executing.now element r }
{
    executing[element as usize]
}

// Adds to each pair of a dat the ranks that execute an element which reads it.
fn read_all(sets: &mut [RankSet], bound: &Bound, dat: u32, site: u32, executing: &[RankSet])
    requires sets { length sets.old ≡ set_size (bound_of bound.now).mesh (dat_set (bound_of bound.now).mesh dat) }
    requires site { site < length (bound_of bound.now).sites }
    requires fits { SiteFits (bound_of bound.now) (site_at (bound_of bound.now) site) }
    requires executing { length executing.now ≡ set_size (bound_of bound.now).mesh (site_at (bound_of bound.now) site).set }
    ensures { (y r : ℕ) → has_at sets.new y r
        ≡ (has_at sets.old y r || any_below (set_size (bound_of bound.now).mesh (site_at (bound_of bound.now) site).set)
        (λ e. has_at executing.now e r && list_any (reads_pair (bound_of bound.now) dat y e) (site_at (bound_of bound.now) site).args)) }
{
    let set = set_of(bound, site);
    let args = args_of(bound, site);
    for element in 0..bound.mesh.set_size(set) {
        let ranks = ranks_of(executing, element);
        read_by_all(sets, bound, dat, args, element, ranks);
    }
}

// Adds to each pair of one dat among all the ranks that execute an element which reads it.
fn read_dat(needs: &mut [Vec<RankSet>], bound: &Bound, dat: u32, site: u32, executing: &[RankSet])
    requires needs { ArePairSets (bound_of bound.now).mesh needs.old }
    requires dat { dat < dat_count (bound_of bound.now).mesh }
    requires site { site < length (bound_of bound.now).sites }
    requires fits { SiteFits (bound_of bound.now) (site_at (bound_of bound.now) site) }
    requires executing { length executing.now ≡ set_size (bound_of bound.now).mesh (site_at (bound_of bound.now) site).set }
    ensures needs { ArePairSets (bound_of bound.now).mesh needs.new }
    ensures here { (y r : ℕ) → has_in needs.new dat y r
        ≡ (has_in needs.old dat y r || any_below (set_size (bound_of bound.now).mesh (site_at (bound_of bound.now) site).set)
        (λ e. has_at executing.now e r && list_any (reads_pair (bound_of bound.now) dat y e) (site_at (bound_of bound.now) site).args)) }
    ensures others { (d : ℕ) → d ≢ dat → sets_in needs.new d ≡ sets_in needs.old d }
{
    read_all(&mut needs[dat as usize], bound, dat, site, executing);
}

/// Adds to each pair the ranks that execute an element of the loop which reads it.
pub fn read_dats(needs: &mut [Vec<RankSet>], bound: &Bound, site: u32, executing: &[RankSet])
    requires needs { ArePairSets (bound_of bound.now).mesh needs.old }
    requires site { site < length (bound_of bound.now).sites }
    requires fits { SiteFits (bound_of bound.now) (site_at (bound_of bound.now) site) }
    requires executing { length executing.now ≡ set_size (bound_of bound.now).mesh (site_at (bound_of bound.now) site).set }
    ensures needs { ArePairSets (bound_of bound.now).mesh needs.new }
    ensures has { (d y r : ℕ) → d < dat_count (bound_of bound.now).mesh → has_in needs.new d y r
        ≡ (has_in needs.old d y r || any_below (set_size (bound_of bound.now).mesh (site_at (bound_of bound.now) site).set)
        (λ e. has_at executing.now e r && list_any (reads_pair (bound_of bound.now) d y e) (site_at (bound_of bound.now) site).args)) }
{
    for dat in 0..bound.mesh.dat_count() {
        read_dat(needs, bound, dat, site, executing);
    }
}
