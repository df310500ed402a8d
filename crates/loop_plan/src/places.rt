// Places that the ranks execute of a loop.
ghost use Rattle.std.specs.Prelude.{◌≡◌, ℕ, ◌^◌, ◌<◌, cond, IfOk, length, slice_index, sum};
ghost use Rattle.mesh_decl.specs.Mesh.{set_count};
ghost use Rattle.local_mesh.specs.LocalMesh.{executed_in};
ghost use Rattle.bound_program.specs.Values.{bound_of};
ghost use Rattle.bound_program.specs.Fits.{site_at};
ghost use Rattle.loop_plan.specs.Pairs.{sets_of, own_in};
ghost use Rattle.loop_plan.specs.Places.{places_of, HaveSets};
ghost use Rattle.loop_plan.specs.StepCounts.{place_count};

use crate::exchange::args_of;
use crate::needs::is_scattering;
use bound_program::Bound;
use local_mesh::{LocalSet, RankMesh};
use op_num::OutOfMemory;
use std::alloc::Global;

/// The sets of a rank.
pub fn sets_on(ranks: &[RankMesh], rank: usize) -> &[LocalSet]
    requires { rank < length ranks.now }
    ensures { result.now ≡ sets_of ranks.now rank }
{
    &ranks[rank].sets
}

// How many elements of a set a rank executes: what it owns and, where it scatters, what it imports to execute.
fn places_on(sets: &[LocalSet], set: u32, scattering: bool) -> u32
    requires set { set < length sets.now }
    requires few { executed_in sets.now set < 2 ^ 32 }
    ensures { result ≡ cond scattering (executed_in sets.now set) (own_in sets.now set) }
{
    let local = &sets[set as usize];
    if scattering {
        local.own + local.exec
    } else {
        local.own
    }
}

// The set of a loop.
fn set_of(bound: &Bound, site: u32) -> u32
    requires { site < length (bound_of bound.now).sites }
    ensures { result ≡ (site_at (bound_of bound.now) site).set }
{
    bound.sites[site as usize].set
}

/// By rank, how many places it executes of a loop.
pub fn places_by_rank(
    alloc: Global,
    bound: &Bound,
    ranks: &[RankMesh],
    site: u32,
) -> Result<Vec<u32>, OutOfMemory>
    requires ranks { HaveSets (bound_of bound.now).mesh ranks.now }
    requires site { site < length (bound_of bound.now).sites }
    requires set { (site_at (bound_of bound.now) site).set < set_count (bound_of bound.now).mesh }
    ensures count { IfOk result (λ v. length v.items ≡ length ranks.now) }
    ensures places { IfOk result (λ v. (r : ℕ) → r < length ranks.now
        → slice_index v.items r ≡ places_of ranks.now (site_at (bound_of bound.now) site) r) }
{
    let scattering = is_scattering(args_of(bound, site));
    let set = set_of(bound, site);
    let mut places = Vec::new(alloc);
    for rank in 0..ranks.len() {
        places.push(places_on(sets_on(ranks, rank), set, scattering))?;
    }
    Ok(places)
}

// The sum of numbers, of which there are few.
fn total(numbers: &[u32]) -> u64
    requires { length numbers.now < 2 ^ 32 }
    ensures { result ≡ sum numbers.now }
{
    let mut total = 0;
    for number in numbers {
        total += *number as u64;
    }
    total
}

/// How many places all ranks execute of a loop.
pub fn place_count(
    alloc: Global,
    bound: &Bound,
    ranks: &[RankMesh],
    site: u32,
) -> Result<u64, OutOfMemory>
    requires ranks { HaveSets (bound_of bound.now).mesh ranks.now }
    requires site { site < length (bound_of bound.now).sites }
    requires set { (site_at (bound_of bound.now) site).set < set_count (bound_of bound.now).mesh }
    ensures { IfOk result (λ n. n ≡ place_count (bound_of bound.now) ranks.now site) }
{
    let places = places_by_rank(alloc, bound, ranks, site)?;
    Ok(total(&places))
}
