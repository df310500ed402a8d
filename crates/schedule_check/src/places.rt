// The marks of the places that ranks run.
ghost use Rattle.std.specs.Prelude.{◌≡◌, ◌<◌, ◌*◌, ◌↔◌, ℕ, false, IfOk, length, get_or, slice_index_or};
ghost use Rattle.step_judge.specs.Item.{no_run};
ghost use Rattle.loop_plan.specs.Pairs.{sets_of, core_in};
ghost use Rattle.loop_plan.specs.Values.{site_plan_of};
ghost use Rattle.schedule_check.specs.NewPlaces.{AreNewPlaces, AreColoured, blocks_of, inner_of};

use local_mesh::{LocalSet, RankMesh};
use loop_plan::{Colours, SitePlan};
use op_num::OutOfMemory;
use std::alloc::Global;
use step_judge::marks::Places;

// Whether a place is core; one that the list doesn't have isn't.
fn is_core(core: &[bool], place: usize) -> bool
    ensures { result ≡ slice_index_or core.now place false }
{
    match core.get(place) {
        Some(is_core) => *is_core,
        None => false,
    }
}

// Which of so many places are core.
fn core_of(alloc: Global, core: &[bool], count: usize) -> Result<Vec<bool>, OutOfMemory>
    ensures count { IfOk result (λ v. length v.items ≡ count) }
    ensures cores { IfOk result (λ v. (x : ℕ) → x < count → slice_index_or v.items x false ≡ slice_index_or core.now x false) }
{
    let mut cores = Vec::with_capacity(alloc, count)?;
    for place in 0..count {
        cores.push(is_core(core, place))?;
    }
    Ok(cores)
}

// So many places of a rank.
fn new_places(
    alloc: Global,
    size: u32,
    count: u32,
    colours: &Colours,
    core: &[bool],
) -> Result<Places, OutOfMemory>
    requires size { 0 < size }
    requires count { length colours.now.inner.items ≡ count }
    requires blocks { (a : ℕ) → (a < length colours.now.blocks.items) ↔ (a * size < count) }
    ensures { IfOk result (λ v. AreNewPlaces size colours.now.blocks.items colours.now.inner.items core.now v) }
{
    let cores = core_of(alloc, core, count as usize)?;
    let places = Places::new(alloc, size, &colours.blocks, &colours.inner, cores)?;
    Ok(places)
}

// Which of a rank's elements of a set are core.
fn core_in(sets: &[LocalSet], set: u32) -> &[bool]
    ensures { result.now ≡ core_in sets.now set }
{
    if set as usize >= sets.len() {
        return &[];
    }
    &sets[set as usize].core
}

/// The sets of a rank.
pub fn sets_on(ranks: &[RankMesh], rank: usize) -> &[LocalSet]
    requires { rank < length ranks.now }
    ensures { result.now ≡ sets_of ranks.now rank }
{
    &ranks[rank].sets
}

/// By rank the places of a loop over this set, in blocks of `size` places: so many, with these colours.
pub fn places_by_rank(
    alloc: Global,
    size: u32,
    ranks: &[RankMesh],
    set: u32,
    site: &SitePlan,
) -> Result<Vec<Places>, OutOfMemory>
    requires size { 0 < size }
    requires site { AreColoured size (length ranks.now) (site_plan_of site.now) }
    ensures count { IfOk result (λ v. length v.items ≡ length ranks.now) }
    ensures places { IfOk result (λ v. (r : ℕ) → r < length ranks.now → AreNewPlaces size (blocks_of site.now.colours.items r)
        (inner_of site.now.colours.items r) (core_in (sets_of ranks.now r) set) (get_or v.items r no_run)) }
{
    let mut places = Vec::new(alloc);
    for rank in 0..ranks.len() {
        let core = core_in(sets_on(ranks, rank), set);
        let count = site.places[rank];
        places.push(new_places(alloc, size, count, &site.colours[rank], core)?)?;
    }
    Ok(places)
}
