// The plans of Free loops.
ghost use Rattle.std.specs.Prelude.{◌≡◌, ℕ, ◌<◌, ◌+◌, ◌||◌, ◌++◌, ◌∷◌, [], ◌^◌, true, false};
ghost use Rattle.std.specs.Prelude.{IfOk, OnOk, length, slice_index, slice_index_or};
ghost use Rattle.mesh_decl.specs.Mesh.{set_count};
ghost use Rattle.local_mesh.specs.declared.halo_lists.types.Halos.{Halos};
ghost use Rattle.local_mesh.specs.declared.types.RankMesh.{RankMesh as RankMeshValue};
ghost use Rattle.colouring.specs.declared.types.Colours.{Colours as ColoursValue};
ghost use Rattle.colouring.specs.Colours.{AreArgs, AreColours};
ghost use Rattle.bound_program.specs.Values.{bound_of};
ghost use Rattle.bound_program.specs.Fits.{Fits, site_at};
ghost use Rattle.loop_plan.specs.Values.{entries_of, site_plan_of};
ghost use Rattle.loop_plan.specs.Alike.{AreMade};
ghost use Rattle.loop_plan.specs.Needs.{IsLoopOf, IsInRange};
ghost use Rattle.loop_plan.specs.Distributed.{Distributed};
ghost use Rattle.loop_plan.specs.Places.{reducing, runs_free, is_run, HaveSets};
ghost use Rattle.loop_plan.specs.SitePlans.{IsLeastPlan, ArePlans};

use crate::alike::{PlanKey, plan_key, same_key};
use crate::exchange::{LoopRun, args_of, run_at};
use crate::needs::is_merged;
use crate::places::places_by_rank;
use crate::shared::SitePlans;
use crate::types::SitePlan;
use bound_program::{Arg, Bound, Mesh};
use colouring::{Colours, IncArg, colour};
use local_mesh::RankMesh;
use op_num::OutOfMemory;
use std::alloc::Global;

// The loop of a Free item is marked.
fn mark(runs: &mut Vec<bool>, run: LoopRun)
    requires { IsLoopOf (length runs.old.items) run }
    ensures count { length runs.new.items ≡ length runs.old.items }
    ensures marks { (s : ℕ) → slice_index_or runs.new.items s false ≡ (slice_index_or runs.old.items s false || is_run run s) }
{
    if let LoopRun::Free { site } = run {
        runs[site as usize] = true;
    }
}

/// By loop, whether it stands in the trace as a Free item.
pub fn running_loops(alloc: Global, bound: &Bound) -> Result<Vec<bool>, OutOfMemory>
    requires { IsInRange (bound_of bound.now) }
    ensures count { IfOk result (λ v. length v.items ≡ length (bound_of bound.now).sites) }
    ensures runs { IfOk result (λ v. (s : ℕ) → slice_index_or v.items s false ≡ runs_free (bound_of bound.now) s) }
{
    let mut runs = vec![in alloc; false; bound.sites.len()]?;
    for item in 0..bound.trace.len() {
        mark(&mut runs, run_at(bound, item));
    }
    Ok(runs)
}

// One argument more, where it merges amounts into a dat.
fn push_reducing(args: &mut Vec<IncArg>, arg: Arg) -> Result<(), OutOfMemory>
    ensures { OnOk result (args.new.items ≡ args.old.items ++ reducing (arg ∷ [])) }
{
    if let Arg::Dat { dat, via, access } = arg {
        if is_merged(access) {
            args.push(IncArg { dat, via })?;
        }
    }
    Ok(())
}

/// The arguments that merge amounts into dats, in their order.
pub fn reducing_args(alloc: Global, args: &[Arg]) -> Result<Vec<IncArg>, OutOfMemory>
    ensures { IfOk result (λ v. v.items ≡ reducing args.now) }
{
    let mut found = Vec::new(alloc);
    for arg in args {
        push_reducing(&mut found, *arg)?;
    }
    Ok(found)
}

// By rank, the colours of its places.
fn colours_by_rank(
    alloc: Global,
    mesh: &Mesh,
    ranks: &[RankMesh],
    args: &[IncArg],
    places: &[u32],
    block: u32,
) -> Result<Vec<Colours>, OutOfMemory>
    requires ranks { (h : Halos) × Distributed mesh.now h ranks.now }
    requires places { length places.now ≡ length ranks.now }
    requires args { (r : ℕ) (m : RankMeshValue) → r < length ranks.now
        → AreArgs mesh.now (slice_index_or ranks.now r m).sets.items (slice_index places.now r) args.now }
    requires block { 0 < block }
    ensures count { IfOk result (λ v. length v.items ≡ length ranks.now) }
    ensures colours { IfOk result (λ v. (r : ℕ) (m : RankMeshValue) (d : ColoursValue) → r < length ranks.now
        → AreColours mesh.now (slice_index_or ranks.now r m).maps.items args.now (slice_index places.now r) block
        (slice_index_or v.items r d)) }
{
    let mut colours = Vec::new(alloc);
    for rank in 0..ranks.len() {
        colours.push(colour(alloc, mesh, &ranks[rank], args, places[rank], block)?)?;
    }
    Ok(colours)
}

// The plan of a loop, with least colours.
fn least_plan(
    alloc: Global,
    bound: &Bound,
    ranks: &[RankMesh],
    site: u32,
    block: u32,
) -> Result<SitePlan, OutOfMemory>
    requires fits { Fits (bound_of bound.now) }
    requires ranks { (h : Halos) × Distributed (bound_of bound.now).mesh h ranks.now }
    requires sets { HaveSets (bound_of bound.now).mesh ranks.now }
    requires site { site < length (bound_of bound.now).sites }
    requires block { 0 < block }
    ensures { IfOk result (λ p. IsLeastPlan (bound_of bound.now) ranks.now block site (site_plan_of p)) }
{
    let places = places_by_rank(alloc, bound, ranks, site)?;
    let args = reducing_args(alloc, args_of(bound, site))?;
    let colours = colours_by_rank(alloc, &bound.mesh, ranks, &args, &places, block)?;
    Ok(SitePlan { places, colours })
}

// Plans that are being made, each with what it is made from.
#[derive(Drop)]
struct Making {
    plans: SitePlans,
    keys: Vec<PlanKey>,
}

// Whether a loop runs as a Free one.
fn is_running(runs: &[bool], site: u32) -> bool
    requires { site < length runs.now }
    ensures { result ≡ slice_index_or runs.now site false }
{
    runs[site as usize]
}

// One loop more, which runs as a Free one: it shares the plan of one that has the same, or has one of its own.
fn add_plan(
    making: &mut Making,
    alloc: Global,
    bound: &Bound,
    ranks: &[RankMesh],
    site: u32,
    block: u32,
) -> Result<(), OutOfMemory>
    requires fits { Fits (bound_of bound.now) }
    requires ranks { (h : Halos) × Distributed (bound_of bound.now).mesh h ranks.now }
    requires sets { HaveSets (bound_of bound.now).mesh ranks.now }
    requires run { runs_free (bound_of bound.now) site ≡ true }
    requires site { site < length (bound_of bound.now).sites }
    requires block { 0 < block }
    requires before { AreMade (bound_of bound.now) block ranks.now site making.old.plans making.old.keys.items }
    ensures { OnOk result (AreMade (bound_of bound.now) block ranks.now (site + 1) making.new.plans making.new.keys.items) }
{
    let key = plan_key(alloc, bound, site)?;
    if let Some(slot) = same_key(&making.keys, &key) {
        making.plans.share(site, slot)?;
        return Ok(());
    }
    let plan = least_plan(alloc, bound, ranks, site, block)?;
    making.plans.add(site, plan)?;
    making.keys.push(key)?;
    Ok(())
}

/// The plans of the loops that run as Free ones: their places on each rank, and the least colours of these in blocks of
/// `block` places. Loops whose plans are made from the same share one.
pub fn site_plans(
    alloc: Global,
    bound: &Bound,
    ranks: &[RankMesh],
    block: u32,
) -> Result<SitePlans, OutOfMemory>
    requires fits { Fits (bound_of bound.now) }
    requires few { length (bound_of bound.now).sites < 2 ^ 32 }
    requires range { IsInRange (bound_of bound.now) }
    requires ranks { (h : Halos) × Distributed (bound_of bound.now).mesh h ranks.now }
    requires sets { HaveSets (bound_of bound.now).mesh ranks.now }
    requires block { 0 < block }
    ensures { IfOk result (λ v. ArePlans (bound_of bound.now) ranks.now block (length (bound_of bound.now).sites) (entries_of v)) }
{
    let runs = running_loops(alloc, bound)?;
    let mut making = Making {
        plans: SitePlans::new(alloc),
        keys: Vec::new(alloc),
    };
    for site in 0..bound.sites.len() as u32 {
        if is_running(&runs, site) {
            add_plan(&mut making, alloc, bound, ranks, site, block)?;
        }
    }
    Ok(making.plans)
}
