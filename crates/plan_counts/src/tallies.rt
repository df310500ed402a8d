// What the items of each loop do.

ghost use Rattle.std.specs.Prelude.{◌≡◌, ◌<◌, ℕ, cond, nat_eq, OnOk, IfOk, length, slice_index};
ghost use Rattle.local_mesh.specs.declared.halo_lists.types.Halos.{Halos};
ghost use Rattle.mesh_decl.specs.Mesh.{dat_count};
ghost use Rattle.bound_program.specs.Values.{bound_of};
ghost use Rattle.bound_program.specs.Fits.{Fits};
ghost use Rattle.loop_plan.specs.Values.{item_plan_of, plan_of};
ghost use Rattle.loop_plan.specs.Distributed.{Distributed};
ghost use Rattle.loop_plan.specs.Needs.{IsLoopOf};
ghost use Rattle.loop_plan.specs.Proper.{Proper};
ghost use Rattle.plan_counts.specs.Imports.{sent_by};
ghost use Rattle.plan_counts.specs.Parts.{no_tally, tally_in, plus, free_tally, ordered_tally, run_tally, items_tally};

use crate::imports::all_imports;
use crate::messages::sent_by;
use crate::sums::sum_of;
use bound_program::Bound;
use local_mesh::RankMesh;
use loop_plan::{ItemPlan, LoopRun, Plan, bound_is_in_range, run_at};
use mesh_decl::Mesh;
use op_num::OutOfMemory;
use std::alloc::Global;

/// What the items of a loop do.
#[derive(Clone, Copy, PartialEq, Eq, Debug)]
pub struct Tally {
    /// How often they run the loop.
    pub runs: u64,
    /// In how many of these runs dats are exchanged.
    pub exchanges: u64,
    /// How many messages these exchanges send.
    pub messages: u64,
    /// How many cells these messages have.
    pub cells: u64,
}

// The sums of two tallies.
fn added(a: Tally, b: Tally) -> Result<Tally, OutOfMemory>
    ensures { IfOk result (λ t. t ≡ plus a b) }
{
    let runs = sum_of(a.runs, b.runs)?;
    let exchanges = sum_of(a.exchanges, b.exchanges)?;
    let messages = sum_of(a.messages, b.messages)?;
    let cells = sum_of(a.cells, b.cells)?;
    Ok(Tally {
        runs,
        exchanges,
        messages,
        cells,
    })
}

// Nothing is counted.
fn no_tally() -> Tally
    ensures { result ≡ no_tally }
{
    Tally {
        runs: 0,
        exchanges: 0,
        messages: 0,
        cells: 0,
    }
}

// What a run of a Free loop does, whose messages have so many cells.
fn free_run(plan: &ItemPlan, cells: u64) -> Tally
    ensures { result ≡ free_tally (item_plan_of plan.now) cells }
{
    Tally {
        runs: 1,
        exchanges: if plan.exchange.is_empty() { 0 } else { 1 },
        messages: plan.pairs.len() as u64,
        cells,
    }
}

// What a run of an Ordered loop does.
fn ordered_run() -> Tally
    ensures { result ≡ ordered_tally }
{
    Tally {
        runs: 1,
        ..no_tally()
    }
}

// A tally is added to that of a loop.
fn add_to(tallies: &mut [Tally], site: u32, more: Tally) -> Result<(), OutOfMemory>
    requires { site < length tallies.old }
    ensures length { OnOk result (length tallies.new ≡ length tallies.old) }
    ensures tallies { OnOk result ((s : ℕ) → tally_in tallies.new s ≡ plus (tally_in tallies.old s) (cond (nat_eq site s) more no_tally)) }
{
    let sum = added(tallies[site as usize], more)?;
    tallies[site as usize] = sum;
    Ok(())
}

// What an item does, by how it runs a loop, is added to the loop's tally; `imports` is the table of what ranks import.
fn count_item(
    tallies: &mut [Tally],
    mesh: &Mesh,
    imports: &[Vec<Vec<u64>>],
    run: LoopRun,
    plan: &ItemPlan,
) -> Result<(), OutOfMemory>
    requires loops { IsLoopOf (length tallies.old) run }
    requires dats { (k : ℕ) → k < length plan.now.exchange.items → slice_index plan.now.exchange.items k < dat_count mesh.now }
    ensures length { OnOk result (length tallies.new ≡ length tallies.old) }
    ensures tallies { OnOk result ((s : ℕ) → tally_in tallies.new s
        ≡ plus (tally_in tallies.old s) (run_tally s run (item_plan_of plan.now) (sent_by mesh.now imports.now (item_plan_of plan.now)))) }
{
    match run {
        LoopRun::Free { site } => {
            let cells = sent_by(mesh, imports, plan)?;
            add_to(tallies, site, free_run(plan, cells))
        }
        LoopRun::Ordered { site } => add_to(tallies, site, ordered_run()),
        LoopRun::No => Ok(()),
    }
}

/// By loop, what its items do. It takes time linear in the items with their exchanges and messages, and in what ranks
/// import, for each rank. An error is want of memory, also where 64 bits can't count.
pub fn tallies_of(
    alloc: Global,
    bound: &Bound,
    ranks: &[RankMesh],
    plan: &Plan,
) -> Result<Vec<Tally>, OutOfMemory>
    requires fits { Fits (bound_of bound.now) }
    requires ranks { (h : Halos) × Distributed (bound_of bound.now).mesh h ranks.now }
    requires plan { Proper (bound_of bound.now) ranks.now (plan_of plan.now) }
    ensures length { IfOk result (λ v. length v.items ≡ length (bound_of bound.now).sites) }
    ensures tallies { IfOk result (λ v. (s : ℕ) → tally_in v.items s
        ≡ items_tally (bound_of bound.now) ranks.now s (bound_of bound.now).trace (plan_of plan.now).items) }
{
    bound_is_in_range();
    bound.mesh.is_in_range();
    let imports = all_imports(alloc, &bound.mesh, ranks)?;
    let mut tallies = vec![in alloc; no_tally(); bound.sites.len()]?;
    for item in 0..bound.trace.len() {
        let run = run_at(bound, item);
        let item_plan = &plan.items[item];
        count_item(&mut tallies, &bound.mesh, &imports, run, item_plan)?;
    }
    Ok(tallies)
}
