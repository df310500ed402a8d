// Exchanges, item by item.
ghost use Rattle.std.specs.Prelude.{◌≡◌, ◌<◌, ◌&&◌, ◌||◌, ℕ, false, not, nat_eq, cond, [], ◌∷◌, ◌++◌, IfOk, OnOk};
ghost use Rattle.std.specs.Prelude.{length, slice_index, slice_index_or};
ghost use Rattle.std.specs.List.{list_any};
ghost use Rattle.lemmas.specs.Below.{listed};
ghost use Rattle.mesh_decl.specs.Mesh.{dat_count};
ghost use Rattle.bound_program.specs.Values.{bound_of, item_of};
ghost use Rattle.bound_program.specs.Fits.{site_at};
ghost use Rattle.bound_program.specs.Classes.{modifies, scatters};
ghost use Rattle.loop_plan.specs.Needs.{needs, item_at, free_args, loop_args, run_of, AreOfDats, IsInRange};

use crate::dirty::Dirty;
use crate::needs::{is_scattering, needs_dat};
use bound_program::{Access, Arg, Bound, Item};
use op_num::OutOfMemory;
use std::alloc::Global;

// Whether a loop with these arguments needs the dat, which is stale.
fn is_exchanged(args: &[Arg], scattering: bool, dirty: &Dirty, dat: u32) -> bool
    requires dat { dat < length dirty.now }
    requires scattering { scattering ≡ scatters args.now }
    ensures { result ≡ (slice_index_or dirty.now dat false && needs args.now dat) }
{
    dirty.stale(dat) && needs_dat(args, scattering, dat)
}

// One more number, where it is wanted.
fn push_if(numbers: &mut Vec<u32>, is_wanted: bool, number: u32) -> Result<(), OutOfMemory>
    ensures { OnOk result (numbers.new.items ≡ numbers.old.items ++ cond is_wanted (number ∷ []) []) }
{
    if is_wanted {
        numbers.push(number)?;
    }
    Ok(())
}

// The stale dats that a loop with these arguments needs, in order.
fn stale_needed(
    alloc: Global,
    args: &[Arg],
    dirty: &Dirty,
    dats: u32,
) -> Result<Vec<u32>, OutOfMemory>
    requires { length dirty.now ≡ dats }
    ensures { IfOk result (λ v. v.items ≡ listed dats (λ d. slice_index_or dirty.now d false && needs args.now d)) }
{
    let scattering = is_scattering(args);
    let mut exchange = Vec::new(alloc);
    for dat in 0..dats {
        push_if(
            &mut exchange,
            is_exchanged(args, scattering, dirty, dat),
            dat,
        )?;
    }
    Ok(exchange)
}

// These dats are no longer stale.
fn cleanse_each(dirty: &mut Dirty, dats: &[u32])
    requires { (k : ℕ) → k < length dats.now → slice_index dats.now k < length dirty.old }
    ensures count { length dirty.new ≡ length dirty.old }
    ensures bits { (d : ℕ) → slice_index_or dirty.new d false ≡ (slice_index_or dirty.old d false && not (list_any (nat_eq d) dats.now)) }
{
    for dat in dats {
        dirty.cleanse(*dat);
    }
}

// The dats that a loop with these arguments modifies become stale.
fn spoil_modified(dirty: &mut Dirty, args: &[Arg])
    requires { AreOfDats (length dirty.old) args.now }
    ensures count { length dirty.new ≡ length dirty.old }
    ensures bits { (d : ℕ) → slice_index_or dirty.new d false ≡ (slice_index_or dirty.old d false || modifies args.now d) }
{
    for arg in args {
        if let Arg::Dat { dat, access, .. } = *arg {
            if access != Access::Read {
                dirty.spoil(dat);
            }
        }
    }
}

/// The arguments of a loop, by its number.
pub fn args_of(bound: &Bound, site: u32) -> &[Arg]
    requires { site < length (bound_of bound.now).sites }
    ensures { result.now ≡ (site_at (bound_of bound.now) site).args }
{
    &bound.sites[site as usize].args
}

// The dats that a Free loop with these arguments exchanges; behind it the bits are those behind its item.
fn exchange_free(
    alloc: Global,
    args: &[Arg],
    dirty: &mut Dirty,
    dats: u32,
) -> Result<Vec<u32>, OutOfMemory>
    requires dats { length dirty.old ≡ dats }
    requires args { AreOfDats dats args.now }
    ensures exchange { IfOk result (λ v. v.items ≡ listed dats (λ d. slice_index_or dirty.old d false && needs args.now d)) }
    ensures count { OnOk result (length dirty.new ≡ dats) }
    ensures bits { OnOk result ((d : ℕ) → d < dats
        → slice_index_or dirty.new d false ≡ (modifies args.now d || (slice_index_or dirty.old d false && not (needs args.now d)))) }
{
    let exchange = stale_needed(alloc, args, dirty, dats)?;
    cleanse_each(dirty, &exchange);
    spoil_modified(dirty, args);
    Ok(exchange)
}

/// How an item runs a loop: as a Free one, in order, or not.
#[derive(Clone, Copy, PartialEq, Eq, Debug)]
pub enum LoopRun {
    Free { site: u32 },
    Ordered { site: u32 },
    No,
}

fn run_of_item(item: &Item) -> LoopRun
    ensures { result ≡ run_of (item_of item.now) }
{
    match item {
        Item::Free { site } => LoopRun::Free { site: *site },
        Item::Ordered { site } => LoopRun::Ordered { site: *site },
        Item::Reduce { .. } => LoopRun::No,
        Item::Host { .. } => LoopRun::No,
    }
}

/// How the item of this number runs a loop.
pub fn run_at(bound: &Bound, item: usize) -> LoopRun
    requires { item < length (bound_of bound.now).trace }
    ensures { result ≡ run_of (item_at (bound_of bound.now) item) }
{
    run_of_item(&bound.trace[item])
}

/// The dats that an item exchanges; behind it the bits are those behind the item.
pub fn exchange_at(
    alloc: Global,
    bound: &Bound,
    item: usize,
    dirty: &mut Dirty,
    dats: u32,
) -> Result<Vec<u32>, OutOfMemory>
    requires item { item < length (bound_of bound.now).trace }
    requires dats { dats ≡ dat_count (bound_of bound.now).mesh }
    requires count { length dirty.old ≡ dats }
    requires range { IsInRange (bound_of bound.now) }
    ensures exchange { IfOk result (λ v. v.items ≡ listed dats (λ d. slice_index_or dirty.old d false
        && needs (free_args (bound_of bound.now) (item_at (bound_of bound.now) item)) d)) }
    ensures count { OnOk result (length dirty.new ≡ dats) }
    ensures bits { OnOk result ((d : ℕ) → d < dats
        → slice_index_or dirty.new d false ≡ (modifies (loop_args (bound_of bound.now) (item_at (bound_of bound.now) item)) d
        || (slice_index_or dirty.old d false && not (needs (free_args (bound_of bound.now) (item_at (bound_of bound.now) item)) d)))) }
{
    match run_at(bound, item) {
        LoopRun::Free { site } => exchange_free(alloc, args_of(bound, site), dirty, dats),
        LoopRun::Ordered { site } => {
            spoil_modified(dirty, args_of(bound, site));
            Ok(Vec::new(alloc))
        }
        LoopRun::No => Ok(Vec::new(alloc)),
    }
}
