// Plan texts.
ghost use Rattle.std.specs.Prelude.{◌≡◌, ◌<◌, ◌≤◌, ◌^◌, ◌++◌, ℕ, [], ◌∷◌, map, length, take, drop, All, OnOk, IfOk, codes};
ghost use Rattle.std.specs.List.{flat_map};
ghost use Rattle.std.specs.Fmt.{decimal};
ghost use Rattle.op_num.specs.Lines.{line_of, text_of_lines};
ghost use Rattle.mesh_decl.specs.Mesh.{set_count, set_name, dat_name};
ghost use Rattle.local_mesh.specs.declared.halo_lists.types.Halos.{Halos};
ghost use Rattle.local_mesh.specs.LocalMesh.{originals_in, executed_in};
ghost use Rattle.loop_plan.specs.Exports.{AreDats};
ghost use Rattle.loop_plan.specs.Pairs.{own_in};
ghost use Rattle.loop_plan.specs.Spaced.{spaced};
ghost use Rattle.bound_program.specs.Values.{Free, item_of, bound_of};
ghost use Rattle.bound_program.specs.Fits.{Fits};
ghost use Rattle.loop_plan.specs.Values.{site_plan_of, item_plan_of, entries_of, plan_of};
ghost use Rattle.loop_plan.specs.Needs.{item_at};
ghost use Rattle.loop_plan.specs.ItemPlans.{plan_in};
ghost use Rattle.loop_plan.specs.SitePlans.{IsByRank};
ghost use Rattle.loop_plan.specs.Places.{HaveSets};
ghost use Rattle.loop_plan.specs.Distributed.{Distributed};
ghost use Rattle.loop_plan.specs.Proper.{Proper};
ghost use Rattle.loop_plan.specs.PlanText.{halo_line, halo_lines, all_halo_lines, site_line, site_lines, loop_lines};
ghost use Rattle.loop_plan.specs.PlanText.{item_line, item_lines, plan_text};

use crate::places::sets_on;
use crate::shared::SitePlans;
use crate::types::{ItemPlan, Plan, SitePlan};
use bound_program::{Bound, Item, Mesh};
use colouring::Colours;
use local_mesh::{LocalSet, RankMesh};
use op_num::{OutOfMemory, put_u64};
use std::alloc::Global;

// A word behind a space.
fn put_word(out: &mut Vec<u8>, word: &[u8]) -> Result<(), OutOfMemory>
    ensures { OnOk result (out.new.items ≡ out.old.items ++ spaced (word.now ∷ [])) }
{
    out.extend_from_slice(b" ")?;
    out.extend_from_slice(word)?;
    Ok(())
}

// A number behind a space.
fn put_number(out: &mut Vec<u8>, number: u32) -> Result<(), OutOfMemory>
    ensures { OnOk result (out.new.items ≡ out.old.items ++ spaced (decimal number ∷ [])) }
{
    out.extend_from_slice(b" ")?;
    put_u64(out, number as u64)?;
    Ok(())
}

// Numbers, each behind a space.
fn put_numbers(out: &mut Vec<u8>, numbers: &[u32]) -> Result<(), OutOfMemory>
    ensures { OnOk result (out.new.items ≡ out.old.items ++ spaced (map decimal numbers.now)) }
{
    for number in numbers {
        put_number(out, *number)?;
    }
    Ok(())
}

// A word and numbers, each behind a space.
fn put_list(out: &mut Vec<u8>, word: &[u8], numbers: &[u32]) -> Result<(), OutOfMemory>
    ensures { OnOk result (out.new.items ≡ out.old.items ++ spaced (word.now ∷ map decimal numbers.now)) }
{
    put_word(out, word)?;
    put_numbers(out, numbers)?;
    Ok(())
}

// A word and a number, each behind a space.
fn put_count(out: &mut Vec<u8>, word: &[u8], number: u32) -> Result<(), OutOfMemory>
    ensures { OnOk result (out.new.items ≡ out.old.items ++ spaced (word.now ∷ decimal number ∷ [])) }
{
    put_word(out, word)?;
    put_number(out, number)?;
    Ok(())
}

// The line of a loop on a rank.
fn put_site(
    out: &mut Vec<u8>,
    site: u32,
    rank: u32,
    places: u32,
    colours: &Colours,
) -> Result<(), OutOfMemory>
    ensures { OnOk result (out.new.items ≡ out.old.items ++ line_of (site_line site rank places colours.now)) }
{
    out.extend_from_slice(b"site")?;
    put_number(out, site)?;
    put_count(out, b"rank", rank)?;
    put_count(out, b"places", places)?;
    put_list(out, b"blocks", &colours.blocks)?;
    put_list(out, b"inner", &colours.inner)?;
    out.extend_from_slice(b"\n")?;
    Ok(())
}

// The numbers from one place up to another.
fn between(numbers: &[u32], from: u32, to: u32) -> &[u32]
    requires order { from ≤ to }
    requires within { to ≤ length numbers.now }
    ensures { result.now ≡ drop from (take to numbers.now) }
{
    numbers.split_at(to as usize).0.split_at(from as usize).1
}

// The numbers from a place on.
fn rest_from(numbers: &[u32], from: u32) -> &[u32]
    requires { from ≤ length numbers.now }
    ensures { result.now ≡ drop from numbers.now }
{
    numbers.split_at(from as usize).1
}

// The line of a rank's elements of a set.
fn put_halo(
    out: &mut Vec<u8>,
    name: &[u8],
    rank: u32,
    originals: &[u32],
    own: u32,
    executed: u32,
) -> Result<(), OutOfMemory>
    requires own { own ≤ executed }
    requires executed { executed ≤ length originals.now }
    ensures { OnOk result (out.new.items ≡ out.old.items ++ line_of (
        (codes "halo" ∷ name.now ∷ decimal rank ∷ codes "owned" ∷ map decimal (take own originals.now))
        ++ (codes "exec" ∷ map decimal (drop own (take executed originals.now)))
        ++ (codes "nonexec" ∷ map decimal (drop executed originals.now)))) }
{
    out.extend_from_slice(b"halo")?;
    put_word(out, name)?;
    put_number(out, rank)?;
    put_list(out, b"owned", &originals[..own as usize])?;
    put_list(out, b"exec", between(originals, own, executed))?;
    put_list(out, b"nonexec", rest_from(originals, executed))?;
    out.extend_from_slice(b"\n")?;
    Ok(())
}

/// Appends the line of a plan text for the elements that the rank with this number has of a set: the original numbers
/// of those that it owns, imports to execute and imports otherwise, by local number. `sets` are the rank's.
pub fn put_rank_halo(
    out: &mut Vec<u8>,
    mesh: &Mesh,
    sets: &[LocalSet],
    set: u32,
    rank: u32,
) -> Result<(), OutOfMemory>
    requires set { set < set_count mesh.now }
    requires there { set < length sets.now }
    requires held { executed_in sets.now set ≤ length (originals_in sets.now set) }
    requires few { executed_in sets.now set < 2 ^ 32 }
    ensures { OnOk result (out.new.items ≡ out.old.items ++ line_of (halo_line mesh.now sets.now set rank)) }
{
    let local = &sets[set as usize];
    let executed = local.own + local.exec;
    let name = mesh.set_name(set).bytes();
    put_halo(
        out,
        name,
        rank,
        local.original.as_slice(),
        local.own,
        executed,
    )?;
    Ok(())
}

// The lines of a set, by rank.
fn put_halos(
    out: &mut Vec<u8>,
    mesh: &Mesh,
    ranks: &[RankMesh],
    set: u32,
) -> Result<(), OutOfMemory>
    requires ranks { HaveSets mesh.now ranks.now }
    requires set { set < set_count mesh.now }
    ensures { OnOk result (out.new.items ≡ out.old.items ++ text_of_lines (halo_lines mesh.now set 0 ranks.now)) }
{
    for rank in 0..ranks.len() {
        put_rank_halo(out, mesh, sets_on(ranks, rank), set, rank as u32)?;
    }
    Ok(())
}

// The lines of all sets.
fn put_all_halos(out: &mut Vec<u8>, mesh: &Mesh, ranks: &[RankMesh]) -> Result<(), OutOfMemory>
    requires ranks { HaveSets mesh.now ranks.now }
    ensures { OnOk result (out.new.items ≡ out.old.items ++ text_of_lines (all_halo_lines mesh.now ranks.now (set_count mesh.now))) }
{
    for set in 0..mesh.set_count() {
        put_halos(out, mesh, ranks, set)?;
    }
    Ok(())
}

// The lines of a loop, by rank.
fn put_sites(
    out: &mut Vec<u8>,
    site: u32,
    places: &[u32],
    colours: &[Colours],
) -> Result<(), OutOfMemory>
    requires same { length places.now ≡ length colours.now }
    requires few { length places.now ≤ 64 }
    ensures { OnOk result (out.new.items ≡ out.old.items ++ text_of_lines (site_lines site 0 places.now colours.now)) }
{
    for rank in 0..places.len() {
        put_site(out, site, rank as u32, places[rank], &colours[rank])?;
    }
    Ok(())
}

// The lines of a loop that has this plan.
fn put_site_plan(out: &mut Vec<u8>, site: u32, plan: &SitePlan) -> Result<(), OutOfMemory>
    requires { IsByRank (site_plan_of plan.now) }
    ensures { OnOk result (out.new.items ≡ out.old.items ++ text_of_lines (loop_lines (site, site_plan_of plan.now))) }
{
    put_sites(out, site, plan.places.as_slice(), plan.colours.as_slice())?;
    Ok(())
}

// The lines of all loops that have plans.
fn put_all_sites(out: &mut Vec<u8>, sites: &SitePlans) -> Result<(), OutOfMemory>
    requires { All (λ e. IsByRank e.1) (entries_of sites.now) }
    ensures { OnOk result (out.new.items ≡ out.old.items ++ text_of_lines (flat_map loop_lines (entries_of sites.now))) }
{
    for place in 0..sites.len() {
        let (site, plan) = sites.loop_at(place);
        put_site_plan(out, site, plan)?;
    }
    Ok(())
}

// The names of dats, each behind a space.
fn put_names(out: &mut Vec<u8>, mesh: &Mesh, dats: &[u32]) -> Result<(), OutOfMemory>
    requires { AreDats mesh.now dats.now }
    ensures { OnOk result (out.new.items ≡ out.old.items ++ spaced (map (dat_name mesh.now) dats.now)) }
{
    for dat in dats {
        put_word(out, mesh.dat_name(*dat).bytes())?;
    }
    Ok(())
}

// The line of a Free item.
fn put_free(
    out: &mut Vec<u8>,
    mesh: &Mesh,
    number: u32,
    site: u32,
    exchange: &[u32],
) -> Result<(), OutOfMemory>
    requires { AreDats mesh.now exchange.now }
    ensures { OnOk result (out.new.items ≡ out.old.items ++ line_of (item_line mesh.now number (Free site) exchange.now)) }
{
    out.extend_from_slice(b"item")?;
    put_number(out, number)?;
    put_count(out, b"free", site)?;
    put_word(out, b"exchange")?;
    put_names(out, mesh, exchange)?;
    out.extend_from_slice(b"\n")?;
    Ok(())
}

// The line of a loop's merging, or of an Ordered loop.
fn put_loop(out: &mut Vec<u8>, number: u32, kind: &[u8], site: u32) -> Result<(), OutOfMemory>
    ensures { OnOk result (out.new.items ≡ out.old.items ++ line_of (codes "item" ∷ decimal number ∷ kind.now ∷ decimal site ∷ [])) }
{
    out.extend_from_slice(b"item")?;
    put_number(out, number)?;
    put_count(out, kind, site)?;
    out.extend_from_slice(b"\n")?;
    Ok(())
}

// The line of a statement that is no loop.
fn put_host(out: &mut Vec<u8>, number: u32) -> Result<(), OutOfMemory>
    ensures { OnOk result (out.new.items ≡ out.old.items ++ line_of (codes "item" ∷ decimal number ∷ codes "host" ∷ [])) }
{
    out.extend_from_slice(b"item")?;
    put_number(out, number)?;
    put_word(out, b"host")?;
    out.extend_from_slice(b"\n")?;
    Ok(())
}

// The line of an item.
fn put_item(
    out: &mut Vec<u8>,
    mesh: &Mesh,
    number: u32,
    item: &Item,
    exchange: &[u32],
) -> Result<(), OutOfMemory>
    requires { AreDats mesh.now exchange.now }
    ensures { OnOk result (out.new.items ≡ out.old.items ++ line_of (item_line mesh.now number (item_of item.now) exchange.now)) }
{
    match item {
        Item::Free { site } => put_free(out, mesh, number, *site, exchange),
        Item::Reduce { site } => put_loop(out, number, b"reduce", *site),
        Item::Ordered { site } => put_loop(out, number, b"ordered", *site),
        Item::Host { .. } => put_host(out, number),
    }
}

/// Appends the line of a plan text for an item, by its number and the plans of the items.
pub fn put_item_at(
    out: &mut Vec<u8>,
    bound: &Bound,
    plans: &[ItemPlan],
    item: usize,
) -> Result<(), OutOfMemory>
    requires few { length (bound_of bound.now).trace < 2 ^ 32 }
    requires item { item < length (bound_of bound.now).trace }
    requires plan { item < length plans.now }
    requires dats { AreDats (bound_of bound.now).mesh (plan_in plans.now item).exchange }
    ensures { OnOk result (out.new.items ≡ out.old.items ++ line_of (item_line (bound_of bound.now).mesh item
        (item_at (bound_of bound.now) item) (plan_in plans.now item).exchange)) }
{
    let exchange = plans[item].exchange.as_slice();
    put_item(out, &bound.mesh, item as u32, &bound.trace[item], exchange)?;
    Ok(())
}

// The lines of all items.
fn put_items(out: &mut Vec<u8>, bound: &Bound, plans: &[ItemPlan]) -> Result<(), OutOfMemory>
    requires few { length (bound_of bound.now).trace < 2 ^ 32 }
    requires count { length plans.now ≡ length (bound_of bound.now).trace }
    requires dats { (k : ℕ) → k < length plans.now → AreDats (bound_of bound.now).mesh (plan_in plans.now k).exchange }
    ensures { OnOk result (out.new.items ≡ out.old.items ++ text_of_lines (item_lines (bound_of bound.now).mesh 0
        (bound_of bound.now).trace (map item_plan_of plans.now))) }
{
    for item in 0..plans.len() {
        put_item_at(out, bound, plans, item)?;
    }
    Ok(())
}

// The line of the sizes.
fn put_sizes(out: &mut Vec<u8>, ranks: u32, block: u32) -> Result<(), OutOfMemory>
    ensures { OnOk result (out.new.items
        ≡ out.old.items ++ line_of (codes "ranks" ∷ decimal ranks ∷ codes "block" ∷ decimal block ∷ [])) }
{
    out.extend_from_slice(b"ranks")?;
    put_number(out, ranks)?;
    put_count(out, b"block", block)?;
    out.extend_from_slice(b"\n")?;
    Ok(())
}

/// The text of a plan: a line for each set and rank with the elements that the rank owns, imports to execute and
/// imports otherwise, by local number; one for each Free loop that runs and each rank, with its colours; one for each
/// item, with the dats that it exchanges.
///
/// It fails only for want of memory.
pub fn write_plan(
    alloc: Global,
    bound: &Bound,
    ranks: &[RankMesh],
    plan: &Plan,
) -> Result<Vec<u8>, OutOfMemory>
    requires fits { Fits (bound_of bound.now) }
    requires ranks { (h : Halos) × Distributed (bound_of bound.now).mesh h ranks.now }
    requires plan { Proper (bound_of bound.now) ranks.now (plan_of plan.now) }
    ensures { IfOk result (λ v. v.items ≡ plan_text (bound_of bound.now) ranks.now (plan_of plan.now)) }
{
    bound.mesh.is_in_range();
    let mut out = Vec::new(alloc);
    out.extend_from_slice(b"op2plan 1\n")?;
    put_sizes(&mut out, plan.ranks, plan.block)?;
    put_all_halos(&mut out, &bound.mesh, ranks)?;
    put_all_sites(&mut out, &plan.sites)?;
    put_items(&mut out, bound, plan.items.as_slice())?;
    out.extend_from_slice(b"done\n")?;
    Ok(out)
}
