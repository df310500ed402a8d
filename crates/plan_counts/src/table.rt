// The table of counts.

ghost use Rattle.std.specs.Prelude.{◌≡◌, ◌<◌, ◌++◌, ◌^◌, OnOk, IfOk, length};
ghost use Rattle.std.specs.List.{flat_map};
ghost use Rattle.local_mesh.specs.declared.halo_lists.types.Halos.{Halos};
ghost use Rattle.mesh_decl.specs.Mesh.{dat_count};
ghost use Rattle.bound_program.specs.Values.{bound_of, site_of};
ghost use Rattle.bound_program.specs.Fits.{Fits};
ghost use Rattle.loop_plan.specs.Values.{plan_of};
ghost use Rattle.loop_plan.specs.Distributed.{Distributed};
ghost use Rattle.loop_plan.specs.Needs.{AreOfDats};
ghost use Rattle.loop_plan.specs.Proper.{Proper};
ghost use Rattle.plan_counts.specs.Table.{loop_fields, head_fields, total_fields, totals_of, loops_from};
ghost use Rattle.plan_counts.specs.Table.{row_text, head_text, legend_text, counts_text};

use crate::fields::Fields;
use crate::loop_texts::{blamed, class_text, hundredths, kernel_name, place_text};
use crate::loops::loop_counts;
use crate::tallies::tallies_of;
use crate::totals::{Totals, no_totals, with_loop};
use crate::types::LoopCounts;
use bound_program::{Bound, Site};
use local_mesh::RankMesh;
use loop_plan::{Plan, bound_is_in_range};
use op_num::OutOfMemory;
use std::alloc::{AllocError, Global};

/// What the columns mean.
pub const LEGEND: &str = "
loop, name, place  the loop's number, from 0 in the order of the text, its kernel, and the place of its op_par_loop
class              free: its elements may run in any order; ordered: they run one after another, on one rank
argument           the first argument that makes it ordered, by its number from 1 and its dat
runs               how often it runs
exchanges          in how many of these runs dats are exchanged before it
messages, cells    how many messages these exchanges send, and how many values these carry
owned              how many elements its set has; each is owned by one rank
repeated           how many elements ranks run, in one run, that they don't own
imbalance          the elements of the rank that runs most, over the mean of all ranks
blocks             how many blocks all ranks have
colours, inner     how many colours the blocks of a rank have at most, and the elements of one block
";

// The fields of the loop of this number, which is declared so, with these counts.
fn loop_fields(
    alloc: Global,
    bound: &Bound,
    site: u32,
    declared: &Site,
    counts: &LoopCounts,
) -> Result<Fields, OutOfMemory>
    requires kernel { declared.now.kernel < length (bound_of bound.now).kernels }
    requires args { AreOfDats (dat_count (bound_of bound.now).mesh) declared.now.args.items }
    ensures { IfOk result (λ f. f ≡ loop_fields (bound_of bound.now) site (site_of declared.now) counts.now) }
{
    let mut fields = Fields::new(alloc);
    fields.push_number(alloc, site as u64)?;
    fields.push_text(alloc, kernel_name(&bound.kernels, declared.kernel))?;
    fields.push(place_text(alloc, declared.at)?)?;
    fields.push_text(alloc, class_text(declared.class))?;
    fields.push(blamed(alloc, &bound.mesh, &declared.args)?)?;
    fields.push_number(alloc, counts.runs)?;
    fields.push_number(alloc, counts.exchanges)?;
    fields.push_number(alloc, counts.messages)?;
    fields.push_number(alloc, counts.cells)?;
    fields.push_number(alloc, counts.owned)?;
    fields.push_number(alloc, counts.repeated)?;
    fields.push(hundredths(alloc, counts.imbalance)?)?;
    fields.push_number(alloc, counts.blocks)?;
    fields.push_number(alloc, counts.block_colours)?;
    fields.push_number(alloc, counts.inner_colours)?;
    Ok(fields)
}

// The fields of the line of sums.
fn total_fields(alloc: Global, totals: &Totals) -> Result<Fields, OutOfMemory>
    ensures { IfOk result (λ f. f ≡ total_fields totals.now) }
{
    let mut fields = Fields::new(alloc);
    fields.push_text(alloc, b"total")?;
    fields.push_text(alloc, b"-")?;
    fields.push_text(alloc, b"-")?;
    fields.push_text(alloc, b"-")?;
    fields.push_text(alloc, b"-")?;
    fields.push_number(alloc, totals.runs)?;
    fields.push_number(alloc, totals.exchanges)?;
    fields.push_number(alloc, totals.messages)?;
    fields.push_number(alloc, totals.cells)?;
    fields.push_number(alloc, totals.owned)?;
    fields.push_number(alloc, totals.repeated)?;
    fields.push_text(alloc, b"-")?;
    fields.push_number(alloc, totals.blocks)?;
    fields.push_text(alloc, b"-")?;
    fields.push_text(alloc, b"-")?;
    Ok(fields)
}

// The fields that stand over the columns.
fn head_fields(alloc: Global) -> Result<Fields, OutOfMemory>
    ensures { IfOk result (λ f. f ≡ head_fields) }
{
    let mut fields = Fields::new(alloc);
    fields.push_text(alloc, b"loop")?;
    fields.push_text(alloc, b"name")?;
    fields.push_text(alloc, b"place")?;
    fields.push_text(alloc, b"class")?;
    fields.push_text(alloc, b"argument")?;
    fields.push_text(alloc, b"runs")?;
    fields.push_text(alloc, b"exchanges")?;
    fields.push_text(alloc, b"messages")?;
    fields.push_text(alloc, b"cells")?;
    fields.push_text(alloc, b"owned")?;
    fields.push_text(alloc, b"repeated")?;
    fields.push_text(alloc, b"imbalance")?;
    fields.push_text(alloc, b"blocks")?;
    fields.push_text(alloc, b"colours")?;
    fields.push_text(alloc, b"inner")?;
    Ok(fields)
}

// Appends the lines of all loops; the sums over them.
fn put_loops(
    alloc: Global,
    out: &mut Vec<u8>,
    bound: &Bound,
    ranks: &[RankMesh],
    plan: &Plan,
    plain: bool,
) -> Result<Totals, OutOfMemory>
    requires fits { Fits (bound_of bound.now) }
    requires ranks { (h : Halos) × Distributed (bound_of bound.now).mesh h ranks.now }
    requires plan { Proper (bound_of bound.now) ranks.now (plan_of plan.now) }
    requires few { length (bound_of bound.now).sites < 2 ^ 32 }
    ensures lines { OnOk result (out.new.items ≡ out.old.items
        ++ flat_map (row_text plain) (loops_from (bound_of bound.now) ranks.now (plan_of plan.now) 0 (bound_of bound.now).sites)) }
    ensures totals { IfOk result (λ t. t
        ≡ totals_of (bound_of bound.now) ranks.now (plan_of plan.now) (length (bound_of bound.now).sites)) }
{
    bound_is_in_range();
    let tallies = tallies_of(alloc, bound, ranks, plan)?;
    let mut totals = no_totals();
    for site in 0..bound.sites.len() as u32 {
        let tally = tallies[site as usize];
        let counts = loop_counts(bound, ranks, plan, site, tally)?;
        let declared = &bound.sites[site as usize];
        let fields = loop_fields(alloc, bound, site, declared, &counts)?;
        fields.put_row(out, plain)?;
        totals = with_loop(totals, &counts)?;
    }
    Ok(totals)
}

// Appends the head, which stands over columns alone.
fn put_head(alloc: Global, out: &mut Vec<u8>, plain: bool) -> Result<(), OutOfMemory>
    ensures { OnOk result (out.new.items ≡ out.old.items ++ head_text plain) }
{
    if plain {
        return Ok(());
    }
    let fields = head_fields(alloc)?;
    fields.put_row(out, false)
}

// Appends the legend, which stands under columns alone.
fn put_legend(out: &mut Vec<u8>, plain: bool) -> Result<(), OutOfMemory>
    ensures { OnOk result (out.new.items ≡ out.old.items ++ legend_text plain) }
{
    if plain {
        return Ok(());
    }
    out.extend_from_slice(LEGEND.as_bytes())
}

/// The counts of a plan as a text: a line for each loop, in the order of the text, and one of sums. Where `plain` is
/// set the fields stand between single spaces, for scripts; else they stand in columns, with a head and a legend.
///
/// It takes time linear in the plan and in what ranks import, for each rank, and quadratic in the arguments of a loop.
/// An error is want of memory, also where 32 bits can't number the loops, or 64 bits can't count.
pub fn write_counts(
    alloc: Global,
    bound: &Bound,
    ranks: &[RankMesh],
    plan: &Plan,
    plain: bool,
) -> Result<Vec<u8>, OutOfMemory>
    requires fits { Fits (bound_of bound.now) }
    requires ranks { (h : Halos) × Distributed (bound_of bound.now).mesh h ranks.now }
    requires plan { Proper (bound_of bound.now) ranks.now (plan_of plan.now) }
    ensures { IfOk result (λ v. v.items ≡ counts_text plain (bound_of bound.now) ranks.now (plan_of plan.now)) }
{
    if bound.sites.len() > u32::MAX as usize {
        return Err(AllocError);
    }
    let mut out = Vec::new(alloc);
    put_head(alloc, &mut out, plain)?;
    let totals = put_loops(alloc, &mut out, bound, ranks, plan, plain)?;
    let fields = total_fields(alloc, &totals)?;
    fields.put_row(&mut out, plain)?;
    put_legend(&mut out, plain)?;
    Ok(out)
}
