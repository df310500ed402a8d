// The lines of loops, which tell the colours.
ghost use Rattle.std.specs.Prelude.{◌≡◌, ◌<◌, ◌++◌, ◌^◌, [], ◌∷◌, ℕ, true, map, IfOk, OnOk, slice_index, length};
ghost use Rattle.mesh_decl.specs.Mesh.{set_count};
ghost use Rattle.local_mesh.specs.declared.halo_lists.types.Halos.{Halos};
ghost use Rattle.bound_program.specs.Values.{bound_of};
ghost use Rattle.bound_program.specs.Fits.{Fits, site_at};
ghost use Rattle.loop_plan.specs.Distributed.{Distributed};
ghost use Rattle.loop_plan.specs.Needs.{IsInRange};
ghost use Rattle.loop_plan.specs.Places.{reducing, places_of, runs_free, HaveSets};
ghost use Rattle.loop_plan.specs.Proper.{Separate, HasColours, IsSitePlan};
ghost use Rattle.loop_plan.specs.SitePlans.{AreSitePlans};
ghost use Rattle.loop_plan.specs.Values.{entries_of, site_plan_of};
ghost use Rattle.plan_cert.specs.Awaited.{ColoursOf, awaited_ranks, awaited_sites};
ghost use Rattle.plan_cert.specs.Certified.{lists_of, colours_in};
ghost use Rattle.plan_cert.specs.Judged.{JudgesAmong};
ghost use Rattle.plan_cert.specs.Told.{site_front};

use crate::types::CertRefusal;
use crate::words::told_line;
use bound_program::Bound;
use colouring::block_plan::count;
use colouring::{Clash, Colours, IncArg, find_clash};
use local_mesh::RankMesh;
use loop_plan::{SitePlan, SitePlans, args_of, places_by_rank, reducing_args, running_loops};
use op_num::texts::line_texts::Lines;
use op_num::{OutOfMemory, put_u64};
use std::alloc::Global;

// Appends what stands in front of a loop's colours on a rank.
fn put_site_front(text: &mut Vec<u8>, site: u32, rank: u32, places: u32) -> Result<(), OutOfMemory>
    ensures { OnOk result (text.new.items ≡ text.old.items ++ site_front site rank places) }
{
    text.extend_from_slice(b"site ")?;
    put_u64(text, site as u64)?;
    text.extend_from_slice(b" rank ")?;
    put_u64(text, rank as u64)?;
    text.extend_from_slice(b" places ")?;
    put_u64(text, places as u64)?;
    text.extend_from_slice(b" blocks")?;
    Ok(())
}

// A loop that runs on these ranks, in blocks of this size: its number, the arguments that reduce, and by rank how many
// places it has.
#[derive(Clone, Copy)]
struct Loop<'a> {
    site: u32,
    args: &'a [IncArg],
    places: &'a [u32],
    size: u32,
}

// The colours of a loop on a rank.
fn take_colours(
    alloc: Global,
    lines: &mut Lines,
    bound: &Bound,
    ranks: &[RankMesh],
    of: &Loop,
    rank: usize,
) -> Result<Colours, CertRefusal>
    requires fits { Fits (bound_of bound.now) }
    requires ranks { (h : Halos) × Distributed (bound_of bound.now).mesh h ranks.now }
    requires site { of.now.site < length (bound_of bound.now).sites }
    requires args { of.now.args.now ≡ reducing (site_at (bound_of bound.now) of.now.site).args }
    requires places { (r : ℕ) → r < length ranks.now
        → slice_index of.now.places.now r ≡ places_of ranks.now (site_at (bound_of bound.now) of.now.site) r }
    requires count { length of.now.places.now ≡ length ranks.now }
    requires size { 0 < of.now.size }
    requires rank { rank < length ranks.now }
    ensures judged { JudgesAmong (bound_of bound.now) ranks.now of.now.size (ColoursOf of.now.site rank ∷ []) lines.old lines.new
        (λ c. lists_of c ∷ []) result }
    ensures separate { IfOk result (HasColours (bound_of bound.now) ranks.now Separate of.now.size of.now.site rank) }
{
    let number = lines.taken() + 1;
    let places = of.places[rank];
    let mut front = Vec::new(alloc);
    put_site_front(&mut front, of.site, rank as u32, places)?;
    let Some(line) = lines.next() else {
        return Err(CertRefusal::Site { line: number });
    };
    let Some(colours) = told_line(alloc, line, &front, count(places, of.size), places)? else {
        return Err(CertRefusal::Site { line: number });
    };
    let mesh = &ranks[rank];
    match find_clash(alloc, &bound.mesh, mesh, of.args, places, of.size, &colours)? {
        None => Ok(colours),
        Some(Clash::Blocks) => Err(CertRefusal::BlockConflict { line: number }),
        Some(Clash::Places) => Err(CertRefusal::InnerConflict { line: number }),
    }
}

// The colours of one rank more.
fn push_colours(colours: &mut Vec<Colours>, told: Colours) -> Result<(), OutOfMemory>
    ensures { OnOk result (colours.new.items ≡ colours.old.items ++ told ∷ []) }
{
    colours.push(told)?;
    Ok(())
}

// The plan of a loop, from its lines by rank.
fn take_loop(
    alloc: Global,
    lines: &mut Lines,
    bound: &Bound,
    ranks: &[RankMesh],
    site: u32,
    size: u32,
) -> Result<SitePlan, CertRefusal>
    requires fits { Fits (bound_of bound.now) }
    requires ranks { (h : Halos) × Distributed (bound_of bound.now).mesh h ranks.now }
    requires sets { HaveSets (bound_of bound.now).mesh ranks.now }
    requires site { site < length (bound_of bound.now).sites }
    requires size { 0 < size }
    ensures judged { JudgesAmong (bound_of bound.now) ranks.now size (awaited_ranks (bound_of bound.now) ranks.now site) lines.old lines.new
        (λ p. map lists_of p.colours.items) result }
    ensures plan { IfOk result (λ p. IsSitePlan (bound_of bound.now) ranks.now size site (site_plan_of p)) }
{
    let places = places_by_rank(alloc, bound, ranks, site)?;
    let args = reducing_args(alloc, args_of(bound, site))?;
    let mut colours = Vec::new(alloc);
    for rank in 0..ranks.len() {
        let of = Loop {
            site,
            args: &args,
            places: &places,
            size,
        };
        let told = take_colours(alloc, lines, bound, ranks, &of, rank)?;
        push_colours(&mut colours, told)?;
    }
    Ok(SitePlan { places, colours })
}

/// Takes the lines of the loops that run, and gives their plans.
pub fn take_sites(
    alloc: Global,
    lines: &mut Lines,
    bound: &Bound,
    ranks: &[RankMesh],
    size: u32,
) -> Result<SitePlans, CertRefusal>
    requires fits { Fits (bound_of bound.now) }
    requires few { length (bound_of bound.now).sites < 2 ^ 32 }
    requires range { IsInRange (bound_of bound.now) }
    requires ranks { (h : Halos) × Distributed (bound_of bound.now).mesh h ranks.now }
    requires sets { HaveSets (bound_of bound.now).mesh ranks.now }
    requires size { 0 < size }
    ensures judged { JudgesAmong (bound_of bound.now) ranks.now size
        (awaited_sites (bound_of bound.now) ranks.now (length (bound_of bound.now).sites)) lines.old lines.new
        (λ v. colours_in (entries_of v)) result }
    ensures plans { IfOk result (λ v.
        AreSitePlans (bound_of bound.now) ranks.now size (length (bound_of bound.now).sites) (entries_of v)) }
{
    let runs = running_loops(alloc, bound)?;
    let mut plans = SitePlans::new(alloc);
    for site in 0..bound.sites.len() as u32 {
        if runs[site as usize] {
            let plan = take_loop(alloc, lines, bound, ranks, site, size)?;
            plans.add(site, plan)?;
        }
    }
    Ok(plans)
}
