// The lines of a plan text that are one for a program and its ranks, and its sizes.
ghost use Rattle.std.specs.Prelude.{◌≡◌, ◌<◌, ◌≤◌, ◌+◌, ◌++◌, ◌^◌, ℕ, List, [], ◌∷◌, Some};
ghost use Rattle.std.specs.Prelude.{IfOk, OnOk, MatchResult, length};
ghost use Rattle.std.specs.Fmt.{decimal};
ghost use Rattle.local_mesh.specs.declared.types.RankMesh.{RankMesh as RankMeshValue};
ghost use Rattle.mesh_decl.specs.Mesh.{set_count};
ghost use Rattle.op_num.specs.Lines.{line_of};
ghost use Rattle.bound_program.specs.Values.{BoundValue, bound_of};
ghost use Rattle.bound_program.specs.Fits.{Fits};
ghost use Rattle.loop_plan.specs.ItemPlans.{ArePlanned};
ghost use Rattle.loop_plan.specs.Pairs.{sets_of};
ghost use Rattle.loop_plan.specs.Places.{HaveSets};
ghost use Rattle.plan_cert.specs.Awaited.{Exactly, Sizes, Done, header_line, sizes_front};
ghost use Rattle.plan_cert.specs.Awaited.{awaited_halo, awaited_set, awaited_halos, awaited_item, awaited_items};
ghost use Rattle.plan_cert.specs.Judged.{FitsAmong, RefusesAmong, JudgesAmong};

use crate::types::CertRefusal;
use bound_program::Bound;
use local_mesh::{LocalSet, RankMesh};
use loop_plan::{ItemPlan, put_item_at, put_rank_halo};
use op_num::texts::line_texts::Lines;
use op_num::{OutOfMemory, put_u64, read_u64};
use std::alloc::Global;

/// Takes the first line, which says that the text is a plan; `Header` where another stands there.
pub fn take_header(lines: &mut Lines) -> Result<(), CertRefusal>
    ensures { (b : BoundValue) (meshes : List RankMeshValue) (size : ℕ)
        → JudgesAmong b meshes size (Exactly 1 header_line ∷ []) lines.old lines.new (λ _. []) result }
{
    if !lines.take(b"op2plan 1\n") {
        let line = lines.taken() + 1;
        return Err(CertRefusal::Header { line });
    }
    Ok(())
}

// The number behind `front`, up to an LF.
fn told_number(rest: &[u8], front: &[u8]) -> Option<u32>
    requires { length rest.now + 1 < 2 ^ 32 }
    ensures { (n : ℕ) (more : List ℕ) → n < 2 ^ 32 → rest.now ≡ front.now ++ (decimal n ++ 10 ∷ more) → result ≡ Some n }
{
    op_num::number_is_read();
    let behind = rest.strip_prefix(front)?;
    let digits = Lines::new(behind).next()?;
    match read_u64(digits) {
        Ok(number) if number <= u32::MAX as u64 => Some(number as u32),
        _ => None,
    }
}

// Appends what stands before the block size.
fn put_sizes_front(text: &mut Vec<u8>, ranks: u32) -> Result<(), OutOfMemory>
    ensures { OnOk result (text.new.items ≡ text.old.items ++ sizes_front ranks) }
{
    text.extend_from_slice(b"ranks ")?;
    put_u64(text, ranks as u64)?;
    text.extend_from_slice(b" block ")?;
    Ok(())
}

/// Takes the second line, which tells how many ranks there are, and gives its block size; `Ranks` where another stands
/// there.
pub fn take_sizes(alloc: Global, lines: &mut Lines, ranks: u32) -> Result<u32, CertRefusal>
    ensures some { IfOk result (λ size. (0 < size) × (size ≤ 65536)) }
    ensures judged { (b : BoundValue) (meshes : List RankMeshValue) → length meshes ≡ ranks → MatchResult result
        (λ size. FitsAmong b meshes size (Sizes ∷ []) lines.old lines.new [])
        (λ e. (size : ℕ) → RefusesAmong b meshes size (Sizes ∷ []) lines.old e) }
{
    let line = lines.taken() + 1;
    let mut text = Vec::new(alloc);
    put_sizes_front(&mut text, ranks)?;
    let Some(size) = told_number(lines.rest(), &text) else {
        return Err(CertRefusal::Ranks { line });
    };
    if size == 0 || size > 65536 {
        return Err(CertRefusal::Ranks { line });
    }
    put_u64(&mut text, size as u64)?;
    text.extend_from_slice(b"\n")?;
    if !lines.take(&text) {
        return Err(CertRefusal::Ranks { line });
    }
    Ok(size)
}

// The sets of a rank.
fn sets_on(ranks: &[RankMesh], rank: usize) -> &[LocalSet]
    requires { rank < length ranks.now }
    ensures { result.now ≡ sets_of ranks.now rank }
{
    &ranks[rank].sets
}

// The line of one rank's elements of a set.
fn take_halo(
    text: &mut Vec<u8>,
    lines: &mut Lines,
    bound: &Bound,
    ranks: &[RankMesh],
    set: u32,
    rank: usize,
) -> Result<(), CertRefusal>
    requires ranks { HaveSets (bound_of bound.now).mesh ranks.now }
    requires set { set < set_count (bound_of bound.now).mesh }
    requires rank { rank < length ranks.now }
    ensures { (size : ℕ) → JudgesAmong (bound_of bound.now) ranks.now size
        (awaited_halo (bound_of bound.now) ranks.now set rank ∷ []) lines.old lines.new (λ _. []) result }
{
    text.clear();
    put_rank_halo(text, &bound.mesh, sets_on(ranks, rank), set, rank as u32)?;
    if !lines.take(text) {
        let line = lines.taken() + 1;
        return Err(CertRefusal::Halo { line });
    }
    Ok(())
}

// The lines of a set, by rank.
fn take_set(
    text: &mut Vec<u8>,
    lines: &mut Lines,
    bound: &Bound,
    ranks: &[RankMesh],
    set: u32,
) -> Result<(), CertRefusal>
    requires ranks { HaveSets (bound_of bound.now).mesh ranks.now }
    requires set { set < set_count (bound_of bound.now).mesh }
    ensures { (size : ℕ) → JudgesAmong (bound_of bound.now) ranks.now size
        (awaited_set (bound_of bound.now) ranks.now set) lines.old lines.new (λ _. []) result }
{
    for rank in 0..ranks.len() {
        take_halo(text, lines, bound, ranks, set, rank)?;
    }
    Ok(())
}

/// Takes the lines of the halos of all sets on all ranks; `Halo` at the first that isn't the program's.
pub fn take_halos(
    alloc: Global,
    lines: &mut Lines,
    bound: &Bound,
    ranks: &[RankMesh],
) -> Result<(), CertRefusal>
    requires ranks { HaveSets (bound_of bound.now).mesh ranks.now }
    ensures { (size : ℕ) → JudgesAmong (bound_of bound.now) ranks.now size
        (awaited_halos (bound_of bound.now) ranks.now) lines.old lines.new (λ _. []) result }
{
    let mut text = Vec::new(alloc);
    for set in 0..bound.mesh.set_count() {
        take_set(&mut text, lines, bound, ranks, set)?;
    }
    Ok(())
}

// The line of an item.
fn take_item(
    text: &mut Vec<u8>,
    lines: &mut Lines,
    bound: &Bound,
    ranks: &[RankMesh],
    plans: &[ItemPlan],
    item: usize,
) -> Result<(), CertRefusal>
    requires fits { Fits (bound_of bound.now) }
    requires plans { ArePlanned (bound_of bound.now) ranks.now plans.now }
    requires item { item < length (bound_of bound.now).trace }
    ensures { (size : ℕ) → JudgesAmong (bound_of bound.now) ranks.now size
        (awaited_item (bound_of bound.now) ranks.now item ∷ []) lines.old lines.new (λ _. []) result }
{
    let _ = ranks.len();
    text.clear();
    put_item_at(text, bound, plans, item)?;
    if !lines.take(text) {
        let line = lines.taken() + 1;
        return Err(CertRefusal::Item { line });
    }
    Ok(())
}

/// Takes the lines of all items; `Item` at the first that isn't the program's.
pub fn take_items(
    alloc: Global,
    lines: &mut Lines,
    bound: &Bound,
    ranks: &[RankMesh],
    plans: &[ItemPlan],
) -> Result<(), CertRefusal>
    requires fits { Fits (bound_of bound.now) }
    requires plans { ArePlanned (bound_of bound.now) ranks.now plans.now }
    ensures { (size : ℕ) → JudgesAmong (bound_of bound.now) ranks.now size
        (awaited_items (bound_of bound.now) ranks.now) lines.old lines.new (λ _. []) result }
{
    let mut text = Vec::new(alloc);
    for item in 0..plans.len() {
        take_item(&mut text, lines, bound, ranks, plans, item)?;
    }
    Ok(())
}

/// Takes the last line; `End` where another stands there or anything behind it.
pub fn take_end(lines: &mut Lines) -> Result<(), CertRefusal>
    ensures judged { (b : BoundValue) (meshes : List RankMeshValue) (size : ℕ)
        → JudgesAmong b meshes size (Done ∷ []) lines.old lines.new (λ _. []) result }
    ensures rest { OnOk result (lines.new.rest ≡ []) }
{
    let line = lines.taken() + 1;
    if !lines.take(b"done\n") {
        return Err(CertRefusal::End { line });
    }
    if !lines.rest().is_empty() {
        return Err(CertRefusal::End { line });
    }
    Ok(())
}
