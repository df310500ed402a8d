// Programs bound to the entries of a mesh text.

ghost use Rattle.std.specs.Prelude.{ℕ, List, map, Ok, IfOk};
ghost use Rattle.c_tree.specs.Reads.{Reads};
ghost use Rattle.c_tree.specs.View.{program_of};
ghost use Rattle.kernel_model.specs.View.{resolved_of};
ghost use Rattle.mesh_decl.specs.Spelling.{Spells};
ghost use Rattle.name_resolution.specs.Programs.{Resolves};
ghost use Rattle.bound_program.specs.Refusals.{JudgesBy};
ghost use Rattle.bound_program.specs.Fits.{Fits};
ghost use Rattle.bound_program.specs.Limits.{max_trace};
ghost use Rattle.bound_program.specs.Values.{bound_of, site_of};
ghost use Rattle.main_declarations.specs.Walks.{walked};
ghost use Rattle.bound_program.specs.Steps.{Block};
ghost use Rattle.bound_program.specs.Trace.{main_events};
ghost use Rattle.bound_program.specs.Limited.{unrolled};
ghost use Rattle.bound_program.specs.Unrolling.{steps_of, seen, Gives};
ghost use Rattle.loop_bind.specs.Weights.{trace};
ghost use Rattle.loop_bind.specs.Bound.{text, happens, bound};

use crate::laws::bound_programs_fit;
use crate::main_text::judged_hosts;
use crate::source_fits::{resolved_sources_are, spelled_entries_fit};
use crate::told::with_told;
use crate::weights::judged_weight;
use bound_program::refusals::BindRefusal;
use bound_program::trace::{Step, Unrolled, unroll_main};
use bound_program::{Bound, Site};
use c_tree::Program;
use kernel_model::types::Resolved;
use main_declarations::judged_tops;
use main_declarations::names::{Declared, KernelConstants, Source, Spot};
use mesh_decl::Entries;
use std::alloc::Global;

// The text, judged in its order: what it declares, and the steps of `main`.
fn judged_text(
    alloc: Global,
    program: &Program,
    resolved: &Resolved,
    entries: &Entries,
) -> Result<(Declared, Vec<Step>), BindRefusal>
    ensures { JudgesBy (λ w. walked w.0 w.1.items) result (text (program_of program.now) resolved.now entries.now.entries) }
{
    let constants = KernelConstants::new(alloc, &resolved.consts)?;
    let source = Source {
        alloc,
        places: &program.places,
        consts: &constants,
        entries,
    };
    let mut k = Declared::new(alloc);
    judged_tops(&source, &mut k, &program.tops)?;
    let outermost = Spot {
        is_nested: false,
        in_for: false,
    };
    let mut steps = Vec::new(alloc);
    judged_hosts(&source, &program.main.body, &mut k, &mut steps, outermost)?;
    Ok((k, steps))
}

// What the steps of `main` unroll to.
fn unrolled_steps(alloc: Global, steps: Vec<Step>, sites: &[Site]) -> Result<Unrolled, BindRefusal>
    ensures { Gives result (unrolled max_trace (main_events (map site_of sites.now) (Block (steps_of steps.items)))) }
{
    let body = Step::block(steps);
    unroll_main(alloc, &body, sites)
}

// What `main` does, under both limits.
#[tactic(auto, using(crate::proofs::Outcomes::unrolled_stops, crate::proofs::Outcomes::weight_stops, crate::proofs::Outcomes::trace_goes))]
fn judged_trace(alloc: Global, k: &Declared, steps: Vec<Step>) -> Result<Unrolled, BindRefusal>
    ensures { JudgesBy seen result (trace k.now.mesh (happens (walked k.now steps.items))) }
{
    let unrolled = unrolled_steps(alloc, steps, &k.sites)?;
    judged_weight(&k.mesh, &unrolled.items)?;
    Ok(unrolled)
}

// The bound program of a source over the entries of a mesh text, or the first refusal.
fn judged_program(
    alloc: Global,
    program: &Program,
    resolved: Resolved,
    entries: &Entries,
) -> Result<Bound, BindRefusal>
    ensures { JudgesBy bound_of result (bound (program_of program.now) resolved entries.now.entries) }
{
    let (mut k, steps) = judged_text(alloc, program, &resolved, entries)?;
    let unrolled = judged_trace(alloc, &k, steps)?;
    with_told(alloc, &unrolled.values, &mut k.vars)?;
    Ok(Bound {
        mesh: k.mesh,
        kernels: resolved.kernels,
        sites: k.sites,
        vars: k.vars,
        trace: unrolled.items,
    })
}

/// The bound program of a source over the entries of a mesh text, or the first refusal: of the text in its order, then
/// of `main` as it is unrolled, then of the limit on what it prints.
///
/// `resolved` are the kernels and constants that `resolve` gave for this program; they become part of the bound
/// program, so they are taken by value.
///
/// # Errors
/// Exactly the refusal that is defined for these, with its place. Beside want of memory, `OutOfMemory` stands for
/// counts that their numbers cannot hold: 2^32 variables, cells or loops, and a print weight of 2^64 bytes.
pub fn bind(
    alloc: Global,
    program: &Program,
    resolved: Resolved,
    entries: &Entries,
) -> Result<Bound, BindRefusal>
    // What is answered is the judgement, unless memory runs out.
    ensures judged { JudgesBy bound_of result (bound (program_of program.now) resolved entries.now.entries) }
    // What is bound fits, where the source was read, this is what it resolves to, and the entries are those of a mesh
    // text.
    ensures fits { (source mesh : List ℕ) → Reads source (program_of program.now)
        → Resolves (program_of program.now) (Ok (resolved_of resolved))
        → Spells mesh entries.now.entries → IfOk result (λ b. Fits (bound_of b)) }
{
    resolved_sources_are();
    spelled_entries_fit();
    bound_programs_fit();
    judged_program(alloc, program, resolved, entries)
}
