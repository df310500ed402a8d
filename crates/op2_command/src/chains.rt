// Chains of the loops of a bound program: their counts, and runs by them.

ghost use Rattle.std.specs.Prelude.{◌≡◌, ◌++◌, ℕ, List, All, length, Ok, IfOk, codes};
ghost use Rattle.std.specs.Fmt.{decimal};
ghost use Rattle.op_outside.specs.Outside.{Rose};
ghost use Rattle.job_inputs.specs.Readings.{AreNext};
ghost use Rattle.mesh_decl.specs.Owners.{AreOwners};
ghost use Rattle.bound_program.specs.Values.{bound_of};
ghost use Rattle.bound_program.specs.Fits.{Fits};
ghost use Rattle.run_model.specs.Ranges.{StartsInRange};
ghost use Rattle.deep_halo.specs.Runs.{stop_in};
ghost use Rattle.command_words.specs.Words.{names_by};
ghost use Rattle.command_words.specs.Laws.{AreFew};
ghost use Rattle.command_words.specs.Values.{chain_job_in, chain_options_in};
ghost use Rattle.answers.specs.Judgements.{AccessesAre};
ghost use Rattle.answers.specs.Answers.{ran, chain_answer, ChainAnswers};
ghost use Rattle.command_words.specs.Halts.{answer_of};
ghost use Rattle.job_inputs.specs.Inputs.{HasNarrowMaps};
ghost use Rattle.job_inputs.specs.Chains.{AnswersFrom};

use crate::faults::put_fault;
use answers::laws::runs_answer_on_cells;
use bound_program::Bound;
use chain_needs::chain_slices::slices;
use command_words::answer_lines::{Answer, Halt};
use command_words::{ChainJob, ChainOptions};
use deep_halo::{ChainOutcome, run_chains};
use job_inputs::kept_files::Kept;
use job_inputs::{owners_of, partition_of};
use loop_plan::plan_exists::narrow_meshes_fit_memory;
use mesh_decl::Owners;
use op_num::{OutOfMemory, put_u64};
use op_outside::Shelf;
use std::alloc::Global;

// How many items the program has, and how many chains and messages there are.
fn counts_text(
    alloc: Global,
    bound: &Bound,
    chains: u32,
    messages: u64,
) -> Result<Vec<u8>, OutOfMemory>
    ensures { IfOk result (λ v. v.items ≡ codes "ok items " ++ decimal (length (bound_of bound.now).trace) ++ codes " chains "
        ++ decimal chains ++ codes " messages " ++ decimal messages ++ codes "\n") }
{
    let mut out = Vec::new(alloc);
    out.extend_from_slice(b"ok items ")?;
    put_u64(&mut out, bound.trace.len() as u64)?;
    out.extend_from_slice(b" chains ")?;
    put_u64(&mut out, u64::from(chains))?;
    out.extend_from_slice(b" messages ")?;
    put_u64(&mut out, messages)?;
    out.extend_from_slice(b"\n")?;
    Ok(out)
}

// The answer of a run.
fn ran(alloc: Global, outcome: ChainOutcome) -> Result<Answer, OutOfMemory>
    ensures { IfOk result (λ a. answer_of a ≡ ran 0 (stop_in outcome.stop) outcome.out.items) }
{
    let Some(stop) = outcome.stop else {
        return Ok(Answer::Done(outcome.out));
    };
    let mut line = Vec::new(alloc);
    put_fault(&mut line, u64::from(stop.item), stop.element, stop.fault)?;
    Ok(Answer::Faulted {
        out: outcome.out,
        line,
    })
}

// What a job on chains answers, on the ranks of these owners.
fn chain_answer(
    alloc: Global,
    job: ChainJob,
    dumps: bool,
    bound: &Bound,
    owners: &Owners,
) -> Result<Answer, OutOfMemory>
    requires fits { Fits (bound_of bound.now) }
    requires obeyed { AccessesAre (bound_of bound.now) (Ok tt) }
    requires narrow { HasNarrowMaps (bound_of bound.now) }
    requires start { StartsInRange (bound_of bound.now) }
    requires owners { AreOwners (bound_of bound.now).mesh owners.now }
    ensures { IfOk result (λ a. answer_of a ≡ chain_answer (chain_job_in job) dumps (bound_of bound.now) owners.now) }
{
    narrow_meshes_fit_memory();
    runs_answer_on_cells();
    let sliced = slices(alloc, bound, owners)?;
    match job {
        ChainJob::CountsChains => {
            let text = counts_text(alloc, bound, sliced.chains(), sliced.messages())?;
            Ok(Answer::Done(text))
        }
        ChainJob::RunsChains => {
            let outcome = run_chains(alloc, bound, owners, &sliced, dumps)?;
            ran(alloc, outcome)
        }
    }
}

/// The answer of a job on the chains of a bound program with these options. The file of a partition, where the options
/// name one, is the next in `kept`.
pub fn chained<'a, F: Shelf>(
    alloc: Global,
    shelf: &mut F,
    kept: &mut Kept<'a>,
    job: ChainJob,
    options: &ChainOptions<'a>,
    bound: &Bound,
) -> Result<Answer, Halt<'a>>
    requires parting { All (λ name. F.lends shelf.old name) (names_by (chain_options_in options.now).parting) }
    requires next { AreNext (names_by (chain_options_in options.now).parting) kept.old }
    requires few { AreFew options.now.ranks }
    requires fits { Fits (bound_of bound.now) }
    requires obeyed { AccessesAre (bound_of bound.now) (Ok tt) }
    requires narrow { HasNarrowMaps (bound_of bound.now) }
    requires start { StartsInRange (bound_of bound.now) }
    ensures { AnswersFrom (F.told shelf.old) kept.old
        (λ files. ChainAnswers (chain_job_in job) (chain_options_in options.now) files (bound_of bound.now))
        (Rose (F.faults shelf.old) (F.faults shelf.new)) result }
{
    let text = partition_of(alloc, shelf, kept, options.parting)?;
    let owners = owners_of(alloc, options.ranks, options.parting, bound, &text)?;
    Ok(chain_answer(alloc, job, options.dumps, bound, &owners)?)
}
