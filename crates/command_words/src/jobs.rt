// The jobs: what is asked for by the words JOB, INPUT and MESH, with the options.

ghost use Rattle.std.specs.Prelude.{◌≡◌, option_map};
ghost use Rattle.mesh_gen.specs.declared.places.TheConstants.{MAX_SIDE};
ghost use Rattle.command_words.specs.Words.{by_job, on_files, where_so, samples, converts, source_alone};
ghost use Rattle.command_words.specs.Words.{plans, chains, plans_or_chains, form_of, number_to, InFiles};
ghost use Rattle.command_words.specs.Values.{input_in, command_of, job_in, chain_job_in, option_words_of};

use crate::asked::ChainJob::{CountsChains, RunsChains};
use crate::asked::PlanJob::{Check, RunsPlan, ShowsPlan, ShowsSchedule};
use crate::asked::{Asked, ChainJob, Input, PlanJob};
use crate::options::{
    OptionWords, chain_options_of, goes_to_the_end, is_unplanned, is_whole, number_to, options_of,
    plans_itself, runs_nothing, stops_at_an_item,
};
use crate::sides::Side;
use mesh_decl::text::Form;
use mesh_gen::MAX_SIDE;

/// The words behind the job's name, and the values of the options.
#[derive(Clone, Copy, Debug)]
pub struct JobWords<'a> {
    /// The word INPUT.
    pub input: &'a str,
    /// The word MESH, where it stands.
    pub mesh: Option<&'a str>,
    /// The values of the options.
    pub options: OptionWords<'a>,
}

/// What is asked for by the job's name.
pub fn by_job<'a>(job: &str, words: &JobWords<'a>) -> Option<Asked<'a>>
    ensures { option_map command_of result
        ≡ by_job job.now words.now.input.now (option_map (λ s. s.now) words.now.mesh) (option_words_of words.now.options) }
{
    let options = &words.options;
    if job == "run" {
        either_where(goes_to_the_end(options), RunsPlan, RunsChains, words)
    } else if job == "sample" {
        samples_where(is_whole(options), words)
    } else if job == "state" {
        plans_where(stops_at_an_item(options), RunsPlan, words)
    } else if job == "convert" {
        converts(words)
    } else if job == "translate" {
        let source = source_alone(words)?;
        Some(Asked::Translate { source })
    } else if job == "restore" {
        let source = source_alone(words)?;
        Some(Asked::Restore { source })
    } else if job == "check" {
        either_where(is_whole(options), Check, CountsChains, words)
    } else if job == "plan" {
        plans_where(plans_itself(options), ShowsPlan, words)
    } else if job == "schedule" {
        plans_where(goes_to_the_end(options), ShowsSchedule, words)
    } else {
        None
    }
}

// A job on the plan of SOURCE and MESH, where its options allow it.
fn plans_where<'a>(allowed: bool, job: PlanJob, words: &JobWords<'a>) -> Option<Asked<'a>>
    ensures { option_map command_of result ≡ where_so allowed (on_files (plans (job_in job)) words.now.input.now
        (option_map (λ s. s.now) words.now.mesh) (option_words_of words.now.options)) }
{
    if allowed {
        plans(job, in_files(words)?, &words.options)
    } else {
        None
    }
}

// A job on the chains of SOURCE and MESH where `--chain` stands, and else on their plan, where its options allow it.
fn either_where<'a>(
    allowed: bool,
    plan: PlanJob,
    chain: ChainJob,
    words: &JobWords<'a>,
) -> Option<Asked<'a>>
    ensures { option_map command_of result ≡ where_so allowed
        (on_files (plans_or_chains (job_in plan) (chain_job_in chain)) words.now.input.now
        (option_map (λ s. s.now) words.now.mesh) (option_words_of words.now.options)) }
{
    if allowed {
        plans_or_chains(plan, chain, in_files(words)?, &words.options)
    } else {
        None
    }
}

// `sample SIDE`, where its options allow it.
fn samples_where<'a>(allowed: bool, words: &JobWords<'a>) -> Option<Asked<'a>>
    ensures { option_map command_of result ≡ where_so allowed
        (samples words.now.input.now (option_map (λ s. s.now) words.now.mesh) (option_words_of words.now.options)) }
{
    if allowed { samples(words) } else { None }
}

// SOURCE and MESH.
fn in_files<'a>(words: &JobWords<'a>) -> Option<Input<'a>>
    ensures { option_map input_in result ≡ option_map (InFiles words.now.input.now) (option_map (λ s. s.now) words.now.mesh) }
{
    match words.mesh {
        None => None,
        Some(mesh) => Some(Input::InFiles {
            source: words.input,
            mesh,
        }),
    }
}

// How many cells a side of the sample's grid has.
fn side_of(word: &str) -> Option<Side>
    ensures { option_map (λ s. s.cells) result ≡ number_to MAX_SIDE word.now }
{
    let cells = number_to(MAX_SIDE, word)?;
    Some(Side { cells })
}

// `sample SIDE`.
fn samples<'a>(words: &JobWords<'a>) -> Option<Asked<'a>>
    ensures { option_map command_of result
        ≡ samples words.now.input.now (option_map (λ s. s.now) words.now.mesh) (option_words_of words.now.options) }
{
    if words.mesh.is_some() {
        return None;
    }
    let side = side_of(words.input)?;
    plans_or_chains(
        RunsPlan,
        RunsChains,
        Input::OfSample { side },
        &words.options,
    )
}

// `convert MESH`, with `--form`.
fn converts<'a>(words: &JobWords<'a>) -> Option<Asked<'a>>
    ensures { option_map command_of result
        ≡ converts words.now.input.now (option_map (λ s. s.now) words.now.mesh) (option_words_of words.now.options) }
{
    if words.mesh.is_some() {
        return None;
    }
    if runs_nothing(&words.options) {
        Some(Asked::Convert {
            form: form_of(words.options.form)?,
            mesh: words.input,
        })
    } else {
        None
    }
}

// SOURCE, for the jobs that take nothing else: no mesh and no option.
fn source_alone<'a>(words: &JobWords<'a>) -> Option<&'a str>
    ensures { option_map (λ s. s.now) result
        ≡ source_alone words.now.input.now (option_map (λ s. s.now) words.now.mesh) (option_words_of words.now.options) }
{
    let options = &words.options;
    if words.mesh.is_none() && options.form.is_none() && runs_nothing(options) {
        Some(words.input)
    } else {
        None
    }
}

// A job on the plan of a program over a mesh, with a plan's options.
fn plans<'a>(job: PlanJob, input: Input<'a>, options: &OptionWords<'a>) -> Option<Asked<'a>>
    ensures { option_map command_of result ≡ plans (job_in job) (input_in input.entry) (option_words_of options.now) }
{
    if options.form.is_some() || options.chains {
        None
    } else {
        Some(Asked::Plan {
            job,
            options: options_of(options)?,
            input,
        })
    }
}

// A job on its chains, with none of the options that say by which plan a program runs, and which of its items.
fn chains<'a>(job: ChainJob, input: Input<'a>, options: &OptionWords<'a>) -> Option<Asked<'a>>
    ensures { option_map command_of result ≡ chains (chain_job_in job) (input_in input.entry) (option_words_of options.now) }
{
    if options.form.is_none() && is_unplanned(options) {
        Some(Asked::Chains {
            job,
            options: chain_options_of(options)?,
            input,
        })
    } else {
        None
    }
}

// By chains where `--chain` stands, and else by a plan.
fn plans_or_chains<'a>(
    plan: PlanJob,
    chain: ChainJob,
    input: Input<'a>,
    options: &OptionWords<'a>,
) -> Option<Asked<'a>>
    ensures { option_map command_of result
        ≡ plans_or_chains (job_in plan) (chain_job_in chain) (input_in input.entry) (option_words_of options.now) }
{
    if options.chains {
        chains(chain, input, options)
    } else {
        plans(plan, input, options)
    }
}

// A version of the mesh format; the second, where no word says which.
fn form_of(word: Option<&str>) -> Option<Form>
    ensures { result ≡ form_of (option_map (λ s. s.now) word.entry) }
{
    let Some(word) = word else {
        return Some(Form::Two);
    };
    match number_to(2, word)? {
        1 => Some(Form::One),
        _ => Some(Form::Two),
    }
}
