// The plan of a bound program on its ranks, with the blocks and colours that are asked for.

ghost use Rattle.std.specs.Prelude.{◌≡◌, ◌≤◌, ◌<◌, IfOk, IfErr, length};
ghost use Rattle.bound_program.specs.Values.{bound_of};
ghost use Rattle.bound_program.specs.Fits.{Fits};
ghost use Rattle.loop_plan.specs.Values.{plan_of};
ghost use Rattle.loop_plan.specs.Distributed.{Distributed};
ghost use Rattle.command_words.specs.declared.answer_lines.limits.TheConstants.{PLAN_BYTES};
ghost use Rattle.command_words.specs.Refusal.{Steps, BeyondLimit};
ghost use Rattle.command_words.specs.Laws.{HaveFewPlaces};
ghost use Rattle.command_words.specs.Values.{blocks_in};
ghost use Rattle.answers.specs.Judgements.{Least, Told, IsPlanned, IsUnplanned};
ghost use Rattle.command_words.specs.Halts.{StopsWhere};
ghost use Rattle.job_inputs.specs.Inputs.{colouring_by};
ghost use Rattle.job_inputs.specs.Plans.{SaysPlan};

use bound_program::Bound;
use command_words::Blocks;
use command_words::answer_lines::{Failure, Halt, Limit, Refusal};
use loop_plan::{Plan, PlanRefusal, plan};
use partition::distribute::Distribution;
use plan_cert::{CertRefusal, certify};
use std::alloc::Global;

// More steps than the limit.
fn beyond_steps<'a>(steps: u64) -> Halt<'a>
    ensures { StopsWhere (λ r. r ≡ BeyondLimit Steps steps) result }
{
    Halt::Refused(Refusal::BeyondLimit {
        limit: Limit::Steps,
        size: steps,
    })
}

// A plan with least colours, in blocks of this many places.
fn least_plan<'a>(
    alloc: Global,
    bound: &Bound,
    found: &Distribution,
    places: u32,
) -> Result<Plan, Halt<'a>>
    requires fits { Fits (bound_of bound.now) }
    requires ranks { Distributed (bound_of bound.now).mesh found.now.halos found.now.ranks.items }
    requires some { 0 < places }
    ensures ok { IfOk result (λ p. IsPlanned (Least places) (bound_of bound.now) found.now.ranks.items (plan_of p)) }
    ensures err { IfErr result (StopsWhere (IsUnplanned (Least places) (bound_of bound.now) found.now.ranks.items)) }
{
    match plan(alloc, bound, &found.ranks, &found.halos, places) {
        Ok(plan) => Ok(plan),
        Err(PlanRefusal::TooManySteps { steps }) => Err(beyond_steps(steps)),
        Err(PlanRefusal::OutOfMemory) => Err(Halt::Failed(Failure::OutOfMemory)),
    }
}

// A text that gives no plan, or one with more steps than the limit.
fn uncertified<'a>(refusal: CertRefusal) -> Halt<'a>
    ensures { StopsWhere (SaysPlan refusal) result }
{
    let (number, line) = match refusal {
        CertRefusal::Header { line } => (1, line),
        CertRefusal::Ranks { line } => (2, line),
        CertRefusal::Halo { line } => (3, line),
        CertRefusal::Site { line } => (4, line),
        CertRefusal::Item { line } => (5, line),
        CertRefusal::BlockConflict { line } => (6, line),
        CertRefusal::InnerConflict { line } => (7, line),
        CertRefusal::End { line } => (8, line),
        CertRefusal::TooManySteps { steps } => return beyond_steps(steps),
        CertRefusal::OutOfMemory => return Halt::Failed(Failure::OutOfMemory),
    };
    Halt::Refused(Refusal::BadPlan { number, line })
}

// The plan that a text gives.
fn told_plan<'a>(
    alloc: Global,
    bound: &Bound,
    found: &Distribution,
    text: &[u8],
) -> Result<Plan, Halt<'a>>
    requires fits { Fits (bound_of bound.now) }
    requires ranks { Distributed (bound_of bound.now).mesh found.now.halos found.now.ranks.items }
    requires few { length text.now ≤ PLAN_BYTES }
    ensures ok { IfOk result (λ p. IsPlanned (Told text.now) (bound_of bound.now) found.now.ranks.items (plan_of p)) }
    ensures err { IfErr result (StopsWhere (IsUnplanned (Told text.now) (bound_of bound.now) found.now.ranks.items)) }
{
    match certify(alloc, text, bound, &found.ranks, &found.halos) {
        Ok(plan) => Ok(plan),
        Err(refusal) => Err(uncertified(refusal)),
    }
}

/// The plan of a bound program on the ranks of a distribution, with the blocks and colours that are asked for: least
/// colours in blocks of one size, or those of a file. Where a file tells them, `text` is what it holds; else the text
/// isn't looked at. It has at most `PLAN_BYTES` bytes.
///
/// Refused are a text that gives no plan of the program, at its first line that isn't as awaited, and a plan with more
/// steps than the limit. Want of memory is the one failure.
pub fn plan_by<'a>(
    alloc: Global,
    bound: &Bound,
    found: &Distribution,
    blocks: Blocks<'_>,
    text: &[u8],
) -> Result<Plan, Halt<'a>>
    requires fits { Fits (bound_of bound.now) }
    requires ranks { Distributed (bound_of bound.now).mesh found.now.halos found.now.ranks.items }
    requires places { HaveFewPlaces (blocks_in blocks) }
    requires few { length text.now ≤ PLAN_BYTES }
    ensures ok { IfOk result (λ p. IsPlanned (colouring_by (blocks_in blocks.entry) text.now) (bound_of bound.now)
        found.now.ranks.items (plan_of p)) }
    ensures err { IfErr result (StopsWhere (IsUnplanned (colouring_by (blocks_in blocks.entry) text.now) (bound_of bound.now)
        found.now.ranks.items)) }
{
    match blocks {
        Blocks::OfSize(places) => least_plan(alloc, bound, found, places),
        Blocks::AsPlanned(_) => told_plan(alloc, bound, found, text),
    }
}
