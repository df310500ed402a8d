// What a plan costs.

ghost use Rattle.bound_program.specs.Values.{bound_of};
ghost use Rattle.job_inputs.specs.Chains.{AnswersBy};
ghost use Rattle.job_inputs.specs.Plans.{planned_of};
ghost use Rattle.tool_command.specs.ToolAnswers.{CountAnswers};

use command_words::answer_lines::{Answer, Halt};
use loop_plan::planned_program::Planned;
use plan_counts::write_counts;
use std::alloc::Global;

/// The answer of telling what a plan costs.
pub fn counted<'a>(alloc: Global, planned: &Planned<'_>, plain: bool) -> Result<Answer, Halt<'a>>
    ensures { AnswersBy (CountAnswers plain (bound_of planned.now.bound) (planned_of planned.now)) result }
{
    let ranks = &planned.distribution.ranks;
    let text = write_counts(alloc, planned.bound, ranks, &planned.plan, plain)?;
    Ok(Answer::Done(text))
}
