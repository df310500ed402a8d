// The text of a schedule: its lines, and its steps as the plan judges them.

ghost use Rattle.std.specs.Prelude.{◌≡◌, ◌≤◌, length, option_map, slice_get, IfOk, IfErr, Ok};
ghost use Rattle.bound_program.specs.Values.{bound_of};
ghost use Rattle.loop_plan.specs.Planned.{outline_of};
ghost use Rattle.schedule_check.specs.Whole.{IsWhole};
ghost use Rattle.schedule_steps.specs.Reading.{Reads};
ghost use Rattle.command_words.specs.declared.answer_lines.limits.TheConstants.{SCHEDULE_BYTES};
ghost use Rattle.answers.specs.Said.{SaysSchedule};
ghost use Rattle.answers.specs.Judgements.{steps_in, end_line, IsTextRefused, IsStepRefused};
ghost use Rattle.command_words.specs.Halts.{StopsWhere};
ghost use Rattle.op2_command.specs.Chains.{CanRefuse, SaysFirst};

use command_words::answer_lines::{Failure, Halt, Limit, Refusal, most};
use loop_plan::planned_program::Planned;
use op_num::OutOfMemory;
use op_num::texts::Tokens;
use rank_exec::planned_run::judge_list;
use schedule_check::ScheduleRefusal;
use schedule_steps::text::{Line, ScheduleTextRefusal, read_schedule};
use schedule_steps::{Peak, Step};
use std::alloc::Global;

// A text that spells no steps.
fn unspelled<'a>(refusal: ScheduleTextRefusal) -> Halt<'a>
    ensures { StopsWhere (SaysSchedule refusal) result }
{
    match refusal {
        ScheduleTextRefusal::Header { line } => {
            Halt::Refused(Refusal::BadSchedule { number: 1, line })
        }
        ScheduleTextRefusal::Syntax { line } => {
            Halt::Refused(Refusal::BadSchedule { number: 2, line })
        }
        ScheduleTextRefusal::TooManySteps => Halt::Refused(Refusal::BeyondLimit {
            limit: Limit::ScheduleSteps,
            size: most(Limit::ScheduleSteps) + 1,
        }),
        ScheduleTextRefusal::OutOfMemory => Halt::Failed(Failure::OutOfMemory),
    }
}

/// The steps that a text spells, each with its line.
pub fn lines_of<'a>(alloc: Global, bytes: &[u8]) -> Result<Vec<Line>, Halt<'a>>
    requires few { length bytes.now ≤ SCHEDULE_BYTES }
    ensures ok { IfOk result (λ v. Reads bytes.now (Ok v.items)) }
    ensures err { IfErr result (StopsWhere (IsTextRefused bytes.now)) }
{
    match read_schedule(alloc, bytes) {
        Ok(lines) => Ok(lines),
        Err(refusal) => Err(unspelled(refusal)),
    }
}

/// The line of the last token of a text.
pub fn end_line(bytes: &[u8]) -> u32
    requires few { length bytes.now ≤ SCHEDULE_BYTES }
    ensures { result ≡ end_line bytes.now }
{
    let mut tokens = Tokens::new(bytes);
    while tokens.next().is_some() {}
    tokens.last()
}

// A step that is refused on its line, or the end.
fn unaccepted<'a>(line: Option<&Line>, end: u32, refusal: ScheduleRefusal) -> Halt<'a>
    requires { CanRefuse (option_map (λ l. l.now) line) refusal }
    ensures { StopsWhere (SaysFirst (option_map (λ l. l.now) line.entry) end refusal) result }
{
    let Some(line) = line else {
        return match refusal {
            ScheduleRefusal::Incomplete { missing } => {
                Halt::Refused(Refusal::LeftStep { line: end, missing })
            }
            _ => unreachable!(),
        };
    };
    match refusal {
        ScheduleRefusal::NoSuchStep => Halt::Refused(Refusal::BadStep {
            number: 1,
            line: line.line,
            step: line.step,
        }),
        ScheduleRefusal::Repeated => Halt::Refused(Refusal::BadStep {
            number: 2,
            line: line.line,
            step: line.step,
        }),
        ScheduleRefusal::TooEarly { missing } => Halt::Refused(Refusal::EarlyStep {
            line: line.line,
            step: line.step,
            missing,
        }),
        ScheduleRefusal::Incomplete { .. } => unreachable!(),
    }
}

// The steps of the lines.
fn steps_in(alloc: Global, lines: &[Line]) -> Result<Vec<Step>, OutOfMemory>
    ensures { IfOk result (λ v. v.items ≡ steps_in lines.now) }
{
    let mut steps = Vec::with_capacity(alloc, lines.len())?;
    let mut rest = lines;
    while let [line, more @ ..] = rest {
        steps.push(line.step)?;
        rest = more;
    }
    Ok(steps)
}

// The line of the step with this number, from 0, if there is one.
fn line_at(lines: &[Line], step: u64) -> Option<&Line>
    ensures { option_map (λ l. l.now) result ≡ slice_get lines.now step }
{
    lines.get(step as usize)
}

/// The steps of these lines, and their peak, where the plan accepts them; `end` is the line of the end.
pub fn judged<'a>(
    alloc: Global,
    planned: &Planned<'_>,
    lines: &[Line],
    end: u32,
) -> Result<(Vec<Step>, Peak), Halt<'a>>
    ensures steps { IfOk result (λ r. r.0.items ≡ steps_in lines.now) }
    ensures whole { IfOk result (λ r. IsWhole (bound_of planned.now.bound) planned.now.distribution.ranks.items planned.now.plan
        (steps_in lines.now) r.1) }
    ensures err { IfErr result
        (StopsWhere (IsStepRefused (outline_of planned.now) lines.now end)) }
{
    let steps = steps_in(alloc, lines)?;
    match judge_list(alloc, planned, &steps)? {
        Ok(peak) => Ok((steps, peak)),
        Err(refused) => Err(unaccepted(line_at(lines, refused.step), end, refused.refusal)),
    }
}
