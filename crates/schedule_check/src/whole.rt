// Whole lists of steps.
ghost use Rattle.std.specs.Prelude.{◌≡◌, [], IfOk, IfErr};
ghost use Rattle.bound_program.specs.Values.{bound_of};
ghost use Rattle.loop_plan.specs.Values.{plan_of};
ghost use Rattle.schedule_check.specs.PlanChecking.{checking, IsNew};
ghost use Rattle.schedule_check.specs.Whole.{IsWhole, IsUnaccepted};

use crate::checker::Checker;
use loop_plan::Steps;
use schedule_steps::Peak;
use step_judge::ScheduleRefusal;

/// Where a list of steps is refused, and why.
#[derive(Clone, Copy, PartialEq, Eq, Debug)]
pub struct Unaccepted {
    /// The number of the first step that is refused, from 0; the number of all steps where one is left at the end.
    pub step: u64,
    /// Why that step is refused, or which one is left.
    pub refusal: ScheduleRefusal,
}

/// Takes all steps that are still to come, one after another, and gives the peak of their list. Takes no memory.
///
/// `checker` is of a plan of which no step is taken; in `steps` what stands behind the refused step is still to come.
/// There is a peak exactly where the list is accepted. Else the error is that of the first step that is refused:
/// `NoSuchStep` where the plan hasn't the step; else `Repeated` where it was taken; else `TooEarly` where a step that
/// has to come before it isn't taken, with the first of these in standard order. Where no step is refused, it is
/// `Incomplete` with the first step in standard order that isn't taken.
pub fn take_all<S: Steps>(checker: Checker<'_>, steps: &mut S) -> Result<Peak, Unaccepted>
    requires { IsNew (bound_of checker.bound.now) checker.ranks.now (plan_of checker.plan.now)
        (checking (bound_of checker.bound.now) checker.ranks.now (plan_of checker.plan.now) checker.steps) }
    ensures whole { IfOk result
        (IsWhole (bound_of checker.entry.bound.now) checker.entry.ranks.now (plan_of checker.entry.plan.now) (S.left steps.old)) }
    ensures over { IfOk result (λ k. S.left steps.new ≡ []) }
    ensures unaccepted { IfErr result
        (IsUnaccepted (bound_of checker.entry.bound.now) checker.entry.ranks.now (plan_of checker.entry.plan.now)
        (S.left steps.old) (S.left steps.new)) }
{
    schedule_steps::tests_decide();
    schedule_steps::standard_is_accepted();
    step_judge::taken_lists_are_accepted();
    step_judge::marks::loads_give_the_peak();
    let mut checker = checker;
    let mut step = 0;
    while let Some(next) = steps.next_step() {
        if let Err(refusal) = checker.take(next) {
            return Err(Unaccepted { step, refusal });
        }
        step += 1;
    }
    match checker.finish() {
        Ok(peak) => Ok(peak),
        Err(refusal) => Err(Unaccepted { step, refusal }),
    }
}
