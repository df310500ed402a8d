// A step in its turn, and the end.
ghost use Rattle.std.specs.Prelude.{◌≡◌, OnOk, OnErr};
ghost use Rattle.schedule_steps.specs.Outline.{Outline};
ghost use Rattle.step_judge.specs.Marked.{outline_of, taken, TakesOne};
ghost use Rattle.step_judge.specs.Verdicts.{judged, ended};
ghost use Rattle.step_judge.specs.Wanted.{AreMarksOf};

use crate::marks::StepMarks;
use crate::refusal::ScheduleRefusal;
use crate::search::first_wanted;
use schedule_steps::Step;

/// Takes the step, or says why not; then no mark changes. Takes no memory.
///
/// `NoSuchStep` where the plan hasn't the step; else `Repeated` where it was taken; else `TooEarly` where a step that
/// has to come before it isn't taken, with the first of these in standard order.
pub fn take_step(marks: &mut StepMarks, step: Step) -> Result<(), ScheduleRefusal>
    ensures answer { (o : Outline) → AreMarksOf o marks.old → result ≡ judged o (taken marks.old) step }
    ensures ok { OnOk result (TakesOne marks.old marks.new step) }
    ensures err { OnErr result (marks.new ≡ marks.old) }
{
    schedule_steps::tests_decide();
    schedule_steps::standard_is_accepted();
    crate::marks::alike_outlines_judge_alike();
    if !marks.has_step(step) {
        return Err(ScheduleRefusal::NoSuchStep);
    }
    if marks.is_taken(step) {
        return Err(ScheduleRefusal::Repeated);
    }
    if marks.is_ready(step) {
        marks.mark(step);
        return Ok(());
    }
    match first_wanted(marks, Some(step)) {
        Some(missing) => Err(ScheduleRefusal::TooEarly { missing }),
        None => unreachable!(),
    }
}

/// Ends the schedule: `Incomplete` where a step is not taken, with the first of these in standard order. Takes no
/// memory.
pub fn end_steps(marks: &StepMarks) -> Result<(), ScheduleRefusal>
    ensures { (o : Outline) → AreMarksOf o marks.now → result ≡ ended o (taken marks.now) }
{
    match first_wanted(marks, None) {
        Some(missing) => Err(ScheduleRefusal::Incomplete { missing }),
        None => Ok(()),
    }
}
