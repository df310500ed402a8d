// The first of an item's messages that has a wanted step.
ghost use Rattle.std.specs.Prelude.{◌≡◌, ◌<◌, ◌&&◌, true, length};
ghost use Rattle.schedule_steps.specs.Outline.{Outline};
ghost use Rattle.schedule_steps.specs.Standard.{below, sends_of, receives_of};
ghost use Rattle.schedule_steps.specs.Judged.{is_step, first_of};
ghost use Rattle.step_judge.specs.Marked.{item_at, outline_of};
ghost use Rattle.step_judge.specs.Wanted.{wanted, IsPlanned, AreMarksOf};

use crate::elements::is_wanted;
use crate::marks::StepMarks;
use schedule_steps::Step;

// Whether the plan has the step, and it is wanted.
fn has_wanted(marks: &StepMarks, step: Step, later: Option<Step>) -> bool
    requires later { IsPlanned (outline_of marks.now) later }
    ensures { result ≡ (is_step (outline_of marks.now) step && wanted marks.now later step) }
{
    schedule_steps::tests_decide();
    if !marks.has_step(step) {
        return false;
    }
    is_wanted(marks, step, later)
}

// The first wanted send of a rank.
fn first_send(marks: &StepMarks, later: Option<Step>, item: u32, from: u32) -> Option<Step>
    requires item { item < length marks.now.items }
    requires free { (item_at marks.now item).free ≡ true }
    requires rank { from < marks.now.ranks }
    requires later { IsPlanned (outline_of marks.now) later }
    ensures { (o : Outline) → AreMarksOf o marks.now → result ≡ first_of (wanted marks.now later) (sends_of o item from) }
{
    for to in 0..marks.ranks() {
        let step = Step::Send { item, from, to };
        if has_wanted(marks, step, later) {
            return Some(step);
        }
    }
    None
}

// The first wanted receive of a rank.
fn first_receive(marks: &StepMarks, later: Option<Step>, item: u32, rank: u32) -> Option<Step>
    requires item { item < length marks.now.items }
    requires free { (item_at marks.now item).free ≡ true }
    requires rank { rank < marks.now.ranks }
    requires later { IsPlanned (outline_of marks.now) later }
    ensures { (o : Outline) → AreMarksOf o marks.now → result ≡ first_of (wanted marks.now later) (receives_of o item rank) }
{
    for from in 0..marks.ranks() {
        let step = Step::Recv { item, rank, from };
        if has_wanted(marks, step, later) {
            return Some(step);
        }
    }
    None
}

/// The first wanted send of an item, in standard order.
pub fn first_of_sends(marks: &StepMarks, later: Option<Step>, item: u32) -> Option<Step>
    requires item { item < length marks.now.items }
    requires free { (item_at marks.now item).free ≡ true }
    requires later { IsPlanned (outline_of marks.now) later }
    ensures { (o : Outline) → AreMarksOf o marks.now → result ≡ first_of (wanted marks.now later) (below (sends_of o item) o.ranks) }
{
    for from in 0..marks.ranks() {
        if let Some(step) = first_send(marks, later, item, from) {
            return Some(step);
        }
    }
    None
}

/// The first wanted receive of an item, in standard order.
pub fn first_of_receives(marks: &StepMarks, later: Option<Step>, item: u32) -> Option<Step>
    requires item { item < length marks.now.items }
    requires free { (item_at marks.now item).free ≡ true }
    requires later { IsPlanned (outline_of marks.now) later }
    ensures { (o : Outline) → AreMarksOf o marks.now → result ≡ first_of (wanted marks.now later) (below (receives_of o item) o.ranks) }
{
    for rank in 0..marks.ranks() {
        if let Some(step) = first_receive(marks, later, item, rank) {
            return Some(step);
        }
    }
    None
}
