// The first of a rank's elements that has a wanted step.
ghost use Rattle.std.specs.Prelude.{◌≡◌, ◌<◌, ◌+◌, ◌&&◌, true, length};
ghost use Rattle.schedule_steps.specs.Outline.{Outline};
ghost use Rattle.schedule_steps.specs.declared.step.Step.TheVariants.{Begin, End};
ghost use Rattle.schedule_steps.specs.Steps.{IsStep};
ghost use Rattle.schedule_steps.specs.Standard.{element_steps};
ghost use Rattle.schedule_steps.specs.Judged.{is_step, first_of};
ghost use Rattle.schedule_steps.specs.Firsts.{meets};
ghost use Rattle.step_judge.specs.Item.{run_at};
ghost use Rattle.step_judge.specs.Marked.{item_at, outline_of};
ghost use Rattle.step_judge.specs.Wanted.{wanted, IsPlanned, IsPlace, AreMarksOf, FirstBelow};

use crate::marks::StepMarks;
use schedule_steps::Step;

/// Whether the step is not taken and, where a later step is given, has to come before it.
pub fn is_wanted(marks: &StepMarks, step: Step, later: Option<Step>) -> bool
    requires step { IsStep (outline_of marks.now) step }
    requires later { IsPlanned (outline_of marks.now) later }
    ensures { result ≡ wanted marks.now later step }
{
    match later {
        Some(later) => marks.is_earlier(step, later) && !marks.is_taken(step),
        None => !marks.is_taken(step),
    }
}

// Whether the begin or the end of the place is wanted.
fn is_place_wanted(marks: &StepMarks, later: Option<Step>, item: u32, rank: u32, place: u32) -> bool
    requires place { IsStep (outline_of marks.now) (Begin item rank place) }
    requires later { IsPlanned (outline_of marks.now) later }
    ensures { result ≡ meets (wanted marks.now later) item rank place }
{
    is_wanted(marks, Step::Begin { item, rank, place }, later)
        || is_wanted(marks, Step::End { item, rank, place }, later)
}

// The first wanted place, where `best` is the first of those before this one.
fn with_place(
    marks: &StepMarks,
    later: Option<Step>,
    item: u32,
    rank: u32,
    best: Option<u32>,
    place: u32,
) -> Option<u32>
    requires place { IsStep (outline_of marks.now) (Begin item rank place) }
    requires later { IsPlanned (outline_of marks.now) later }
    requires best { IsPlace (outline_of marks.now) item rank best }
    ensures place { IsPlace (outline_of marks.now) item rank result }
    ensures first { (o : Outline) → AreMarksOf o marks.now → FirstBelow o (wanted marks.now later) item rank place best
        → FirstBelow o (wanted marks.now later) item rank (place + 1) result }
{
    schedule_steps::elements_are_ordered();
    if !is_place_wanted(marks, later, item, rank, place) {
        return best;
    }
    match best {
        None => Some(place),
        Some(first) => {
            if marks.is_lower(item, rank, place, first) {
                Some(place)
            } else {
                Some(first)
            }
        }
    }
}

// The first wanted place of a rank.
fn first_place(marks: &StepMarks, later: Option<Step>, item: u32, rank: u32) -> Option<u32>
    requires item { item < length marks.now.items }
    requires free { (item_at marks.now item).free ≡ true }
    requires rank { rank < marks.now.ranks }
    requires later { IsPlanned (outline_of marks.now) later }
    ensures place { IsPlace (outline_of marks.now) item rank result }
    ensures first { (o : Outline) → AreMarksOf o marks.now
        → FirstBelow o (wanted marks.now later) item rank (length (run_at (item_at marks.now item) rank).begun) result }
{
    let mut best = None;
    for place in 0..marks.places(item, rank) {
        best = with_place(marks, later, item, rank, best, place);
    }
    best
}

/// The first wanted step of a rank's elements, in standard order.
pub fn first_of_elements(
    marks: &StepMarks,
    later: Option<Step>,
    item: u32,
    rank: u32,
) -> Option<Step>
    requires item { item < length marks.now.items }
    requires free { (item_at marks.now item).free ≡ true }
    requires rank { rank < marks.now.ranks }
    requires later { IsPlanned (outline_of marks.now) later }
    ensures { (o : Outline) → AreMarksOf o marks.now → result ≡ first_of (wanted marks.now later) (element_steps o 1 item rank) }
{
    schedule_steps::first_step_is_of_first_element();
    match first_place(marks, later, item, rank) {
        None => None,
        Some(place) => {
            if is_wanted(marks, Step::Begin { item, rank, place }, later) {
                Some(Step::Begin { item, rank, place })
            } else {
                Some(Step::End { item, rank, place })
            }
        }
    }
}
