// The first wanted step of a plan.
ghost use Rattle.std.specs.Prelude.{◌≡◌, ◌<◌, ◌++◌, true, false, [], ◌∷◌, length};
ghost use Rattle.schedule_steps.specs.Outline.{Outline};
ghost use Rattle.schedule_steps.specs.declared.step.Step.TheVariants.{Join};
ghost use Rattle.schedule_steps.specs.Standard.{below, sends_of, receives_of, element_steps, item_steps, standard};
ghost use Rattle.schedule_steps.specs.Judged.{first_of};
ghost use Rattle.step_judge.specs.Marked.{item_at, outline_of};
ghost use Rattle.step_judge.specs.Wanted.{wanted, IsPlanned, AreMarksOf};

use crate::elements::{first_of_elements, is_wanted};
use crate::marks::StepMarks;
use crate::messages::{first_of_receives, first_of_sends};
use schedule_steps::Step;

// The first wanted step of an item's elements.
fn first_element(marks: &StepMarks, later: Option<Step>, item: u32) -> Option<Step>
    requires item { item < length marks.now.items }
    requires free { (item_at marks.now item).free ≡ true }
    requires later { IsPlanned (outline_of marks.now) later }
    ensures { (o : Outline) → AreMarksOf o marks.now → result ≡ first_of (wanted marks.now later) (below (element_steps o 1 item) o.ranks) }
{
    for rank in 0..marks.ranks() {
        if let Some(step) = first_of_elements(marks, later, item, rank) {
            return Some(step);
        }
    }
    None
}

// The first wanted step of a Free item.
fn first_of_free(marks: &StepMarks, later: Option<Step>, item: u32) -> Option<Step>
    requires item { item < length marks.now.items }
    requires free { (item_at marks.now item).free ≡ true }
    requires later { IsPlanned (outline_of marks.now) later }
    ensures { (o : Outline) → AreMarksOf o marks.now → result ≡ first_of (wanted marks.now later)
        (below (sends_of o item) o.ranks ++ (below (receives_of o item) o.ranks ++ below (element_steps o 1 item) o.ranks)) }
{
    if let Some(step) = first_of_sends(marks, later, item) {
        return Some(step);
    }
    if let Some(step) = first_of_receives(marks, later, item) {
        return Some(step);
    }
    first_element(marks, later, item)
}

// The join of an item, where it is wanted.
fn first_join(marks: &StepMarks, later: Option<Step>, item: u32) -> Option<Step>
    requires item { item < length marks.now.items }
    requires join { (item_at marks.now item).free ≡ false }
    requires later { IsPlanned (outline_of marks.now) later }
    ensures { result ≡ first_of (wanted marks.now later) (Join item ∷ []) }
{
    if is_wanted(marks, Step::Join { item }, later) {
        return Some(Step::Join { item });
    }
    None
}

// The first wanted step of an item.
fn first_of_item(marks: &StepMarks, later: Option<Step>, item: u32) -> Option<Step>
    requires item { item < length marks.now.items }
    requires later { IsPlanned (outline_of marks.now) later }
    ensures { (o : Outline) → AreMarksOf o marks.now → result ≡ first_of (wanted marks.now later) (item_steps o 1 item) }
{
    if marks.is_free(item) {
        first_of_free(marks, later, item)
    } else {
        first_join(marks, later, item)
    }
}

/// The first step, in standard order, that is not taken and, where a later step is given, has to come before it. Takes
/// no memory.
pub fn first_wanted(marks: &StepMarks, later: Option<Step>) -> Option<Step>
    requires later { IsPlanned (outline_of marks.now) later }
    ensures { (o : Outline) → AreMarksOf o marks.now → result ≡ first_of (wanted marks.now later) (standard o 1) }
{
    for item in 0..marks.items() {
        if let Some(step) = first_of_item(marks, later, item) {
            return Some(step);
        }
    }
    None
}
