// The room that the standard order of a plan needs.
ghost use Rattle.std.specs.Prelude.{◌≡◌, ◌<◌, ◌≤◌, ◌+◌, ℕ, true, min, IfOk, length, slice_index, vec_capacity};
ghost use Rattle.schedule_steps.specs.declared.step.Step.TheVariants.{Send};
ghost use Rattle.schedule_steps.specs.Steps.{IsStep};
ghost use Rattle.schedule_model.specs.Layout.{message_cells};
ghost use Rattle.rank_state.specs.Spans.{total};
ghost use Rattle.rank_exec.specs.Driving.{FitsPeak};
ghost use Rattle.rank_program.specs.Sound.{layout_in, outline_in};
ghost use Rattle.rank_exec.specs.Room.{cells_sent, item_cells};
ghost use Rattle.schedule_steps.specs.Standard as the;

use crate::planned_run::peaks::standard_has_room;
use op_num::OutOfMemory;
use rank_program::{Runnable, push_sent};
use rank_state::Span;
use schedule_check::plan_orders::PlanShape;
use schedule_steps::Peak;
use std::alloc::{AllocError, Global};
use step_orders::Shape;

// The sum. An error is want of memory, where 64 bits can't hold it.
fn added(a: u64, b: u64) -> Result<u64, OutOfMemory>
    ensures { IfOk result (λ n. n ≡ a + b) }
{
    match a.checked_add(b) {
        Some(sum) => Ok(sum),
        None => Err(AllocError),
    }
}

// How many cells the spans have. An error is want of memory, where 64 bits can't count them.
fn cells_of(spans: &[Span]) -> Result<u64, OutOfMemory>
    ensures { IfOk result (λ n. n ≡ total spans.now) }
{
    let mut cells = 0;
    for span in spans {
        cells = added(cells, span.dim as u64)?;
    }
    Ok(cells)
}

// How many cells a message has; `spans` is lent for them. An error is want of memory.
fn cells_in_message(
    program: &Runnable<'_>,
    item: u32,
    from: u32,
    to: u32,
    spans: &mut Vec<Span>,
) -> Result<u64, OutOfMemory>
    requires step { IsStep (outline_in program.now) (Send item from to) }
    requires room { program.now.tables.spans ≤ vec_capacity spans.old }
    ensures cells { IfOk result (λ n. n ≡ message_cells (layout_in program.now) item from to) }
    ensures room { vec_capacity spans.new ≡ vec_capacity spans.old }
{
    program.is_sound();
    schedule_steps::standard_is_accepted();
    bound_plan::plans_are_by_place();
    spans.clear();
    push_sent(program, item, from, to, spans);
    let cells = cells_of(spans)?;
    Ok(cells)
}

// How many cells the messages have that a rank sends in an item. An error is want of memory.
fn cells_from<'s>(
    program: &Runnable<'_>,
    shape: &PlanShape<'s>,
    item: u32,
    from: u32,
    spans: &mut Vec<Span>,
) -> Result<u64, OutOfMemory>
    requires shape { ⟦<PlanShape<'s> as Shape>⟧.outline shape.now ≡ outline_in program.now }
    requires item { item < (outline_in program.now).items }
    requires free { (outline_in program.now).is_free item ≡ true }
    requires rank { from < (outline_in program.now).ranks }
    requires room { program.now.tables.spans ≤ vec_capacity spans.old }
    ensures cells { IfOk result (λ n. n ≡ cells_sent (outline_in program.now) (message_cells (layout_in program.now)) item from) }
    ensures room { vec_capacity spans.new ≡ vec_capacity spans.old }
{
    let receivers = shape.receivers(item, from);
    let mut cells = 0;
    for to in receivers {
        let more = cells_in_message(program, item, from, *to, spans)?;
        cells = added(cells, more)?;
    }
    Ok(cells)
}

// How many cells the messages of an item have. An error is want of memory.
fn cells_in_item<'s>(
    program: &Runnable<'_>,
    shape: &PlanShape<'s>,
    item: u32,
    spans: &mut Vec<Span>,
) -> Result<u64, OutOfMemory>
    requires shape { ⟦<PlanShape<'s> as Shape>⟧.outline shape.now ≡ outline_in program.now }
    requires item { item < (outline_in program.now).items }
    requires free { (outline_in program.now).is_free item ≡ true }
    requires room { program.now.tables.spans ≤ vec_capacity spans.old }
    ensures cells { IfOk result (λ n. n ≡ item_cells (outline_in program.now) (message_cells (layout_in program.now)) item) }
    ensures room { vec_capacity spans.new ≡ vec_capacity spans.old }
{
    let mut cells = 0;
    for from in 0..shape.ranks() {
        let more = cells_from(program, shape, item, from, spans)?;
        cells = added(cells, more)?;
    }
    Ok(cells)
}

// A number that no item's messages have more cells than. An error is want of memory.
fn most_cells<'s>(
    program: &Runnable<'_>,
    shape: &PlanShape<'s>,
    spans: &mut Vec<Span>,
) -> Result<u64, OutOfMemory>
    requires shape { ⟦<PlanShape<'s> as Shape>⟧.outline shape.now ≡ outline_in program.now }
    requires room { program.now.tables.spans ≤ vec_capacity spans.old }
    ensures { IfOk result (λ n. (k : ℕ) → k < (outline_in program.now).items → (outline_in program.now).is_free k ≡ true
        → item_cells (outline_in program.now) (message_cells (layout_in program.now)) k ≤ n) }
{
    let mut most: u64 = 0;
    for item in 0..shape.items() {
        if shape.is_free(item) {
            let cells = cells_in_item(program, shape, item, spans)?;
            most = cells.max(most);
        }
    }
    Ok(most)
}

// How many elements are open at once at most, where the ranks have so many places and at most `group` of them are begun
// together.
fn most_open(places: &[usize], group: u32) -> u32
    ensures { (r : ℕ) → r < length places.now → min group (slice_index places.now r) ≤ result }
{
    let mut most = 0;
    for count in places {
        most = (*count).min(group as usize).max(most);
    }
    most as u32
}

/// Room for the standard order of a distributed program's plan, with groups of at most `group` places, at least 1: for
/// as many open elements as are begun together, and for the messages of one item. It takes time linear in the cells of
/// all messages.
///
/// # Errors
/// Want of memory alone, also where 64 bits can't count the cells of an item's messages.
pub fn standard_room<'s>(
    alloc: Global,
    program: &Runnable<'_>,
    shape: &PlanShape<'s>,
    group: u32,
) -> Result<Peak, OutOfMemory>
    requires shape { ⟦<PlanShape<'s> as Shape>⟧.outline shape.now ≡ outline_in program.now }
    requires group { 1 ≤ group }
    ensures { IfOk result (λ k. FitsPeak (layout_in program.now) k.frames k.mail (the.standard (outline_in program.now) group)) }
{
    program.is_sound();
    standard_has_room();
    let tables = &program.parts().tables;
    let mut spans = Vec::with_capacity(alloc, tables.spans)?;
    let frames = most_open(&tables.places, group);
    let mail = most_cells(program, shape, &mut spans)?;
    Ok(Peak { frames, mail })
}
