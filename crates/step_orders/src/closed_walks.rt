// Elements of one run, which all begin and then end, from a place in an order on.
ghost use Rattle.std.specs.Prelude.{◌≡◌, ◌<◌, ◌≤◌, ◌++◌, ℕ, true, false, [], length, IfSome, IfNone, vec_capacity};
ghost use Rattle.step_orders.specs.Left.{begins, ends, runs_left, elements_left, free_left};

use crate::alone_walks::run_to_begin;
use crate::runs::Runs;
use crate::shape::Shape;
use crate::walks::{ElementPlace, ItemPlace, RunPlace};

// Puts down the elements of a run.
fn put_all(elements: &[u32], places: &mut Vec<u32>)
    requires empty { places.old.items ≡ [] }
    requires few { length elements.now ≤ vec_capacity places.old }
    ensures all { places.new.items ≡ elements.now }
    ensures room { vec_capacity places.new ≡ vec_capacity places.old }
{
    let mut at = 0;
    while at < elements.len() {
        places.push_reserved(elements[at]);
        at += 1;
    }
}

/// Takes the begins and ends of the run of a rank's elements that comes next, and puts down their places. Whether a run
/// comes next that has elements, all of which there is room for.
pub fn closed_in_runs(runs: &Runs, here: &mut RunPlace, places: &mut Vec<u32>) -> bool
    requires empty { places.old.items ≡ [] }
    ensures some { result ≡ true
        → (k r : ℕ) → runs_left k r runs.now here.old
        ≡ (begins k r places.new.items ++ ends k r places.new.items) ++ runs_left k r runs.now here.new }
    ensures more { result ≡ true → 0 < length places.new.items }
    ensures none { result ≡ false → here.new ≡ here.old }
    ensures room { vec_capacity places.new ≡ vec_capacity places.old }
{
    let Some(next) = run_to_begin(runs, *here) else {
        return false;
    };
    if next >= runs.len() {
        return false;
    }
    let elements = runs.run(next);
    if elements.is_empty() || elements.len() > places.capacity() {
        return false;
    }
    put_all(elements, places);
    *here = RunPlace {
        run: next + 1,
        at: 0,
        ending: false,
    };
    true
}

/// Takes the begins and ends of the run of an item's elements that comes next, puts down their places and gives their
/// rank.
pub fn closed_elements<S: Shape>(
    shape: &S,
    item: u32,
    here: &mut ElementPlace,
    places: &mut Vec<u32>,
) -> Option<u32>
    requires item { item < (S.outline shape.now).items }
    requires free { (S.outline shape.now).is_free item ≡ true }
    requires empty { places.old.items ≡ [] }
    ensures some { IfSome result (λ r. elements_left (S.outline shape.now) (S.group shape.now) item here.old
        ≡ (begins item r places.new.items ++ ends item r places.new.items)
        ++ elements_left (S.outline shape.now) (S.group shape.now) item here.new) }
    ensures more { IfSome result (λ r. 0 < length places.new.items) }
    ensures none { IfNone result (here.new ≡ here.old) }
    ensures room { vec_capacity places.new ≡ vec_capacity places.old }
{
    let rank = here.rank;
    if rank >= shape.ranks() {
        return None;
    }
    if !closed_in_runs(shape.runs(item, rank), &mut here.runs, places) {
        return None;
    }
    Some(rank)
}

/// Takes such steps as [`closed_elements`] of a Free item, once its messages have come.
pub fn closed_in_item<S: Shape>(
    shape: &S,
    item: u32,
    here: &mut ItemPlace,
    places: &mut Vec<u32>,
) -> Option<u32>
    requires item { item < (S.outline shape.now).items }
    requires free { (S.outline shape.now).is_free item ≡ true }
    requires empty { places.old.items ≡ [] }
    ensures some { IfSome result (λ r. free_left (S.outline shape.now) (S.group shape.now) item here.old
        ≡ (begins item r places.new.items ++ ends item r places.new.items)
        ++ free_left (S.outline shape.now) (S.group shape.now) item here.new) }
    ensures more { IfSome result (λ r. 0 < length places.new.items) }
    ensures none { IfNone result (here.new ≡ here.old) }
    ensures room { vec_capacity places.new ≡ vec_capacity places.old }
{
    if here.sends.rank < shape.ranks() || here.receives.rank < shape.ranks() {
        return None;
    }
    closed_elements(shape, item, &mut here.elements, places)
}
