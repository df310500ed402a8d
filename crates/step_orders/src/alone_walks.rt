// Elements that begin and end one after another, from a place in an order on.
ghost use Rattle.std.specs.Prelude.{◌≡◌, ◌<◌, ◌++◌, ℕ, true, false, [], length, drop, IfSome, IfNone, vec_capacity};
ghost use Rattle.step_orders.specs.Alone.{alone};
ghost use Rattle.step_orders.specs.Runs.{each_alone};
ghost use Rattle.step_orders.specs.Left.{in_runs, runs_left, elements_left, free_left};

use crate::runs::Runs;
use crate::shape::Shape;
use crate::walks::{ElementPlace, ItemPlace, RunPlace};

/// The run that begins next, where no element of another is still to begin or to end.
pub fn run_to_begin(runs: &Runs, here: RunPlace) -> Option<usize>
    ensures { IfSome result
        (λ n. (k r : ℕ) → runs_left k r runs.now here ≡ in_runs k r (drop n runs.now)) }
{
    if here.run >= runs.len() {
        return None;
    }
    if here.ending && here.at >= runs.run(here.run).len() {
        return Some(here.run + 1);
    }
    if !here.ending && here.at == 0 {
        return Some(here.run);
    }
    None
}

// Puts down elements from one on, while there is room; gives the one behind them.
fn put_elements(elements: &[u32], from: usize, places: &mut Vec<u32>) -> usize
    requires { places.old.items ≡ [] }
    ensures alone { (k r : ℕ) → in_runs k r (drop from (each_alone elements.now))
        ≡ alone k r places.new.items ++ in_runs k r (drop result (each_alone elements.now)) }
    ensures room { vec_capacity places.new ≡ vec_capacity places.old }
{
    let mut at = from;
    while at < elements.len() && places.len() < places.capacity() {
        places.push_reserved(elements[at]);
        at += 1;
    }
    at
}

// Puts down the elements of runs of one element each, from a run on, while there is room; gives the run behind them.
fn put_alone(runs: &Runs, from: usize, places: &mut Vec<u32>) -> usize
    requires { places.old.items ≡ [] }
    ensures alone { (k r : ℕ) → in_runs k r (drop from runs.now)
        ≡ alone k r places.new.items ++ in_runs k r (drop result runs.now) }
    ensures room { vec_capacity places.new ≡ vec_capacity places.old }
{
    if let Some(elements) = runs.elements_alone() {
        return put_elements(elements, from, places);
    }
    let mut run = from;
    while run < runs.len() && places.len() < places.capacity() {
        let elements = runs.run(run);
        if elements.len() != 1 {
            return run;
        }
        places.push_reserved(elements[0]);
        run += 1;
    }
    run
}

/// Takes the steps of a rank's elements that come next, where these begin and end one after another, and puts down
/// their places. Whether there were any.
pub fn alone_in_runs(runs: &Runs, here: &mut RunPlace, places: &mut Vec<u32>) -> bool
    requires empty { places.old.items ≡ [] }
    ensures some { result ≡ true
        → (k r : ℕ) → runs_left k r runs.now here.old ≡ alone k r places.new.items ++ runs_left k r runs.now here.new }
    ensures more { result ≡ true → 0 < length places.new.items }
    ensures none { result ≡ false → here.new ≡ here.old }
    ensures room { vec_capacity places.new ≡ vec_capacity places.old }
{
    let Some(first) = run_to_begin(runs, *here) else {
        return false;
    };
    let next = put_alone(runs, first, places);
    if places.is_empty() {
        return false;
    }
    *here = RunPlace {
        run: next,
        at: 0,
        ending: false,
    };
    true
}

/// Takes the steps of an item's elements that come next, where these are of one rank and begin and end one after
/// another, puts down their places and gives their rank.
pub fn alone_elements<S: Shape>(
    shape: &S,
    item: u32,
    here: &mut ElementPlace,
    places: &mut Vec<u32>,
) -> Option<u32>
    requires item { item < (S.outline shape.now).items }
    requires free { (S.outline shape.now).is_free item ≡ true }
    requires empty { places.old.items ≡ [] }
    ensures some { IfSome result (λ r. elements_left (S.outline shape.now) (S.group shape.now) item here.old
        ≡ alone item r places.new.items ++ elements_left (S.outline shape.now) (S.group shape.now) item here.new) }
    ensures more { IfSome result (λ r. 0 < length places.new.items) }
    ensures none { IfNone result (here.new ≡ here.old) }
    ensures room { vec_capacity places.new ≡ vec_capacity places.old }
{
    let rank = here.rank;
    if rank >= shape.ranks() {
        return None;
    }
    if !alone_in_runs(shape.runs(item, rank), &mut here.runs, places) {
        return None;
    }
    Some(rank)
}

/// Takes such steps as [`alone_elements`] of a Free item, once its messages have come.
pub fn alone_in_item<S: Shape>(
    shape: &S,
    item: u32,
    here: &mut ItemPlace,
    places: &mut Vec<u32>,
) -> Option<u32>
    requires item { item < (S.outline shape.now).items }
    requires free { (S.outline shape.now).is_free item ≡ true }
    requires empty { places.old.items ≡ [] }
    ensures some { IfSome result (λ r. free_left (S.outline shape.now) (S.group shape.now) item here.old
        ≡ alone item r places.new.items ++ free_left (S.outline shape.now) (S.group shape.now) item here.new) }
    ensures more { IfSome result (λ r. 0 < length places.new.items) }
    ensures none { IfNone result (here.new ≡ here.old) }
    ensures room { vec_capacity places.new ≡ vec_capacity places.old }
{
    if here.sends.rank < shape.ranks() || here.receives.rank < shape.ranks() {
        return None;
    }
    alone_elements(shape, item, &mut here.elements, places)
}
