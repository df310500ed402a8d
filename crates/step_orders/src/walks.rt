// The next step of a part of an order, from a place in it on.
ghost use Rattle.std.specs.Prelude.{◌≡◌, ◌<◌, true, false, cond};
ghost use Rattle.schedule_steps.specs.declared.step.Step.TheVariants.{Begin, End};
ghost use Rattle.step_orders.specs.Left.{IsFirst, runs_left, sends_left, receives_left, elements_left, free_left};

use crate::runs::Runs;
use crate::shape::Shape;
use schedule_steps::Step;

/// A place in a rank's runs: the run, how many of its begins or ends have come, and whether the ends come.
#[derive(Clone, Copy, Debug)]
pub struct RunPlace {
    pub run: usize,
    pub at: usize,
    pub ending: bool,
}

/// A place among the sends or the receives of an item: the rank, and how many of its messages have come.
#[derive(Clone, Copy, Debug)]
pub struct RankPlace {
    pub rank: u32,
    pub at: usize,
}

/// A place among the elements of an item: the rank, and the place in its runs.
#[derive(Clone, Copy, Debug)]
pub struct ElementPlace {
    pub rank: u32,
    pub runs: RunPlace,
}

/// A place in a Free item.
#[derive(Clone, Copy, Debug)]
pub struct ItemPlace {
    pub sends: RankPlace,
    pub receives: RankPlace,
    pub elements: ElementPlace,
}

// The element's end, or its begin.
fn begin_or_end(ending: bool, item: u32, rank: u32, place: u32) -> Step
    ensures { result ≡ cond ending (End item rank place) (Begin item rank place) }
{
    if ending {
        Step::End { item, rank, place }
    } else {
        Step::Begin { item, rank, place }
    }
}

/// The next step of a rank's runs.
pub fn next_in_runs(runs: &Runs, here: &mut RunPlace, item: u32, rank: u32) -> Option<Step>
    ensures { IsFirst (runs_left item rank runs.now here.old) result (runs_left item rank runs.now here.new) }
{
    while here.run < runs.len() {
        let elements = runs.run(here.run);
        if here.at < elements.len() {
            let element = elements[here.at];
            here.at += 1;
            return Some(begin_or_end(here.ending, item, rank, element));
        }
        here.at = 0;
        if here.ending {
            here.run += 1;
        }
        here.ending = !here.ending;
    }
    None
}

/// The next send of an item.
pub fn next_send<S: Shape>(shape: &S, item: u32, here: &mut RankPlace) -> Option<Step>
    requires item { item < (S.outline shape.now).items }
    requires free { (S.outline shape.now).is_free item ≡ true }
    ensures { IsFirst (sends_left (S.outline shape.now) (S.group shape.now) item here.old) result
        (sends_left (S.outline shape.now) (S.group shape.now) item here.new) }
{
    while here.rank < shape.ranks() {
        let from = here.rank;
        let receivers = shape.receivers(item, from);
        if here.at < receivers.len() {
            let to = receivers[here.at];
            here.at += 1;
            return Some(Step::Send { item, from, to });
        }
        here.rank += 1;
        here.at = 0;
    }
    None
}

/// The next receive of an item.
pub fn next_receive<S: Shape>(shape: &S, item: u32, here: &mut RankPlace) -> Option<Step>
    requires item { item < (S.outline shape.now).items }
    requires free { (S.outline shape.now).is_free item ≡ true }
    ensures { IsFirst (receives_left (S.outline shape.now) (S.group shape.now) item here.old) result
        (receives_left (S.outline shape.now) (S.group shape.now) item here.new) }
{
    while here.rank < shape.ranks() {
        let rank = here.rank;
        let senders = shape.senders(item, rank);
        if here.at < senders.len() {
            let from = senders[here.at];
            here.at += 1;
            return Some(Step::Recv { item, rank, from });
        }
        here.rank += 1;
        here.at = 0;
    }
    None
}

/// The first place in a rank's runs.
pub fn first_run() -> RunPlace
    ensures { result ≡ record { run = 0; at = 0; ending = false } }
{
    RunPlace {
        run: 0,
        at: 0,
        ending: false,
    }
}

/// The next step of an item's elements.
pub fn next_element<S: Shape>(shape: &S, item: u32, here: &mut ElementPlace) -> Option<Step>
    requires item { item < (S.outline shape.now).items }
    requires free { (S.outline shape.now).is_free item ≡ true }
    ensures { IsFirst (elements_left (S.outline shape.now) (S.group shape.now) item here.old) result
        (elements_left (S.outline shape.now) (S.group shape.now) item here.new) }
{
    while here.rank < shape.ranks() {
        let rank = here.rank;
        if let Some(step) = next_in_runs(shape.runs(item, rank), &mut here.runs, item, rank) {
            return Some(step);
        }
        here.rank += 1;
        here.runs = first_run();
    }
    None
}

/// The next step of a Free item.
pub fn next_in_item<S: Shape>(shape: &S, item: u32, here: &mut ItemPlace) -> Option<Step>
    requires item { item < (S.outline shape.now).items }
    requires free { (S.outline shape.now).is_free item ≡ true }
    ensures { IsFirst (free_left (S.outline shape.now) (S.group shape.now) item here.old) result
        (free_left (S.outline shape.now) (S.group shape.now) item here.new) }
{
    if let Some(step) = next_send(shape, item, &mut here.sends) {
        return Some(step);
    }
    if let Some(step) = next_receive(shape, item, &mut here.receives) {
        return Some(step);
    }
    next_element(shape, item, &mut here.elements)
}

/// The first place in an item.
pub fn first_place() -> ItemPlace
    ensures { result ≡ record {
      sends = record { rank = 0; at = 0 };
      receives = record { rank = 0; at = 0 };
      elements = record { rank = 0; runs = record { run = 0; at = 0; ending = false } };
    } }
{
    ItemPlace {
        sends: RankPlace { rank: 0, at: 0 },
        receives: RankPlace { rank: 0, at: 0 },
        elements: ElementPlace {
            rank: 0,
            runs: first_run(),
        },
    }
}
