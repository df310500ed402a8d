// The steps of one rank, one after another.
ghost use Rattle.std.specs.Prelude.{◌≡◌, ◌<◌, ◌+◌, true, false};
ghost use Rattle.step_orders.specs.Left.{IsFirst};
ghost use Rattle.step_orders.specs.OwnLeft.{own_free_left, own_left};

use crate::shape::Shape;
use crate::walks::{RunPlace, first_run, next_in_runs};
use schedule_steps::Step;

/// A place among a rank's own steps: the item, how many of its sends and of its receives have come, and the place in
/// its runs.
#[derive(Clone, Copy, Debug)]
pub struct OwnPlace {
    pub item: u32,
    pub sends: usize,
    pub receives: usize,
    pub runs: RunPlace,
}

/// The first place in an item.
pub fn first_in(item: u32) -> OwnPlace
    ensures { result ≡ record { item = item; sends = 0; receives = 0; runs = record { run = 0; at = 0; ending = false } } }
{
    OwnPlace {
        item,
        sends: 0,
        receives: 0,
        runs: first_run(),
    }
}

/// The next step of a rank in a Free item.
pub fn next_own_in<S: Shape>(shape: &S, item: u32, rank: u32, here: &mut OwnPlace) -> Option<Step>
    requires item { item < (S.outline shape.now).items }
    requires free { (S.outline shape.now).is_free item ≡ true }
    requires rank { rank < (S.outline shape.now).ranks }
    ensures item { here.new.item ≡ here.old.item }
    ensures first { IsFirst (own_free_left (S.outline shape.now) (S.group shape.now) rank item here.old) result
        (own_free_left (S.outline shape.now) (S.group shape.now) rank item here.new) }
{
    let receivers = shape.receivers(item, rank);
    if here.sends < receivers.len() {
        let to = receivers[here.sends];
        here.sends += 1;
        return Some(Step::Send {
            item,
            from: rank,
            to,
        });
    }
    let senders = shape.senders(item, rank);
    if here.receives < senders.len() {
        let from = senders[here.receives];
        here.receives += 1;
        return Some(Step::Recv { item, rank, from });
    }
    next_in_runs(shape.runs(item, rank), &mut here.runs, item, rank)
}

/// The next step of a rank. Takes no memory.
pub fn next_own<S: Shape>(shape: &S, rank: u32, here: &mut OwnPlace) -> Option<Step>
    requires rank { rank < (S.outline shape.now).ranks }
    ensures { IsFirst (own_left (S.outline shape.now) (S.group shape.now) rank here.old) result
        (own_left (S.outline shape.now) (S.group shape.now) rank here.new) }
{
    while here.item < shape.items() {
        let item = here.item;
        if shape.is_free(item) {
            if let Some(step) = next_own_in(shape, item, rank, here) {
                return Some(step);
            }
        }
        *here = first_in(item + 1);
    }
    None
}
