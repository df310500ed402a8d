// Steps that are a closed group.

ghost use Rattle.std.specs.Prelude.{◌≡◌, ◌<◌, ◌≤◌, ◌++◌, true, [], length, vec_capacity, IfSome};
ghost use Rattle.step_orders.specs.Left.{begins, ends};

use crate::ItemOnRank;
use schedule_steps::Step;

// Puts down the places of begins of the item and rank. Whether all steps are such begins.
fn put_begins(steps: &[Step], item: u32, rank: u32, places: &mut Vec<u32>) -> bool
    requires empty { places.old.items ≡ [] }
    requires few { length steps.now ≤ vec_capacity places.old }
    ensures all { result ≡ true → steps.now ≡ begins item rank places.new.items }
    ensures room { vec_capacity places.new ≡ vec_capacity places.old }
{
    let mut at = 0;
    while at < steps.len() {
        let step = steps[at];
        let Step::Begin {
            item: i,
            rank: r,
            place,
        } = step
        else {
            return false;
        };
        if i != item || r != rank {
            return false;
        }
        places.push_reserved(place);
        at += 1;
    }
    true
}

// Whether the steps are the ends of the item and rank at these places.
fn are_ends(steps: &[Step], item: u32, rank: u32, places: &[u32]) -> bool
    ensures { result ≡ true → steps.now ≡ ends item rank places.now }
{
    if steps.len() != places.len() {
        return false;
    }
    let mut at = 0;
    while at < steps.len() {
        let step = steps[at];
        let Step::End {
            item: i,
            rank: r,
            place,
        } = step
        else {
            return false;
        };
        if i != item || r != rank || place != places[at] {
            return false;
        }
        at += 1;
    }
    true
}

// The item and rank of a step that is a begin.
fn begin_of(step: Option<Step>) -> Option<ItemOnRank> {
    match step {
        Some(Step::Begin { item, rank, .. }) => Some(ItemOnRank { item, rank }),
        _ => None,
    }
}

/// The item and rank of the closed group that the steps are, whose places are put down; `None` where they are none, or
/// where there is no room for its places.
pub fn closed_in(steps: &[Step], places: &mut Vec<u32>) -> Option<ItemOnRank>
    requires empty { places.old.items ≡ [] }
    ensures some { IfSome result
        (λ of. steps.now ≡ begins of.item of.rank places.new.items ++ ends of.item of.rank places.new.items) }
    ensures more { IfSome result (λ of. 0 < length places.new.items) }
    ensures room { vec_capacity places.new ≡ vec_capacity places.old }
{
    let Some(of) = begin_of(steps.first().copied()) else {
        return None;
    };
    let count = steps.len() / 2;
    if count == 0 || count > places.capacity() {
        return None;
    }
    let (front, back) = steps.split_at(count);
    if put_begins(front, of.item, of.rank, places) && are_ends(back, of.item, of.rank, places) {
        return Some(of);
    }
    None
}
