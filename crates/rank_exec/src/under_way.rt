// The item whose steps are taken.

use bound_program::{Bound, Item};
use par_exec::Gate;
use schedule_steps::Step;

/// The item of a step.
pub fn item_of(step: Step) -> u32 {
    match step {
        Step::Send { item, .. }
        | Step::Recv { item, .. }
        | Step::Begin { item, .. }
        | Step::End { item, .. }
        | Step::Join { item } => item,
    }
}

// The number of the loop that is an item, where it is one.
fn site_of(bound: &Bound, item: u32) -> Option<u32> {
    match bound.trace.get(item as usize) {
        Some(Item::Free { site } | Item::Reduce { site } | Item::Ordered { site }) => Some(*site),
        _ => None,
    }
}

// How many elements a loop has.
fn elements_of(bound: &Bound, site: u32) -> u32 {
    let Some(site) = bound.sites.get(site as usize) else {
        return 0;
    };
    if site.set < bound.mesh.set_count() {
        bound.mesh.set_size(site.set)
    } else {
        0
    }
}

/// Tells the gate that the steps that come next are of another item than those before, where they are.
pub fn go_on<G: Gate>(gate: &G, bound: &Bound, before: Option<u32>, item: u32) {
    if before == Some(item) {
        return;
    }
    end(gate, before);
    let site = site_of(bound, item);
    let count = match site {
        Some(site) => elements_of(bound, site),
        None => 0,
    };
    gate.item_begins(item, site, count);
}

/// Tells the gate that no more steps of the item come next, where there is one.
pub fn end<G: Gate>(gate: &G, item: Option<u32>) {
    if let Some(item) = item {
        gate.item_ends(item);
    }
}
