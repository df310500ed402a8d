// The stream.

ghost use Rattle.std.specs.Prelude.{◌≡◌, IfOk};

use crate::ahead::groups::closed_in;
use crate::ahead::reading::read_group;
use crate::{ItemOnRank, Steps};
use schedule_steps::Step;
use std::alloc::{AllocError, Global};

/// The steps of a stream. Where the stream itself tells of no closed group, the next steps are looked at: so a closed
/// group of some items is told wherever it comes next, if it has at most half as many steps as may be held and there is
/// room for its places.
#[derive(Drop)]
pub struct Ahead<S> {
    steps: S,
    // by item whether its groups are told
    items: Vec<bool>,
    // steps that were read; those before `at` are taken
    held: Vec<Step>,
    at: usize,
}

// Whether the steps begin with a begin of an item whose groups are told.
fn are_told(steps: &[Step], items: &[bool]) -> bool {
    match steps.first().copied() {
        Some(Step::Begin { item, .. }) => items.get(item as usize).copied().unwrap_or(false),
        _ => false,
    }
}

impl<S: Steps + Drop> Ahead<S> {
    /// The steps of the stream, of which up to `most` are held at a time. `items` says by item whether its groups are
    /// told.
    ///
    /// # Errors
    /// Want of memory.
    pub fn new(
        alloc: Global,
        steps: S,
        items: Vec<bool>,
        most: usize,
    ) -> Result<Ahead<S>, AllocError>
        ensures { IfOk result (λ a. ⟦<Ahead<S> as Steps>⟧.left a ≡ S.left steps) }
    {
        let held = Vec::with_capacity(alloc, most)?;
        Ok(Ahead {
            steps,
            items,
            held,
            at: 0,
        })
    }
}

impl<S: Steps> Steps for Ahead<S> {
    ghost use Rattle.std.specs.Prelude.{◌++◌, drop};

    ghost left = { λ s. drop s.at s.held.items ++ S.left s.steps };

    fn next_step(&mut self) -> Option<Step> {
        if self.at < self.held.len() {
            let step = self.held[self.at];
            self.at += 1;
            return Some(step);
        }
        self.steps.next_step()
    }

    fn next_alone(&mut self, places: &mut Vec<u32>) -> Option<ItemOnRank> {
        if self.at < self.held.len() {
            return None;
        }
        self.steps.next_alone(places)
    }

    fn next_closed(&mut self, places: &mut Vec<u32>) -> Option<ItemOnRank> {
        if self.at < self.held.len() {
            return None;
        }
        if let Some(of) = self.steps.next_closed(places) {
            return Some(of);
        }
        places.clear();
        self.held.clear();
        self.at = 0;
        read_group(&mut self.steps, &mut self.held);
        if !are_told(&self.held, &self.items) {
            return None;
        }
        let told = closed_in(&self.held, places);
        if told.is_some() {
            self.at = self.held.len();
        }
        told
    }
}
