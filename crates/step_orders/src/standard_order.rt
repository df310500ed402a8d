// The standard order as a stream.
ghost use Rattle.std.specs.Prelude.{◌≡◌};
ghost use Rattle.schedule_steps.specs.Standard.{standard};

use crate::alone_walks::alone_in_item;
use crate::closed_walks::closed_in_item;
use crate::shape::Shape;
use crate::stream::{ItemOnRank, Steps};
use crate::walks::{ItemPlace, first_place, next_in_item};
use schedule_steps::Step;

/// The standard order of a plan's steps, one after another. It holds no list of them.
#[derive(Drop)]
pub struct Standard<'a, S> {
    shape: &'a S,
    item: u32,
    here: ItemPlace,
}

impl<'a, S: Shape> Standard<'a, S> {
    /// All steps are still to come. Takes no memory.
    pub fn new(shape: &'a S) -> Standard<'a, S>
        ensures { ⟦<Standard<'a, S> as Steps>⟧.left result ≡ standard (S.outline shape.now) (S.group shape.now) }
    {
        Standard {
            shape,
            item: 0,
            here: first_place(),
        }
    }
}

impl<'a, S: Shape> Steps for Standard<'a, S> {
    ghost use Rattle.step_orders.specs.Left.{standard_left};

    ghost left = { λ s. standard_left (S.outline s.shape.now) (S.group s.shape.now) s.item s.here };

    fn next_step(&mut self) -> Option<Step> {
        while self.item < self.shape.items() {
            let item = self.item;
            if !self.shape.is_free(item) {
                self.item += 1;
                self.here = first_place();
                return Some(Step::Join { item });
            }
            if let Some(step) = next_in_item(self.shape, item, &mut self.here) {
                return Some(step);
            }
            self.item += 1;
            self.here = first_place();
        }
        None
    }

    fn next_alone(&mut self, places: &mut Vec<u32>) -> Option<ItemOnRank> {
        let item = self.item;
        if item >= self.shape.items() || !self.shape.is_free(item) {
            return None;
        }
        let Some(rank) = alone_in_item(self.shape, item, &mut self.here, places) else {
            return None;
        };
        Some(ItemOnRank { item, rank })
    }

    fn next_closed(&mut self, places: &mut Vec<u32>) -> Option<ItemOnRank> {
        let item = self.item;
        if item >= self.shape.items() || !self.shape.is_free(item) {
            return None;
        }
        let Some(rank) = closed_in_item(self.shape, item, &mut self.here, places) else {
            return None;
        };
        Some(ItemOnRank { item, rank })
    }
}
