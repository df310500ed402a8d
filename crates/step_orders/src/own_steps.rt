// The steps of one rank as a stream.
ghost use Rattle.std.specs.Prelude.{◌≡◌, ◌<◌};
ghost use Rattle.schedule_steps.specs.Drawn.{own};

use crate::own_walks::{OwnPlace, first_in, next_own};
use crate::shape::Shape;
use crate::stream::Steps;
use schedule_steps::Step;

/// A rank's own steps, one after another: by item its sends by receiver, its receives by sender, and its elements in
/// runs, as in the standard order. It holds no list of them.
#[derive(Drop)]
pub struct OwnSteps<'a, S: Shape> {
    shape: &'a S,
    rank: u32,
    here: OwnPlace,
    ghost in_range: { rank < (S.outline shape.now).ranks },
}

impl<'a, S: Shape> OwnSteps<'a, S> {
    /// All steps of the rank are still to come. Takes no memory.
    pub fn new(shape: &'a S, rank: u32) -> OwnSteps<'a, S>
        requires { rank < (S.outline shape.now).ranks }
        ensures { ⟦<OwnSteps<'a, S> as Steps>⟧.left result ≡ own (S.outline shape.now) (S.group shape.now) rank }
    {
        OwnSteps {
            shape,
            rank,
            here: first_in(0),
        }
    }
}

impl<'a, S: Shape> Steps for OwnSteps<'a, S> {
    ghost use Rattle.step_orders.specs.OwnLeft.{own_left};

    ghost left = { λ s. own_left (S.outline s.shape.now) (S.group s.shape.now) s.rank s.here };

    fn next_step(&mut self) -> Option<Step> {
        next_own(self.shape, self.rank, &mut self.here)
    }
}
