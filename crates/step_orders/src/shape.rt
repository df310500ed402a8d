// What the orders of a plan's steps are read from.
ghost use Rattle.std.specs.Prelude.{◌≡◌, ◌<◌, ℕ, true};
ghost use Rattle.schedule_steps.specs.Outline.{Outline};
ghost use Rattle.schedule_steps.specs.Drawn.{numbers};
ghost use Rattle.step_orders.specs.ElementRuns.{runs_of};

use crate::runs::Runs;

/// The items of a plan: by item and rank the receivers and the senders of its messages, and its elements in the runs
/// that are begun together. No call takes memory.
pub trait Shape {
    ghost outline: { Self → Outline };

    /// How many elements of one block and colour are begun together at most.
    ghost group: { Self → ℕ };

    /// How many items there are.
    fn items(&self) -> u32
        ensures { result ≡ (outline self.now).items };

    /// How many ranks there are.
    fn ranks(&self) -> u32
        ensures { result ≡ (outline self.now).ranks };

    /// Whether the item is Free; any other is one join.
    fn is_free(&self, item: u32) -> bool
        requires { item < (outline self.now).items }
        ensures { result ≡ (outline self.now).is_free item };

    /// The ranks that a rank sends to in a Free item, increasing.
    fn receivers(&self, item: u32, from: u32) -> &[u32]
        requires item { item < (outline self.now).items }
        requires free { (outline self.now).is_free item ≡ true }
        requires rank { from < (outline self.now).ranks }
        ensures { result.now ≡ numbers ((outline self.now).sends item from) (outline self.now).ranks };

    /// The ranks that a rank receives from in a Free item, increasing.
    fn senders(&self, item: u32, rank: u32) -> &[u32]
        requires item { item < (outline self.now).items }
        requires free { (outline self.now).is_free item ≡ true }
        requires rank { rank < (outline self.now).ranks }
        ensures { result.now ≡ numbers (λ s. (outline self.now).sends item s rank) (outline self.now).ranks };

    /// The elements of a rank in a Free item by block colour, block, colour and number, in runs of elements of one
    /// block and colour.
    fn runs(&self, item: u32, rank: u32) -> &Runs
        requires item { item < (outline self.now).items }
        requires free { (outline self.now).is_free item ≡ true }
        requires rank { rank < (outline self.now).ranks }
        ensures { result.now ≡ runs_of (outline self.now) (group self.now) item rank };
}
