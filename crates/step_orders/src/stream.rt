// Steps one after another.
ghost use Rattle.std.specs.Prelude.{◌≡◌, ◌<◌, [], ◌∷◌, ◌++◌, List, length, IfSome, IfNone, vec_capacity};
ghost use Rattle.schedule_steps.specs.declared.step.Step.{Step as StepValue};
ghost use Rattle.step_orders.specs.Alone.{alone};
ghost use Rattle.step_orders.specs.Left.{begins, ends};

use schedule_steps::Step;
use std::marker::Model;

/// An item, and a rank in it.
#[derive(Clone, Copy, PartialEq, Eq, Debug)]
pub struct ItemOnRank {
    pub item: u32,
    pub rank: u32,
}

/// A list of steps that is not held as one.
pub trait Steps {
    /// The steps still to come.
    ghost left: { Self → List StepValue };

    /// The first of the steps still to come, or none where there is none. Takes no memory.
    fn next_step(&mut self) -> Option<Step>
        ensures some { IfSome result (λ s. left self.old ≡ s ∷ left self.new) }
        ensures none { IfNone result ((left self.old ≡ []) × (left self.new ≡ [])) };

    /// Takes steps of elements of one item and rank that begin and end one after another, each before the next begins.
    /// Their places are put into `places`, which is lent empty, at most as many as it has room for; gives their item
    /// and rank. `None`, and no step is taken, where no such steps come next, or where the order can't tell. Takes no
    /// memory.
    fn next_alone(&mut self, places: &mut Vec<u32>) -> Option<ItemOnRank>
        requires empty { places.old.items ≡ [] }
        ensures some { IfSome result (λ of. left self.old ≡ alone of.item of.rank places.new.items ++ left self.new) }
        ensures more { IfSome result (λ of. 0 < length places.new.items) }
        ensures none { IfNone result (left self.new ≡ left self.old) }
        ensures room { vec_capacity places.new ≡ vec_capacity places.old }
    {
        let _none_taken = places;
        None
    }

    /// Takes the steps of a closed group: elements of one item and rank that begin one after another, and then end in
    /// the same order. Their places are put into `places`, which is lent empty; gives their item and rank. `None`, and
    /// no step is taken, where no such group comes next, where there is no room for its places, or where the order
    /// can't tell. Takes no memory.
    fn next_closed(&mut self, places: &mut Vec<u32>) -> Option<ItemOnRank>
        requires empty { places.old.items ≡ [] }
        ensures some { IfSome result (λ of. left self.old
            ≡ (begins of.item of.rank places.new.items ++ ends of.item of.rank places.new.items) ++ left self.new) }
        ensures more { IfSome result (λ of. 0 < length places.new.items) }
        ensures none { IfNone result (left self.new ≡ left self.old) }
        ensures room { vec_capacity places.new ≡ vec_capacity places.old }
    {
        let _none_taken = places;
        None
    }
}

/// The steps of a list. Contracts see those still to come.
#[derive(Debug, Drop)]
pub struct Listed<'a> {
    steps: &'a [Step],
}

impl<'a> Model for Listed<'a> {
    ghost use Rattle.std.specs.Prelude.{List};
    ghost use Rattle.schedule_steps.specs.declared.step.Step.{Step as StepValue};

    ghost Value = { List StepValue };

    ghost view = { λ l. l.steps.now };
}

impl<'a> Listed<'a> {
    /// All steps of the list are still to come. Takes no memory.
    pub fn new(steps: &'a [Step]) -> Listed<'a>
        ensures { result ≡ steps.now }
    {
        Listed { steps }
    }
}

impl<'a> Steps for Listed<'a> {
    ghost left = { λ l. l };

    fn next_step(&mut self) -> Option<Step> {
        match self.steps {
            [] => None,
            [first, rest @ ..] => {
                self.steps = rest;
                Some(*first)
            }
        }
    }
}
