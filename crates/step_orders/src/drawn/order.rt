// The drawn order of a plan's steps.
ghost use Rattle.std.specs.Prelude.{◌≡◌, ◌<◌, ℕ, [], IfOk, length, map, slice_index_or};
ghost use Rattle.schedule_steps.specs.Steps.{Accepted};
ghost use Rattle.schedule_steps.specs.Drawn.{own, IsDrawn};
ghost use Rattle.step_orders.specs.Left.{IsFirst};
ghost use Rattle.step_orders.specs.UnderWay.{IsKept, left_in};

use crate::drawn::ranks::{first_heads, mark_sent, next_join, nothing_sent, take_step};
use crate::drawn::turns::{Turn, drawn_number, next_turn};
use crate::{OwnSteps, Shape, Steps, list_of};
use op_num::OutOfMemory;
use schedule_steps::Step;
use std::alloc::Global;
use std::marker::Model;

// By rank, the stream of its own steps.
fn own_streams<'a, S: Shape>(
    alloc: Global,
    shape: &'a S,
) -> Result<Vec<OwnSteps<'a, S>>, OutOfMemory>
    ensures count { IfOk result (λ v. length v.items ≡ (S.outline shape.now).ranks) }
    ensures own { IfOk result (λ v. (r : ℕ) → r < (S.outline shape.now).ranks
        → slice_index_or (map ⟦<OwnSteps<'a, S> as Steps>⟧.left v.items) r [] ≡ own (S.outline shape.now) (S.group shape.now) r) }
{
    let mut streams = Vec::new(alloc);
    for rank in 0..shape.ranks() {
        streams.push(OwnSteps::new(shape, rank))?;
    }
    Ok(streams)
}

// The next step of a drawn order, which is taken. By rank these are its next step and the stream of those behind it,
// `number` is the number that was drawn last, `join` the next join or the number of items, and `found` scratch room for
// a number for each rank.
fn take_turn<S: Shape, T: Steps>(
    shape: &S,
    streams: &mut [T],
    heads: &mut [Option<Step>],
    sent: &mut [Vec<u32>],
    found: &mut [u32],
    number: &mut u64,
    join: &mut u32,
) -> Option<Step>
    requires kept { IsKept (S.outline shape.now) heads.old (map T.left streams.old) sent.old (length found.old) number.old join.old }
    ensures kept { IsKept (S.outline shape.now) heads.new (map T.left streams.new) sent.new (length found.new) number.new join.new }
    ensures first { IsFirst (left_in (S.outline shape.now) heads.old (map T.left streams.old) sent.old number.old join.old) result
        (left_in (S.outline shape.now) heads.new (map T.left streams.new) sent.new number.new join.new) }
{
    schedule_steps::accepted_lists_have_all_steps();
    let drawn = drawn_number(*number);
    match next_turn(found, heads, sent, shape.items(), *join, drawn) {
        Turn::Over => None,
        Turn::Join => {
            let item = *join;
            *join = next_join(shape, item + 1);
            Some(Step::Join { item })
        }
        Turn::Rank { rank } => {
            let Some(step) = take_step(heads, streams, rank) else {
                unreachable!();
            };
            mark_sent(sent, step);
            *number = drawn;
            Some(step)
        }
    }
}

/// The drawn order of a plan's steps by a seed, one step after another. It holds no list of them, and is one itself to
/// contracts: the steps still to come.
///
/// A turn looks at the next step of each rank, so a step takes time by the number of ranks.
#[derive(Drop)]
pub struct DrawnOrder<'a, S: Shape> {
    shape: &'a S,
    streams: Vec<OwnSteps<'a, S>>,
    heads: Vec<Option<Step>>,
    sent: Vec<Vec<u32>>,
    found: Vec<u32>,
    number: u64,
    join: u32,
}

impl<'a, S: Shape> Model for DrawnOrder<'a, S> {
    ghost use Rattle.std.specs.Prelude.{List, map, length};
    ghost use Rattle.schedule_steps.specs.declared.step.Step.{Step as StepValue};
    ghost use Rattle.step_orders.specs.OwnLeft.{own_left};
    ghost use Rattle.step_orders.specs.UnderWay.{IsKept, left_in};

    ghost Value = { List StepValue };

    ghost view = { λ d. left_in (S.outline d.shape.now) d.heads.items
        (map (λ t. own_left (S.outline t.shape.now) (S.group t.shape.now) t.rank t.here) d.streams.items)
        d.sent.items d.number d.join };

    ghost invariant = { λ d. IsKept (S.outline d.shape.now) d.heads.items
        (map (λ t. own_left (S.outline t.shape.now) (S.group t.shape.now) t.rank t.here) d.streams.items)
        d.sent.items (length d.found.items) d.number d.join };
}

impl<'a, S: Shape> DrawnOrder<'a, S> {
    /// All steps of the drawn order by this seed, any number, are still to come: the only one by this seed, which is
    /// accepted. All memory that it ever takes is taken here. An error is want of memory.
    pub fn new(alloc: Global, shape: &'a S, seed: u64) -> Result<DrawnOrder<'a, S>, OutOfMemory>
        ensures drawn { IfOk result (λ d. IsDrawn (S.outline shape.now) (S.group shape.now) seed d) }
        ensures accepted { IfOk result (λ d. Accepted (S.outline shape.now) d) }
    {
        schedule_steps::drawn_exists();
        schedule_steps::drawn_is_accepted();
        schedule_steps::accepted_lists_have_all_steps();
        let sent = nothing_sent(alloc, shape.ranks())?;
        let mut streams = own_streams(alloc, shape)?;
        let heads = first_heads(alloc, &mut streams)?;
        let found = vec![in alloc; 0; shape.ranks() as usize]?;
        Ok(DrawnOrder {
            shape,
            streams,
            heads,
            sent,
            found,
            number: seed,
            join: next_join(shape, 0),
        })
    }
}

impl<'a, S: Shape> Steps for DrawnOrder<'a, S> {
    ghost left = { λ d. d };

    fn next_step(&mut self) -> Option<Step> {
        take_turn(
            self.shape,
            &mut self.streams,
            &mut self.heads,
            &mut self.sent,
            &mut self.found,
            &mut self.number,
            &mut self.join,
        )
    }
}

/// The drawn order of a plan's steps by a seed, in a list. It is the only one by this seed, and it is accepted.
///
/// A turn looks at the next step of each rank, so the list takes time by its length times the number of ranks. An error
/// is want of memory.
pub fn drawn<S: Shape>(alloc: Global, shape: &S, seed: u64) -> Result<Vec<Step>, OutOfMemory>
    ensures drawn { IfOk result (λ l. IsDrawn (S.outline shape.now) (S.group shape.now) seed l.items) }
    ensures accepted { IfOk result (λ l. Accepted (S.outline shape.now) l.items) }
{
    let mut order = DrawnOrder::new(alloc, shape, seed)?;
    let list = list_of(alloc, &mut order)?;
    Ok(list)
}
