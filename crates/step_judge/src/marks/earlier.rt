// Which steps are earlier than which.
ghost use Rattle.std.specs.Prelude.{◌≡◌, ◌==◌, ◌&&◌, not};
ghost use Rattle.schedule_steps.specs.Outline.{by_colour};
ghost use Rattle.schedule_steps.specs.declared.step.Step.TheVariants.{Send, Recv, Begin, End};
ghost use Rattle.schedule_steps.specs.Steps.{item, IsStep, same3};
ghost use Rattle.schedule_steps.specs.Judged.{rank_of, share_rank, is_earlier_in_item, is_earlier};
ghost use Rattle.step_judge.specs.Item.{run_at};
ghost use Rattle.step_judge.specs.Run.{core_at};
ghost use Rattle.step_judge.specs.Marked.{item_at, outline_of};

use crate::marks::marks::StepMarks;
use schedule_steps::Step;

// The item of a step.
fn item_of(step: Step) -> u32
    ensures { result ≡ item step }
{
    match step {
        Step::Send { item, .. } => item,
        Step::Recv { item, .. } => item,
        Step::Begin { item, .. } => item,
        Step::End { item, .. } => item,
        Step::Join { item } => item,
    }
}

// The rank of a step; a join is of every rank.
fn rank_of(step: Step) -> Option<u32>
    ensures { result ≡ rank_of step }
{
    match step {
        Step::Send { from, .. } => Some(from),
        Step::Recv { rank, .. } => Some(rank),
        Step::Begin { rank, .. } => Some(rank),
        Step::End { rank, .. } => Some(rank),
        Step::Join { .. } => None,
    }
}

// Whether some rank has both steps.
fn share_rank(first: Option<u32>, second: Option<u32>) -> bool
    ensures { result ≡ share_rank first second }
{
    match (first, second) {
        (Some(mine), Some(other)) => mine == other,
        _ => true,
    }
}

// Whether all three are equal.
fn is_same(a: u32, b: u32, c: u32, x: u32, y: u32, z: u32) -> bool
    ensures { result ≡ same3 a b c x y z }
{
    a == x && (b == y && c == z)
}

impl StepMarks {
    // Whether a receive comes before the begin of a place by the rule on places that aren't core.
    fn is_awaited(&self, received: u32, receiver: u32, item: u32, rank: u32, place: u32) -> bool
        requires { IsStep (outline_of self.now) (Begin item rank place) }
        ensures { result
            ≡ ((received == item) && ((receiver == rank) && not (core_at (run_at (item_at self.now received) receiver) place))) }
    {
        if received == item {
            if receiver == rank {
                return !self.is_core(item, rank, place);
            }
        }
        false
    }

    // Whether an end comes before the begin of a place by colours.
    fn is_before(
        &self,
        ended: u32,
        ender: u32,
        first: u32,
        item: u32,
        rank: u32,
        place: u32,
    ) -> bool
        requires first { IsStep (outline_of self.now) (End ended ender first) }
        requires second { IsStep (outline_of self.now) (Begin item rank place) }
        ensures { result ≡ ((ended == item) && ((ender == rank) && by_colour (outline_of self.now) ended ender first place)) }
    {
        if ended == item {
            if ender == rank {
                return self.is_lower(item, rank, first, place);
            }
        }
        false
    }

    fn is_earlier_send(&self, item: u32, from: u32, to: u32, second: Step) -> bool
        ensures { result ≡ is_earlier_in_item (outline_of self.now) (Send item from to) second }
    {
        match second {
            Step::Send { .. } => false,
            Step::Recv {
                item: other,
                rank,
                from: sender,
            } => { is_same(item, from, to, other, sender, rank) }
            Step::Begin {
                item: other,
                rank,
                ..
            } => item == other && from == rank,
            Step::End { .. } => false,
            Step::Join { .. } => false,
        }
    }

    fn is_earlier_recv(&self, item: u32, rank: u32, from: u32, second: Step) -> bool
        requires second { IsStep (outline_of self.now) second }
        ensures { result ≡ is_earlier_in_item (outline_of self.now) (Recv item rank from) second }
    {
        match second {
            Step::Send { .. } => false,
            Step::Recv { .. } => false,
            Step::Begin {
                item: other,
                rank: beginner,
                place,
            } => { self.is_awaited(item, rank, other, beginner, place) }
            Step::End { .. } => false,
            Step::Join { .. } => false,
        }
    }

    fn is_earlier_begin(&self, item: u32, rank: u32, place: u32, second: Step) -> bool
        ensures { result ≡ is_earlier_in_item (outline_of self.now) (Begin item rank place) second }
    {
        match second {
            Step::Send { .. } => false,
            Step::Recv { .. } => false,
            Step::Begin { .. } => false,
            Step::End {
                item: other,
                rank: ender,
                place: ended,
            } => { is_same(item, rank, place, other, ender, ended) }
            Step::Join { .. } => false,
        }
    }

    fn is_earlier_end(&self, item: u32, rank: u32, place: u32, second: Step) -> bool
        requires first { IsStep (outline_of self.now) (End item rank place) }
        requires second { IsStep (outline_of self.now) second }
        ensures { result ≡ is_earlier_in_item (outline_of self.now) (End item rank place) second }
    {
        match second {
            Step::Send { .. } => false,
            Step::Recv { .. } => false,
            Step::Begin {
                item: other,
                rank: beginner,
                place: begun,
            } => { self.is_before(item, rank, place, other, beginner, begun) }
            Step::End { .. } => false,
            Step::Join { .. } => false,
        }
    }

    // Whether the first step is earlier than the second by a rule on the steps of one item.
    fn is_earlier_in_item(&self, first: Step, second: Step) -> bool
        requires first { IsStep (outline_of self.now) first }
        requires second { IsStep (outline_of self.now) second }
        ensures { result ≡ is_earlier_in_item (outline_of self.now) first second }
    {
        match first {
            Step::Send { item, from, to } => self.is_earlier_send(item, from, to, second),
            Step::Recv { item, rank, from } => self.is_earlier_recv(item, rank, from, second),
            Step::Begin { item, rank, place } => self.is_earlier_begin(item, rank, place, second),
            Step::End { item, rank, place } => self.is_earlier_end(item, rank, place, second),
            Step::Join { .. } => false,
        }
    }

    /// Whether the first step has to come before the second.
    pub fn is_earlier(&self, first: Step, second: Step) -> bool
        requires first { IsStep (outline_of self.now) first }
        requires second { IsStep (outline_of self.now) second }
        ensures { result ≡ is_earlier (outline_of self.now) first second }
    {
        (item_of(first) < item_of(second) && share_rank(rank_of(first), rank_of(second)))
            || self.is_earlier_in_item(first, second)
    }
}
