// The marks of a plan's steps.
ghost use Rattle.std.specs.Prelude.{◌≡◌, ◌<◌, ◌≤◌, ◌↔◌, ◌⊎◌, ℕ, true, false, IsTrue, IfOk, length, slice_index_or};
ghost use Rattle.schedule_steps.specs.Outline.{by_colour};
ghost use Rattle.schedule_steps.specs.declared.step.Step.{Step};
ghost use Rattle.schedule_steps.specs.declared.step.Step.TheVariants.{Send, Recv, Begin, End, Join};
ghost use Rattle.schedule_steps.specs.Steps.{IsStep};
ghost use Rattle.schedule_steps.specs.Judged.{is_step};
ghost use Rattle.step_judge.specs.Run.{core_at};
ghost use Rattle.step_judge.specs.Item.{Item, Complete, MayGo, run_at, place_of};
ghost use Rattle.step_judge.specs.Marked.{item_at, outline_of, taken, IsReady, Stands, TakesOne};
ghost use Rattle.step_judge.specs.Kept.{LaidOut};

use crate::marks::items::ItemMarks;
use schedule_steps::Step;
use std::alloc::{AllocError, Global};
use std::marker::Model;

/// Which steps of a plan are taken. `at` has by rank an item before which all its steps are taken.
#[derive(Drop)]
pub struct StepMarks {
    ranks: u32,
    items: Vec<ItemMarks>,
    at: Vec<usize>,
}

impl Model for StepMarks {
    ghost use Rattle.step_judge.specs.Marked.{Marked};
    ghost use Rattle.step_judge.specs.Kept.{Whole};

    ghost Value = { Marked };

    ghost view = { λ s. record { ranks = s.ranks; items = s.items.items } };

    ghost invariant = { λ s. Whole record { ranks = s.ranks; items = s.items.items } s.at.items };
}

// The first item from `from` on that isn't done for the rank, or `to`.
fn advance(items: &mut [ItemMarks], rank: u32, from: usize, to: usize) -> usize
    requires to { to ≤ length items.old }
    requires runs { (k : ℕ) (d : Item) → k < length items.old → (slice_index_or items.old k d).free ≡ true
        → rank < length (slice_index_or items.old k d).ranks }
    ensures same { items.new ≡ items.old }
    ensures from { from ≤ result }
    ensures within { (result ≤ to) ⊎ (result ≡ from) }
    ensures passed { (k : ℕ) (d : Item) → from ≤ k → k < result → Complete (slice_index_or items.old k d) rank }
    ensures stop { (d : Item) → result < to → Complete (slice_index_or items.old result d) rank → ⊥ }
{
    let mut here = from;
    while here < to && items[here].is_complete(rank) {
        here += 1;
    }
    here
}

// Whether both hold.
fn both(first: bool, second: bool) -> bool
    ensures { IsTrue result ↔ (IsTrue first × IsTrue second) }
{
    first && second
}

impl StepMarks {
    /// No step is taken but those that the items have marked.
    pub fn new(alloc: Global, ranks: u32, items: Vec<ItemMarks>) -> Result<Self, AllocError>
        requires { LaidOut record { ranks = ranks; items = items.items } }
        ensures { IfOk result (λ v. v ≡ record { ranks = ranks; items = items.items }) }
    {
        let at = vec![in alloc; 0usize; ranks as usize]?;
        Ok(StepMarks { ranks, items, at })
    }

    /// How many ranks there are.
    pub fn ranks(&self) -> u32
        ensures { result ≡ self.now.ranks }
    {
        self.ranks
    }

    /// How many items there are.
    pub fn items(&self) -> u32
        ensures { result ≡ length self.now.items }
    {
        self.items.len() as u32
    }

    /// Whether the item is Free; any other is one join.
    pub fn is_free(&self, item: u32) -> bool
        requires { item < length self.now.items }
        ensures { result ≡ (item_at self.now item).free }
    {
        self.items[item as usize].is_free()
    }

    /// How many places the rank has in a Free item.
    pub fn places(&self, item: u32, rank: u32) -> u32
        requires item { item < length self.now.items }
        requires free { (item_at self.now item).free ≡ true }
        requires rank { rank < self.now.ranks }
        ensures { result ≡ length (run_at (item_at self.now item) rank).begun }
    {
        self.items[item as usize].places(rank as usize)
    }

    /// The place of the message in its item, or the number of messages.
    pub fn pair(&self, item: u32, from: u32, to: u32) -> usize
        ensures { result ≡ place_of (item_at self.now item) from to }
    {
        match self.items.get(item as usize) {
            Some(here) => here.find(from, to),
            None => 0,
        }
    }

    // Whether the rank's steps of all items before this one are taken.
    fn stands(&mut self, rank: u32, item: u32) -> bool
        requires rank { rank < self.old.ranks }
        requires item { item < length self.old.items }
        ensures answer { IsTrue result ↔ Stands self.old rank item }
        ensures same { self.new ≡ self.old }
    {
        let from = self.at[rank as usize];
        let here = advance(&mut self.items, rank, from, item as usize);
        self.at[rank as usize] = here;
        here >= item as usize
    }

    // Whether each rank's steps of all items before this one are taken.
    fn all_stand(&mut self, item: u32) -> bool
        requires { item < length self.old.items }
        ensures answer { IsTrue result ↔ ((x : ℕ) → x < self.old.ranks → Stands self.old x item) }
        ensures same { self.new ≡ self.old }
    {
        for rank in 0..self.ranks {
            if !self.stands(rank, item) {
                return false;
            }
        }
        true
    }

    /// Whether the plan has the step.
    pub fn has_step(&self, step: Step) -> bool
        ensures { result ≡ is_step (outline_of self.now) step }
    {
        match step {
            Step::Send { item, from, to } => self.has_pair(item, from, to),
            Step::Recv { item, rank, from } => self.has_pair(item, from, rank),
            Step::Begin { item, rank, place } => self.has_place(item, rank, place),
            Step::End { item, rank, place } => self.has_place(item, rank, place),
            Step::Join { item } => (item as usize) < self.items.len()
                && !self.items[item as usize].is_free(),
        }
    }

    // Whether the plan has the message.
    fn has_pair(&self, item: u32, from: u32, to: u32) -> bool
        ensures { result ≡ is_step (outline_of self.now) (Send item from to) }
    {
        if item as usize >= self.items.len() {
            return false;
        }
        let here = &self.items[item as usize];
        here.is_free()
            && (from < self.ranks && (to < self.ranks && here.find(from, to) < here.pairs()))
    }

    // Whether the rank has the place in a Free item.
    fn has_place(&self, item: u32, rank: u32, place: u32) -> bool
        ensures { result ≡ is_step (outline_of self.now) (Begin item rank place) }
    {
        if item as usize >= self.items.len() {
            return false;
        }
        let here = &self.items[item as usize];
        here.is_free() && (rank < self.ranks && place < here.places(rank as usize))
    }

    /// Whether the step is taken.
    pub fn is_taken(&self, step: Step) -> bool
        requires { IsStep (outline_of self.now) step }
        ensures { result ≡ taken self.now step }
    {
        match step {
            Step::Send { item, from, to } => self.is_sent(item, from, to),
            Step::Recv { item, rank, from } => self.is_received(item, rank, from),
            Step::Begin { item, rank, place } => self.has_begun(item, rank, place),
            Step::End { item, rank, place } => self.has_ended(item, rank, place),
            Step::Join { item } => self.items[item as usize].is_joined(),
        }
    }

    /// Whether the place needs no import.
    pub fn is_core(&self, item: u32, rank: u32, place: u32) -> bool
        requires { IsStep (outline_of self.now) (Begin item rank place) }
        ensures { result ≡ core_at (run_at (item_at self.now item) rank) place }
    {
        self.items[item as usize].is_core(rank as usize, place as usize)
    }

    /// Whether the first place has to end before the second begins.
    pub fn is_lower(&self, item: u32, rank: u32, first: u32, second: u32) -> bool
        requires first { IsStep (outline_of self.now) (Begin item rank first) }
        requires second { IsStep (outline_of self.now) (Begin item rank second) }
        ensures { result ≡ by_colour (outline_of self.now) item rank first second }
    {
        self.items[item as usize].is_lower(rank as usize, first as usize, second as usize)
    }

    // Whether the send is taken.
    fn is_sent(&self, item: u32, from: u32, to: u32) -> bool
        requires { IsStep (outline_of self.now) (Send item from to) }
        ensures { result ≡ taken self.now (Send item from to) }
    {
        let here = &self.items[item as usize];
        here.is_sent(here.find(from, to))
    }

    // Whether the receive is taken.
    fn is_received(&self, item: u32, rank: u32, from: u32) -> bool
        requires { IsStep (outline_of self.now) (Recv item rank from) }
        ensures { result ≡ taken self.now (Recv item rank from) }
    {
        let here = &self.items[item as usize];
        here.is_received(here.find(from, rank))
    }

    // Whether the place has begun.
    fn has_begun(&self, item: u32, rank: u32, place: u32) -> bool
        requires { IsStep (outline_of self.now) (Begin item rank place) }
        ensures { result ≡ taken self.now (Begin item rank place) }
    {
        self.items[item as usize].has_begun(rank as usize, place as usize)
    }

    // Whether the place has ended.
    fn has_ended(&self, item: u32, rank: u32, place: u32) -> bool
        requires { IsStep (outline_of self.now) (End item rank place) }
        ensures { result ≡ taken self.now (End item rank place) }
    {
        self.items[item as usize].has_ended(rank as usize, place as usize)
    }

    // Marks the send.
    fn take_send(&mut self, item: u32, from: u32, to: u32)
        requires step { IsStep (outline_of self.old) (Send item from to) }
        requires open { taken self.old (Send item from to) ≡ false }
        ensures { TakesOne self.old self.new (Send item from to) }
    {
        let here = &mut self.items[item as usize];
        let pair = here.find(from, to);
        here.send(pair);
    }

    // Marks the receive.
    fn take_recv(&mut self, item: u32, rank: u32, from: u32)
        requires step { IsStep (outline_of self.old) (Recv item rank from) }
        requires open { taken self.old (Recv item rank from) ≡ false }
        ensures { TakesOne self.old self.new (Recv item rank from) }
    {
        let here = &mut self.items[item as usize];
        let pair = here.find(from, rank);
        here.receive(pair);
    }

    // Marks the begin.
    fn take_begin(&mut self, item: u32, rank: u32, place: u32)
        requires step { IsStep (outline_of self.old) (Begin item rank place) }
        ensures { TakesOne self.old self.new (Begin item rank place) }
    {
        let here = &mut self.items[item as usize];
        here.begin(rank as usize, place as usize);
    }

    // Marks the end.
    fn take_end(&mut self, item: u32, rank: u32, place: u32)
        requires step { IsStep (outline_of self.old) (End item rank place) }
        requires begun { taken self.old (Begin item rank place) ≡ true }
        requires open { taken self.old (End item rank place) ≡ false }
        ensures { TakesOne self.old self.new (End item rank place) }
    {
        let here = &mut self.items[item as usize];
        here.end(rank as usize, place as usize);
    }

    // Marks the join.
    fn take_join(&mut self, item: u32)
        requires { IsStep (outline_of self.old) (Join item) }
        ensures { TakesOne self.old self.new (Join item) }
    {
        let here = &mut self.items[item as usize];
        here.join();
    }

    // Whether each step earlier than the send is taken.
    fn send_ready(&mut self, item: u32, from: u32, to: u32) -> bool
        requires { IsStep (outline_of self.old) (Send item from to) }
        ensures answer { IsTrue result ↔ IsReady self.old (Send item from to) }
        ensures same { self.new ≡ self.old }
    {
        let _ = &self.items;
        self.stands(from, item)
    }

    // Whether each step earlier than the receive is taken.
    fn recv_ready(&mut self, item: u32, rank: u32, from: u32) -> bool
        requires { IsStep (outline_of self.old) (Recv item rank from) }
        ensures answer { IsTrue result ↔ IsReady self.old (Recv item rank from) }
        ensures same { self.new ≡ self.old }
    {
        let _ = &self.items;
        let sent = self.is_sent(item, from, rank);
        let stands = self.stands(rank, item);
        both(stands, sent)
    }

    // Whether each step earlier than the begin is taken.
    fn begin_ready(&mut self, item: u32, rank: u32, place: u32) -> bool
        requires { IsStep (outline_of self.old) (Begin item rank place) }
        ensures answer { IsTrue result ↔ IsReady self.old (Begin item rank place) }
        ensures same { self.new ≡ self.old }
    {
        let _ = &self.items;
        let stands = self.stands(rank, item);
        let may = self.may_go(item, rank, place);
        both(stands, may)
    }

    // Whether each step of the item that is earlier than the begin is taken.
    fn may_go(&mut self, item: u32, rank: u32, place: u32) -> bool
        requires { IsStep (outline_of self.old) (Begin item rank place) }
        ensures answer { IsTrue result ↔ MayGo (item_at self.old item) rank place }
        ensures same { self.new ≡ self.old }
    {
        self.items[item as usize].may_go(rank, place as usize)
    }

    // Whether each step earlier than the end is taken.
    fn end_ready(&mut self, item: u32, rank: u32, place: u32) -> bool
        requires { IsStep (outline_of self.old) (End item rank place) }
        ensures answer { IsTrue result ↔ IsReady self.old (End item rank place) }
        ensures same { self.new ≡ self.old }
    {
        let _ = &self.items;
        let begun = self.has_begun(item, rank, place);
        let stands = self.stands(rank, item);
        both(stands, begun)
    }

    // Whether each step earlier than the join is taken.
    fn join_ready(&mut self, item: u32) -> bool
        requires { IsStep (outline_of self.old) (Join item) }
        ensures answer { IsTrue result ↔ IsReady self.old (Join item) }
        ensures same { self.new ≡ self.old }
    {
        let _ = &self.items;
        self.all_stand(item)
    }

    /// Whether each earlier step is taken. Only pointers move.
    pub fn is_ready(&mut self, step: Step) -> bool
        requires { IsStep (outline_of self.old) step }
        ensures answer { IsTrue result ↔ IsReady self.old step }
        ensures same { self.new ≡ self.old }
    {
        match step {
            Step::Send { item, from, to } => self.send_ready(item, from, to),
            Step::Recv { item, rank, from } => self.recv_ready(item, rank, from),
            Step::Begin { item, rank, place } => self.begin_ready(item, rank, place),
            Step::End { item, rank, place } => self.end_ready(item, rank, place),
            Step::Join { item } => self.join_ready(item),
        }
    }

    /// Takes a step that is ready and not taken.
    pub fn mark(&mut self, step: Step)
        requires step { IsStep (outline_of self.old) step }
        requires open { taken self.old step ≡ false }
        requires ready { IsReady self.old step }
        ensures { TakesOne self.old self.new step }
    {
        let _ = &self.items;
        match step {
            Step::Send { item, from, to } => self.take_send(item, from, to),
            Step::Recv { item, rank, from } => self.take_recv(item, rank, from),
            Step::Begin { item, rank, place } => self.take_begin(item, rank, place),
            Step::End { item, rank, place } => self.take_end(item, rank, place),
            Step::Join { item } => self.take_join(item),
        }
    }
}
