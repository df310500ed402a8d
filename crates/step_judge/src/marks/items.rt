// One item's steps, and which are taken.
ghost use Rattle.std.specs.Prelude.{◌≡◌, ◌<◌, ◌≤◌, ◌^◌, ◌↔◌, ◌==◌, ◌||◌, ◌&&◌, ℕ, true, false, IsTrue, IfOk, length, slice_set};
ghost use Rattle.std.specs.Prelude.{slice_index, slice_index_or, EachIndex};
ghost use Rattle.step_judge.specs.Item.{Paired, Complete, MayGo, AllSent, AllReceived, pair_at, place_of, linked, run_at};
ghost use Rattle.step_judge.specs.Rising.{Before, RisingUpTo, Rising};
ghost use Rattle.step_judge.specs.NewItem.{free_item, join_item};
ghost use Rattle.step_judge.specs.Run.{Run, begun_at, ended_at, core_at, lower, SamePlaces};

use crate::marks::places::Places;
use crate::marks::stages::Stages;
use std::alloc::{AllocError, Global};
use std::marker::Model;

/// The marks of one item: its messages by sender and by receiver, its places by rank, and whether it is joined. An item
/// is Free or one join. `rising` tells that the pairs rise by sender and receiver, so that one is found by halving.
#[derive(Drop)]
pub struct ItemMarks {
    free: bool,
    joined: bool,
    sends: Stages,
    receipts: Stages,
    ranks: Vec<Places>,
    rising: bool,
}

impl Model for ItemMarks {
    ghost use Rattle.std.specs.Prelude.{IsTrue};
    ghost use Rattle.step_judge.specs.Item.{Item, Paired};
    ghost use Rattle.step_judge.specs.Rising.{Rising};

    ghost Value = { Item };

    ghost view = { λ s. record { free = s.free; joined = s.joined; sends = s.sends; receipts = s.receipts; ranks = s.ranks.items } };

    ghost invariant = { λ s. Paired
        record { free = s.free; joined = s.joined; sends = s.sends; receipts = s.receipts; ranks = s.ranks.items }
        × (IsTrue s.rising → Rising s.sends.of s.receipts.of) };
}

// Whether both are as asked.
fn is_pair(first: u32, second: u32, from: u32, to: u32) -> bool
    ensures { result ≡ ((first == from) && (second == to)) }
{
    first == from && second == to
}

// The first pair of this sender and this receiver, or the number of pairs.
fn pair_in(sends: &Stages, receipts: &Stages, from: u32, to: u32) -> usize
    requires { length receipts.now.of ≡ length sends.now.of }
    ensures { result ≡ pair_at sends.now.of receipts.now.of from to }
{
    let mut here = 0;
    while here < sends.len() {
        let first = sends.stage(here);
        let second = receipts.stage(here);
        if is_pair(first, second, from, to) {
            return here;
        }
        here += 1;
    }
    here
}

// Whether the first pair stands before the second.
fn is_before(from: u32, to: u32, next_from: u32, next_to: u32) -> bool
    ensures { IsTrue result ↔ Before from to next_from next_to }
{
    from < next_from || (from == next_from && to < next_to)
}

// Whether each pair stands before the later ones.
fn is_rising(sends: &Stages, receipts: &Stages) -> bool
    requires { length receipts.now.of ≡ length sends.now.of }
    ensures { IsTrue result → Rising sends.now.of receipts.now.of }
{
    for here in 1..sends.len() {
        let from = sends.stage(here - 1);
        let to = receipts.stage(here - 1);
        if !is_before(from, to, sends.stage(here), receipts.stage(here)) {
            return false;
        }
    }
    true
}

// The first of rising pairs that doesn't stand before this one, or the number of pairs.
fn first_from(sends: &Stages, receipts: &Stages, from: u32, to: u32) -> usize
    requires both { length receipts.now.of ≡ length sends.now.of }
    requires rising { Rising sends.now.of receipts.now.of }
    ensures within { result ≤ length sends.now.of }
    ensures before { (i : ℕ) → i < result → Before (slice_index sends.now.of i) (slice_index receipts.now.of i) from to }
    ensures later { (i : ℕ) → result ≤ i → i < length sends.now.of
        → Before (slice_index sends.now.of i) (slice_index receipts.now.of i) from to → ⊥ }
{
    let mut low = 0;
    let mut high = sends.len();
    while low < high {
        let middle = low + (high - low) / 2;
        if is_before(sends.stage(middle), receipts.stage(middle), from, to) {
            low = middle + 1;
        } else {
            high = middle;
        }
    }
    low
}

// Among rising pairs, the pair of this sender and this receiver, or the number of pairs.
fn pair_among(sends: &Stages, receipts: &Stages, from: u32, to: u32) -> usize
    requires both { length receipts.now.of ≡ length sends.now.of }
    requires rising { Rising sends.now.of receipts.now.of }
    ensures { result ≡ pair_at sends.now.of receipts.now.of from to }
{
    let here = first_from(sends, receipts, from, to);
    if here >= sends.len() {
        return sends.len();
    }
    if is_pair(sends.stage(here), receipts.stage(here), from, to) {
        return here;
    }
    sends.len()
}

// Whether all three hold.
fn all_of(first: bool, second: bool, third: bool) -> bool
    ensures { IsTrue result ↔ (IsTrue first × IsTrue second × IsTrue third) }
{
    first && second && third
}

// Whether a place that needs its imports has them.
fn has_imports(core: bool, received: bool) -> bool
    ensures { IsTrue result ↔ (core ≡ false → IsTrue received) }
{
    core || received
}

impl ItemMarks {
    /// An item of which nothing is joined yet.
    pub fn new(free: bool, sends: Stages, receipts: Stages, ranks: Vec<Places>) -> Self
        requires { Paired record { free = free; joined = false; sends = sends; receipts = receipts; ranks = ranks.items } }
        ensures { result ≡ record { free = free; joined = false; sends = sends; receipts = receipts; ranks = ranks.items } }
    {
        let rising = is_rising(&sends, &receipts);
        ItemMarks {
            free,
            joined: false,
            sends,
            receipts,
            ranks,
            rising,
        }
    }

    /// A Free item of which no step is taken: its messages by sender and receiver, and by rank its places.
    pub fn of_messages(
        alloc: Global,
        ranks: u32,
        senders: Vec<u32>,
        receivers: Vec<u32>,
        places: Vec<Places>,
    ) -> Result<Self, AllocError>
        requires few { length senders.items < 2 ^ 32 }
        requires both { length receivers.items ≡ length senders.items }
        requires from { EachIndex senders.items (λ i. slice_index senders.items i < ranks) }
        requires to { EachIndex receivers.items (λ i. slice_index receivers.items i < ranks) }
        requires apart { (i : ℕ) → i < length senders.items
            → pair_at senders.items receivers.items (slice_index senders.items i) (slice_index receivers.items i) ≡ i }
        ensures { IfOk result (λ w. w ≡ free_item senders.items receivers.items places.items) }
    {
        let sends = Stages::new(alloc, senders, ranks)?;
        let receipts = Stages::new(alloc, receivers, ranks)?;
        Ok(ItemMarks::new(true, sends, receipts, places))
    }

    /// An item that is one join, which is not taken.
    pub fn of_join(alloc: Global) -> Result<Self, AllocError>
        ensures { IfOk result (λ w. w ≡ join_item) }
    {
        let sends = Stages::new(alloc, Vec::new(alloc), 0)?;
        let receipts = Stages::new(alloc, Vec::new(alloc), 0)?;
        Ok(ItemMarks::new(false, sends, receipts, Vec::new(alloc)))
    }

    /// Whether the item is Free; any other is one join.
    pub fn is_free(&self) -> bool
        ensures { result ≡ self.now.free }
    {
        self.free
    }

    /// Whether the join is taken.
    pub fn is_joined(&self) -> bool
        ensures { result ≡ self.now.joined }
    {
        self.joined
    }

    /// How many ranks have places.
    pub fn ranks(&self) -> usize
        ensures { result ≡ length self.now.ranks }
    {
        self.ranks.len()
    }

    /// The number of the pair, or the number of pairs.
    pub fn find(&self, from: u32, to: u32) -> usize
        ensures place { result ≡ place_of self.now from to }
        ensures paired { Paired self.now }
    {
        if self.rising {
            return pair_among(&self.sends, &self.receipts, from, to);
        }
        pair_in(&self.sends, &self.receipts, from, to)
    }

    // Whether the rank's sends are taken.
    fn all_sent(&self, rank: u32) -> bool
        ensures { IsTrue result ↔ AllSent self.now rank }
    {
        self.sends.stage_done(rank)
    }

    // Whether the rank's receives are taken.
    fn all_received(&self, rank: u32) -> bool
        ensures { IsTrue result ↔ AllReceived self.now rank }
    {
        self.receipts.stage_done(rank)
    }

    /// How many pairs there are.
    pub fn pairs(&self) -> usize
        ensures { result ≡ length self.now.sends.of }
    {
        self.sends.len()
    }

    /// Whether the send of the pair is taken.
    pub fn is_sent(&self, pair: usize) -> bool
        requires { pair < length self.now.sends.of }
        ensures { result ≡ slice_index_or self.now.sends.done pair false }
    {
        self.sends.is_done(pair)
    }

    /// Whether the receive of the pair is taken.
    pub fn is_received(&self, pair: usize) -> bool
        requires { pair < length self.now.sends.of }
        ensures { result ≡ slice_index_or self.now.receipts.done pair false }
    {
        self.receipts.is_done(pair)
    }

    /// Takes the send of the pair.
    pub fn send(&mut self, pair: usize)
        requires inside { pair < length self.old.sends.of }
        requires open { slice_index_or self.old.sends.done pair false ≡ false }
        ensures { self.new
            ≡ record self.old { sends = record { of = self.old.sends.of; done = slice_set self.old.sends.done pair true } } }
    {
        self.sends.mark(pair);
    }

    /// Takes the receive of the pair.
    pub fn receive(&mut self, pair: usize)
        requires inside { pair < length self.old.sends.of }
        requires open { slice_index_or self.old.receipts.done pair false ≡ false }
        ensures { self.new
            ≡ record self.old { receipts = record { of = self.old.receipts.of; done = slice_set self.old.receipts.done pair true } } }
    {
        self.receipts.mark(pair);
    }

    /// Takes the join.
    pub fn join(&mut self)
        ensures { self.new ≡ record self.old { joined = true } }
    {
        self.joined = true;
    }

    /// How many places the rank has.
    pub fn places(&self, rank: usize) -> u32
        requires { rank < length self.now.ranks }
        ensures { result ≡ length (run_at self.now rank).begun }
    {
        self.ranks[rank].len()
    }

    /// Whether the rank's place has begun.
    pub fn has_begun(&self, rank: usize, place: usize) -> bool
        requires rank { rank < length self.now.ranks }
        requires place { place < length (run_at self.now rank).begun }
        ensures { result ≡ begun_at (run_at self.now rank) place }
    {
        self.ranks[rank].has_begun(place)
    }

    /// Whether the rank's place has ended.
    pub fn has_ended(&self, rank: usize, place: usize) -> bool
        requires rank { rank < length self.now.ranks }
        requires place { place < length (run_at self.now rank).begun }
        ensures { result ≡ ended_at (run_at self.now rank) place }
    {
        self.ranks[rank].has_ended(place)
    }

    /// Whether what has to come before the place in this item is taken.
    pub fn may_go(&mut self, rank: u32, place: usize) -> bool
        requires rank { rank < length self.old.ranks }
        requires place { place < length (run_at self.old rank).begun }
        ensures answer { IsTrue result ↔ MayGo self.old rank place }
        ensures same { self.new ≡ self.old }
    {
        let sent = self.all_sent(rank);
        let received = self.all_received(rank);
        let core = self.ranks[rank as usize].is_core(place);
        let colours = self.ranks[rank as usize].may_begin(place);
        all_of(sent, has_imports(core, received), colours)
    }

    /// Whether each step of the rank in this item is taken.
    pub fn is_complete(&mut self, rank: u32) -> bool
        requires { self.old.free ≡ true → rank < length self.old.ranks }
        ensures answer { IsTrue result ↔ Complete self.old rank }
        ensures same { self.new ≡ self.old }
    {
        if !self.free {
            return self.joined;
        }
        let places = self.ranks[rank as usize].is_complete();
        all_of(self.all_sent(rank), self.all_received(rank), places)
    }

    /// Whether the first place has to end before the second begins.
    pub fn is_lower(&self, rank: usize, first: usize, second: usize) -> bool
        requires rank { rank < length self.now.ranks }
        requires first { first < length (run_at self.now rank).begun }
        requires second { second < length (run_at self.now rank).begun }
        ensures { result ≡ lower (run_at self.now rank) first second }
    {
        self.ranks[rank].is_lower(first, second)
    }

    /// Whether the place needs no import.
    pub fn is_core(&self, rank: usize, place: usize) -> bool
        requires rank { rank < length self.now.ranks }
        requires place { place < length (run_at self.now rank).begun }
        ensures { result ≡ core_at (run_at self.now rank) place }
    {
        self.ranks[rank].is_core(place)
    }

    /// The rank's place begins.
    pub fn begin(&mut self, rank: usize, place: usize)
        requires rank { rank < length self.old.ranks }
        requires place { place < length (run_at self.old rank).begun }
        ensures { self.new ≡ record self.old {
          ranks = slice_set self.old.ranks rank
              (record (run_at self.old rank) { begun = slice_set (run_at self.old rank).begun place true });
        } }
    {
        self.ranks[rank].begin(place);
    }

    /// The rank's place ends.
    pub fn end(&mut self, rank: usize, place: usize)
        requires rank { rank < length self.old.ranks }
        requires place { place < length (run_at self.old rank).begun }
        requires begun { begun_at (run_at self.old rank) place ≡ true }
        requires open { ended_at (run_at self.old rank) place ≡ false }
        ensures { (run : Run)
            × (self.new ≡ record self.old { ranks = slice_set self.old.ranks rank run })
            × (run.begun ≡ (run_at self.old rank).begun)
            × SamePlaces (run_at self.old rank) run
            × ((q : ℕ) → ended_at run q ≡ (q == place || ended_at (run_at self.old rank) q)) }
    {
        self.ranks[rank].end(place);
    }
}
