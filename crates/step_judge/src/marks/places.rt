// The places of one rank in one item.
ghost use Rattle.std.specs.Prelude.{◌≡◌, ◌<◌, ◌≤◌, ◌*◌, ◌^◌, ◌↔◌, ◌==◌, ◌||◌, ◌&&◌, nat_lt, ℕ, true, false, IsTrue, IfOk};
ghost use Rattle.std.specs.Prelude.{length, take, drop, slice_set, slice_index_or};
ghost use Rattle.step_judge.specs.Marks.{no_marks};
ghost use Rattle.step_judge.specs.NewRun.{IsFresh, IsNewRun};
ghost use Rattle.step_judge.specs.Run.{MayBegin, begun_at, ended_at, core_at, AllEnded, lower, SamePlaces};

use crate::marks::colour_ranks::ranked;
use crate::marks::stages::Stages;
use std::alloc::{AllocError, Global};
use std::marker::Model;

/// The marks of a rank's places in one item: which have begun, and by block, and over the blocks, which have ended.
#[derive(Drop)]
pub struct Places {
    size: usize,
    begun: Vec<bool>,
    blocks: Vec<Stages>,
    colours: Stages,
    core: Vec<bool>,
}

impl Model for Places {
    ghost use Rattle.step_judge.specs.Run.{Run};
    ghost use Rattle.step_judge.specs.RunKept.{Whole};

    ghost Value = { Run };

    ghost view = { λ s.
        record { size = s.size; begun = s.begun.items; blocks = s.blocks.items; colours = s.colours; core = s.core.items } };

    ghost invariant = { λ s. Whole
        record { size = s.size; begun = s.begun.items; blocks = s.blocks.items; colours = s.colours; core = s.core.items } };
}

// Whether a place of the first colours comes before one of the second.
fn is_lower_key(colour: u32, other: u32, same: bool, inner: u32, other_inner: u32) -> bool
    ensures { result ≡ (nat_lt colour other || (same && nat_lt inner other_inner)) }
{
    colour < other || (same && inner < other_inner)
}

// The first places of what is left of a list from a place on.
fn part(colours: &[u32], first: usize, size: usize) -> &[u32]
    requires { first ≤ length colours.now }
    ensures { result.now ≡ take size (drop first colours.now) }
{
    let rest = &colours[first..];
    if rest.len() <= size {
        return rest;
    }
    &rest[..size]
}

// Tasks with these colours, none of them done.
fn fresh(alloc: Global, colours: &[u32]) -> Result<Stages, AllocError>
    requires { length colours.now < 2 ^ 32 }
    ensures { IfOk result (λ s. IsFresh colours.now s) }
{
    let of = ranked(alloc, colours)?;
    let stages = Stages::new(alloc, of, colours.len() as u32)?;
    Ok(stages)
}

// By block its places, none of them ended.
fn fresh_blocks(
    alloc: Global,
    inner: &[u32],
    size: usize,
    count: usize,
) -> Result<Vec<Stages>, AllocError>
    requires few { length inner.now < 2 ^ 32 }
    requires blocks { (a : ℕ) → a < count → a * size < length inner.now }
    ensures count { IfOk result (λ v. length v.items ≡ count) }
    ensures blocks { IfOk result (λ v. (a : ℕ) → a < count
        → IsFresh (take size (drop (a * size) inner.now)) (slice_index_or v.items a no_marks)) }
{
    let mut blocks = Vec::new(alloc);
    for block in 0..count {
        blocks.push(fresh(alloc, part(inner, block * size, size))?)?;
    }
    Ok(blocks)
}

impl Places {
    /// No place has begun, in blocks of `size` places with these colours of the blocks and of the places within them;
    /// `core` says which places need no import.
    pub fn new(
        alloc: Global,
        size: u32,
        blocks: &[u32],
        inner: &[u32],
        core: Vec<bool>,
    ) -> Result<Self, AllocError>
        requires size { 0 < size }
        requires few { length inner.now < 2 ^ 32 }
        requires blocks { (a : ℕ) → (a < length blocks.now) ↔ (a * size < length inner.now) }
        requires core { length core.items ≡ length inner.now }
        ensures { IfOk result (λ v. IsNewRun size blocks.now inner.now core.items v) }
    {
        let size = size as usize;
        let places = fresh_blocks(alloc, inner, size, blocks.len())?;
        let colours = fresh(alloc, blocks)?;
        let begun = vec![in alloc; false; inner.len()]?;
        Ok(Places {
            size,
            begun,
            blocks: places,
            colours,
            core,
        })
    }

    /// How many places there are.
    pub fn len(&self) -> u32
        ensures { result ≡ length self.now.begun }
    {
        self.begun.len() as u32
    }

    /// Whether the place has begun.
    pub fn has_begun(&self, place: usize) -> bool
        requires { place < length self.now.begun }
        ensures { result ≡ begun_at self.now place }
    {
        self.begun[place]
    }

    /// Whether the place has ended.
    pub fn has_ended(&self, place: usize) -> bool
        requires { place < length self.now.begun }
        ensures { result ≡ ended_at self.now place }
    {
        self.blocks[place / self.size].is_done(place % self.size)
    }

    /// Whether the place needs no import.
    pub fn is_core(&self, place: usize) -> bool
        requires { place < length self.now.begun }
        ensures { result ≡ core_at self.now place }
    {
        self.core[place]
    }

    /// Whether the first place has to end before the second begins.
    pub fn is_lower(&self, first: usize, second: usize) -> bool
        requires first { first < length self.now.begun }
        requires second { second < length self.now.begun }
        ensures { result ≡ lower self.now first second }
    {
        let mine = first / self.size;
        let other = second / self.size;
        is_lower_key(
            self.colours.stage(mine),
            self.colours.stage(other),
            mine == other,
            self.blocks[mine].stage(first % self.size),
            self.blocks[other].stage(second % self.size),
        )
    }

    /// Whether each place has begun and ended.
    pub fn is_complete(&mut self) -> bool
        ensures answer { IsTrue result ↔ AllEnded self.old }
        ensures same { self.new ≡ self.old }
    {
        self.colours.all_done()
    }

    /// Whether each place of a lower colour has ended.
    pub fn may_begin(&mut self, place: usize) -> bool
        requires { place < length self.old.begun }
        ensures answer { IsTrue result ↔ MayBegin self.old place }
        ensures same { self.new ≡ self.old }
    {
        let block = place / self.size;
        let colour = self.colours.stage(block);
        if !self.colours.lower_done(colour) {
            return false;
        }
        let inner = self.blocks[block].stage(place % self.size);
        self.blocks[block].lower_done(inner)
    }

    /// The place begins.
    pub fn begin(&mut self, place: usize)
        requires inside { place < length self.old.begun }
        ensures { self.new ≡ record self.old { begun = slice_set self.old.begun place true } }
    {
        self.begun[place] = true;
    }

    /// The place ends.
    pub fn end(&mut self, place: usize)
        requires inside { place < length self.old.begun }
        requires begun { begun_at self.old place ≡ true }
        requires open { ended_at self.old place ≡ false }
        ensures begun { self.new.begun ≡ self.old.begun }
        ensures same { SamePlaces self.old self.new }
        ensures ended { (q : ℕ) → ended_at self.new q ≡ (q == place || ended_at self.old q) }
    {
        let block = place / self.size;
        let all = self.blocks[block].finish(place % self.size);
        if all {
            self.colours.mark(block);
        }
    }
}
