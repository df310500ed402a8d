// Which stages of a row of tasks are done, told by counters.
ghost use Rattle.std.specs.Prelude.{◌≡◌, ◌<◌, ◌≤◌, ◌^◌, ◌↔◌, ◌⊎◌, ℕ, true, false, IsTrue, IfOk, length, slice_set, slice_index};
ghost use Rattle.std.specs.Prelude.{slice_index_or, replicate, EachIndex};
ghost use Rattle.step_judge.specs.Marks.{StageDone, LowerDone, AllDone};
ghost use Rattle.step_judge.specs.Counts.{count_of};

use std::alloc::{AllocError, Global};
use std::marker::Model;

/// Tasks with a stage each; the counters know how many of a stage are left.
#[derive(Drop)]
pub struct Stages {
    of: Vec<u32>,
    done: Vec<bool>,
    left: Vec<u32>,
    at: usize,
}

impl Model for Stages {
    ghost use Rattle.step_judge.specs.Marks.{Marks};
    ghost use Rattle.step_judge.specs.Counts.{Kept};

    ghost Value = { Marks };

    ghost view = { λ s. record { of = s.of.items; done = s.done.items } };

    ghost invariant = { λ s. Kept s.of.items s.done.items s.left.items s.at };
}

// How many tasks each stage has.
fn counted(alloc: Global, of: &[u32], stages: u32) -> Result<Vec<u32>, AllocError>
    requires fits { length of.now < 2 ^ 32 }
    requires below { EachIndex of.now (λ t. slice_index of.now t < stages) }
    ensures size { IfOk result (λ left. length left.items ≡ stages) }
    ensures counts { IfOk result (λ left. (c : ℕ) → c < stages → slice_index left.items c ≡ count_of of.now c) }
{
    let mut left = vec![in alloc; 0u32; stages as usize]?;
    for stage in of {
        left[*stage as usize] += 1;
    }
    Ok(left)
}

// Whether the number there is 0, or there is none.
fn is_zero_at(left: &[u32], stage: usize) -> bool
    ensures { IsTrue result ↔ (slice_index left.now stage ≡ 0) }
{
    match left.get(stage) {
        Some(count) => *count == 0,
        None => true,
    }
}

// The first place from `at` on that isn't 0, or the length.
fn first_open(left: &[u32], at: usize) -> usize
    requires { at ≤ length left.now }
    ensures within { result ≤ length left.now }
    ensures passed { (c : ℕ) → at ≤ c → c < result → slice_index left.now c ≡ 0 }
    ensures open { result < length left.now → 0 < slice_index left.now result }
{
    let mut here = at;
    while here < left.len() && left[here] == 0 {
        here += 1;
    }
    here
}

// Whether the place is past the end.
fn is_past(left: &[u32], at: usize) -> bool
    ensures { IsTrue result ↔ (length left.now ≤ at) }
{
    at >= left.len()
}

// Whether the place is past the end, or not before the stage.
fn has_reached(left: &[u32], at: usize, stage: usize) -> bool
    ensures { IsTrue result ↔ ((length left.now ≤ at) ⊎ (stage ≤ at)) }
{
    at >= left.len() || at >= stage
}

impl Stages {
    /// No task is done yet.
    pub fn new(alloc: Global, of: Vec<u32>, stages: u32) -> Result<Self, AllocError>
        requires fits { length of.items < 2 ^ 32 }
        requires below { EachIndex of.items (λ t. slice_index of.items t < stages) }
        ensures { IfOk result (λ s. s ≡ record { of = of.items; done = replicate (length of.items) false }) }
    {
        let left = counted(alloc, &of, stages)?;
        let done = vec![in alloc; false; of.len()]?;
        Ok(Stages {
            of,
            done,
            left,
            at: 0,
        })
    }

    /// How many tasks there are.
    pub fn len(&self) -> usize
        ensures { result ≡ length self.now.of }
    {
        self.of.len()
    }

    /// The task's stage.
    pub fn stage(&self, task: usize) -> u32
        requires { task < length self.now.of }
        ensures { result ≡ slice_index self.now.of task }
    {
        self.of[task]
    }

    /// Whether all is done.
    pub fn all_done(&mut self) -> bool
        ensures answer { IsTrue result ↔ AllDone self.old }
        ensures same { self.new ≡ self.old }
    {
        let here = first_open(&self.left, self.at);
        self.at = here;
        is_past(&self.left, self.at)
    }

    /// Whether the task is done.
    pub fn is_done(&self, task: usize) -> bool
        requires { task < length self.now.of }
        ensures { result ≡ slice_index_or self.now.done task false }
    {
        self.done[task]
    }

    /// Marks a task that isn't done.
    pub fn mark(&mut self, task: usize)
        requires inside { task < length self.old.of }
        requires open { slice_index_or self.old.done task false ≡ false }
        ensures { self.new ≡ record { of = self.old.of; done = slice_set self.old.done task true } }
    {
        self.done[task] = true;
        let stage = self.of[task] as usize;
        self.left[stage] -= 1;
    }

    /// Whether each task of the stage is done.
    pub fn stage_done(&self, stage: u32) -> bool
        ensures { IsTrue result ↔ StageDone self.now stage }
    {
        is_zero_at(&self.left, stage as usize)
    }

    /// Whether each task of the lower stages is done.
    pub fn lower_done(&mut self, stage: u32) -> bool
        ensures answer { IsTrue result ↔ LowerDone self.old stage }
        ensures same { self.new ≡ self.old }
    {
        let here = first_open(&self.left, self.at);
        self.at = here;
        has_reached(&self.left, self.at, stage as usize)
    }

    /// Marks a task that isn't done, and tells whether all is done.
    pub fn finish(&mut self, task: usize) -> bool
        requires inside { task < length self.old.of }
        requires open { slice_index_or self.old.done task false ≡ false }
        ensures answer { IsTrue result ↔ AllDone self.new }
        ensures marked { self.new ≡ record { of = self.old.of; done = slice_set self.old.done task true } }
    {
        self.mark(task);
        self.all_done()
    }
}
