// Runs of elements.
ghost use Rattle.std.specs.Prelude.{◌≡◌, ◌<◌, ◌≤◌, ◌-◌, ◌^◌, ℕ, [], length, get_or, take, drop, IfOk, IfSome};
ghost use Rattle.schedule_steps.specs.Outline.{Outline};
ghost use Rattle.step_orders.specs.Runs.{cut, each_alone, start_of, AreEnds};
ghost use Rattle.step_orders.specs.Order.{IsColoured};
ghost use Rattle.step_orders.specs.ElementRuns.{runs_of};

use crate::order::places_in_order;
use crate::pieces::run_ends;
use op_num::OutOfMemory;
use std::alloc::Global;
use std::marker::Model;

/// Elements in runs, one run after another. `ends` has by run the number of elements in it and before it; it is empty
/// where each element is a run of its own (`alone`).
#[derive(Debug, Drop)]
pub struct Runs {
    elements: Vec<u32>,
    ends: Vec<usize>,
    alone: bool,
}

impl Model for Runs {
    ghost use Rattle.std.specs.Prelude.{List, ℕ, cond};
    ghost use Rattle.step_orders.specs.Runs.{cut, each_alone, AreEnds};

    ghost Value = { List (List ℕ) };

    ghost view = { λ s. cond s.alone (each_alone s.elements.items) (cut 0 s.elements.items s.ends.items) };

    ghost invariant = { λ s. AreEnds 0 s.elements.items s.ends.items };
}

// Where a run starts.
fn start(ends: &[usize], run: usize) -> usize
    requires { run < length ends.now }
    ensures { result ≡ start_of 0 ends.now run }
{
    if run == 0 {
        return 0;
    }
    ends[run - 1]
}

// The elements from one place up to another.
fn between(elements: &[u32], from: usize, to: usize) -> &[u32]
    requires order { from ≤ to }
    requires within { to ≤ length elements.now }
    ensures { result.now ≡ take (to - from) (drop from elements.now) }
{
    &elements[from..to]
}

// A run of elements that are cut at these places.
fn part<'a>(elements: &'a [u32], ends: &[usize], run: usize) -> &'a [u32]
    requires run { run < length ends.now }
    requires ends { AreEnds 0 elements.now ends.now }
    ensures { result.now ≡ get_or (cut 0 elements.now ends.now) run [] }
{
    let from = start(ends, run);
    let to = ends[run];
    between(elements, from, to)
}

impl Runs {
    /// The elements, cut into runs: a run ends before each of the places, and the next begins there. Elements from the
    /// last place on are in no run.
    pub fn new(elements: Vec<u32>, ends: Vec<usize>) -> Runs
        requires { AreEnds 0 elements.items ends.items }
        ensures { result ≡ cut 0 elements.items ends.items }
    {
        Runs {
            elements,
            ends,
            alone: false,
        }
    }

    /// The places of a rank by block colour, block, colour and number, in runs of at most `group` places of one block
    /// and colour. There is a place for each of the colours, `size` of them to a block, and a colour for each block; a
    /// block without one has the colour 0. It takes linear time where the colours of a block's places are below the
    /// number of these, and those of blocks below theirs, else time n log n. An error is want of memory.
    pub fn of_places(
        alloc: Global,
        size: u32,
        block_colours: &[u32],
        colours: &[u32],
        group: u32,
    ) -> Result<Runs, OutOfMemory>
        requires size { 1 ≤ size }
        requires few { length colours.now < 2 ^ 32 }
        requires group { 1 ≤ group }
        ensures { IfOk result (λ v. (o : Outline) (k r : ℕ) → IsColoured o k r size block_colours.now colours.now
            → v ≡ runs_of o group k r) }
    {
        let places = places_in_order(alloc, size, block_colours, colours)?;
        if group == 1 {
            return Ok(Runs {
                elements: places,
                ends: Vec::new(alloc),
                alone: true,
            });
        }
        let ends = run_ends(alloc, size, colours, group, &places)?;
        Ok(Runs {
            elements: places,
            ends,
            alone: false,
        })
    }

    /// How many runs there are.
    pub fn len(&self) -> usize
        ensures { result ≡ length self.now }
    {
        if self.alone {
            return self.elements.len();
        }
        self.ends.len()
    }

    /// The elements, where each of them is a run of its own.
    pub fn elements_alone(&self) -> Option<&[u32]>
        ensures { IfSome result (λ xs. self.now ≡ each_alone xs.now) }
    {
        if self.alone {
            return Some(&self.elements);
        }
        None
    }

    /// The elements of a run, in order.
    pub fn run(&self, run: usize) -> &[u32]
        requires { run < length self.now }
        ensures { result.now ≡ get_or self.now run [] }
    {
        if self.alone {
            return between(&self.elements, run, run + 1);
        }
        part(&self.elements, &self.ends, run)
    }
}
