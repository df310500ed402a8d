// Schedules that are taken step by step.
ghost use Rattle.std.specs.Prelude.{◌≡◌, OnOk, OnErr, ℕ, Vec, map, slice_index, slice_index_or, []};
ghost use Rattle.std.specs.declared.alloc.Global.{Global as GlobalValue};
ghost use Rattle.schedule_steps.specs.Outline.{Outline};
ghost use Rattle.schedule_steps.specs.Judged.{left_over};
ghost use Rattle.step_judge.specs.Load.{no_load};
ghost use Rattle.step_judge.specs.Marked.{taken};
ghost use Rattle.step_judge.specs.Verdicts.{judged, finished};
ghost use Rattle.step_judge.specs.Wanted.{AreMarksOf};
ghost use Rattle.step_judge.specs.Checking.{cells_of, step_cells, TakesStep, HasRoom};

use crate::judge::{end_steps, take_step};
use crate::marks::{Load, StepMarks};
use crate::refusal::ScheduleRefusal;
use schedule_steps::{Peak, Step};
use std::marker::Model;

/// A schedule that is taken step by step: which steps are taken, and what is open and under way. `cells` has by item
/// and message how many cells the message has.
#[derive(Drop)]
pub struct StepChecker {
    marks: StepMarks,
    cells: Vec<Vec<u64>>,
    load: Load,
}

impl Model for StepChecker {
    ghost use Rattle.std.specs.Prelude.{ℕ, Vec, map};
    ghost use Rattle.std.specs.declared.alloc.Global.{Global as GlobalValue};
    ghost use Rattle.step_judge.specs.Checking.{Checking, HasRoom};

    ghost Value = { Checking };

    ghost view = { λ c. record { marks = c.marks; cells = map (λ (v : Vec ℕ GlobalValue). v.items) c.cells.items; load = c.load } };

    ghost invariant = { λ c. HasRoom c.marks (map (λ (v : Vec ℕ GlobalValue). v.items) c.cells.items) c.load.open_elements c.load.cells };
}

// What stands there, or 0.
fn number_at(rows: &[Vec<u64>], row: usize, place: usize) -> u64
    ensures { result ≡ slice_index (slice_index_or (map (λ (v : Vec ℕ GlobalValue). v.items) rows.now) row []) place }
{
    match rows.get(row) {
        Some(numbers) => match numbers.get(place) {
            Some(number) => *number,
            None => 0,
        },
        None => 0,
    }
}

impl StepChecker {
    /// Nothing is open or under way.
    pub fn new(marks: StepMarks, cells: Vec<Vec<u64>>) -> StepChecker
        requires { HasRoom marks (map (λ (v : Vec ℕ GlobalValue). v.items) cells.items) 0 0 }
        ensures { result ≡ record { marks = marks; cells = map (λ (v : Vec ℕ GlobalValue). v.items) cells.items; load = no_load } }
    {
        StepChecker {
            marks,
            cells,
            load: Load::new(),
        }
    }

    // How many cells the message of a step has, or 0.
    fn cells_of(&self, step: Step) -> u64
        ensures { result ≡ step_cells (cells_of self.now) step }
    {
        match step {
            Step::Send { item, from, to } => {
                number_at(&self.cells, item as usize, self.marks.pair(item, from, to))
            }
            Step::Recv { item, rank, from } => {
                number_at(
                    &self.cells,
                    item as usize,
                    self.marks.pair(item, from, rank),
                )
            }
            Step::Begin { .. } => 0,
            Step::End { .. } => 0,
            Step::Join { .. } => 0,
        }
    }

    /// Takes the step, or says why not; then nothing changes. Takes no memory.
    ///
    /// `NoSuchStep` where the plan hasn't the step; else `Repeated` where it was taken; else `TooEarly` where a step
    /// that has to come before it isn't taken, with the first of these in standard order.
    pub fn take(&mut self, step: Step) -> Result<(), ScheduleRefusal>
        ensures answer { (o : Outline) → AreMarksOf o self.old.marks → result ≡ judged o (taken self.old.marks) step }
        ensures ok { OnOk result (TakesStep self.old self.new step) }
        ensures err { OnErr result (self.new ≡ self.old) }
    {
        let cells = self.cells_of(step);
        take_step(&mut self.marks, step)?;
        self.load = self.load.after(step, cells);
        Ok(())
    }

    /// Ends the schedule and gives its peak, or says which step is left: the first in standard order that isn't taken.
    /// Takes no memory.
    pub fn finish(self) -> Result<Peak, ScheduleRefusal>
        ensures { (o : Outline) → AreMarksOf o self.marks → result ≡ finished self.load.peak (left_over o (taken self.marks)) }
    {
        end_steps(&self.marks)?;
        Ok(self.load.peak)
    }
}
