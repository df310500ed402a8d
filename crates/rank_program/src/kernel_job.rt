// A kernel's run on a window.

ghost use Rattle.std.specs.Prelude.{◌≡◌, ◌<◌, ◌+◌, length};
ghost use Rattle.kernel_model.specs.Resolved.{IsResolved};
ghost use Rattle.kernel_code.specs.Coded.{IsCode};
ghost use Rattle.kernel_model.specs.Framed.{PlacesIn};
ghost use Rattle.rank_program.specs.Jobs.{window_after, job_window, Accepts};

use crate::tasks::{Targets, Task};
use kernel_code::{Code, run_on};
use kernel_model::types::views::Place;
use par_exec::{Gate, ItemGate, Job};
use std::marker::Sync;

/// The runs of a kernel for tasks: on the first cells of each task's window, with the values of all constants.
/// `targets` has by task the places of the kernel's arguments.
#[derive(Drop)]
pub struct KernelJob<'t> {
    pub code: &'t Code<'t>,
    pub tasks: &'t [Task],
    pub targets: &'t [Targets],
    pub constants: &'t [i32],
}

// Runs a kernel on the first `cells` cells of a window, with the rest as room for its locals. Behind the cells stands a
// 0 then, or a 1 after a fault, and further zeros.
fn run_in(code: &Code<'_>, places: &[Place], constants: &[i32], cells: usize, window: &mut [i32])
    requires code { IsCode code.now }
    requires fits { PlacesIn cells places.now }
    requires params { length places.now ≡ code.now.kernel.now.params }
    requires resolved { IsResolved (length constants.now) code.now.kernel.now }
    requires room { cells + code.now.slots < length window.old }
    ensures { window.new ≡ window_after places.now constants.now code.now.kernel.now cells window.old }
{
    let (cells, rest) = window.split_at_mut(cells);
    let flag = match run_on(code, cells, places, constants, rest) {
        Ok(()) => 0,
        Err(_) => 1,
    };
    rest.fill(0);
    rest[0] = flag;
}

impl<'t> KernelJob<'t> {
    // The place of a task's element.
    fn place_of(&self, index: usize) -> u32
        requires { index < length self.now.tasks.now }
    {
        self.tasks[index].place
    }

    // Runs the kernel for a task, in the task's window.
    fn run_task(&self, index: usize, window: &mut [i32])
        requires { Accepts self.now index (length window.old) }
        ensures { window.new ≡ job_window self.now index window.old }
    {
        let places = self.targets[index].places.as_slice();
        run_in(
            self.code,
            places,
            self.constants,
            self.tasks[index].cells,
            window,
        );
    }
}

/// The runs of a kernel for tasks, and the gate that is told of each element just before.
#[derive(Drop)]
pub struct ToldJob<'t, G> {
    pub job: &'t KernelJob<'t>,
    pub told: &'t ItemGate<'t, G>,
}

impl<'t, G: Gate + Sync> Job for ToldJob<'t, G> {
    ghost use Rattle.rank_program.specs.Jobs.{job_window, Accepts};

    ghost accepts = { λ s i n. Accepts s.job.now i n };

    ghost new_window = { λ s i w. job_window s.job.now i w };

    fn run(&self, index: usize, window: &mut [i32]) {
        let (job, told) = (self.job, self.told);
        told.gate
            .begin(told.item, told.rank, &[job.place_of(index)]);
        job.run_task(index, window);
    }
}
