// All runs of a job.

ghost use Rattle.std.specs.Prelude.{◌≡◌, ◌<◌, ◌*◌, ℕ, take, length};
ghost use Rattle.rank_program.specs.Jobs.{Accepts, RanIn, job_core, part, task_at};

use crate::kernel_job::{KernelJob, ToldJob};
use par_exec::{Crew, Gate, ItemGate, run_group};
use std::marker::Sync;
use std::thread::Threads;

/// Runs a job's kernel once for each of its tasks, on the first cells of the task's window of `staging`, by the workers
/// of `crew`. Its gate is told of each task just before, by its number and as an element of an item on a rank. A window
/// has `window` cells, more than its task's cells and the kernel's slots together. Behind the task's cells stands a 0
/// then, or a 1 where the run had a fault, after which its cells mean nothing. Takes no memory.
pub fn run_tasks<R: Threads + Sync, G: Gate + Sync>(
    crew: &Crew<'_, R, G>,
    told: &ItemGate<'_, G>,
    job: &KernelJob<'_>,
    staging: &mut [i32],
    window: usize,
)
    requires wide { 0 < window }
    requires whole { length staging.old ≡ length job.now.tasks.now * window }
    requires accepts { (i : ℕ) → i < length job.now.tasks.now → Accepts job.now i window }
    ensures { (i : ℕ) → i < length job.now.tasks.now
        → RanIn (job_core job.now i (take (task_at job.now.tasks.now i).cells (part window i staging.old)))
        (task_at job.now.tasks.now i).cells (part window i staging.new) }
{
    kernel_model::shape_stays();
    run_group(crew, staging, window, &ToldJob { job, told });
}
