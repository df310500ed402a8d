//! Runs jobs on the windows of a buffer on several threads, by fork and join over halves of it.
//!
//! Each thread is lent its own half, so nothing is shared but what all read, and the buffer ends as
//! one thread would leave it: that is the contract of [`run_group`], for every number of workers.
//! That the threads really run at once is shown by a test alone.
#![tactic(auto)]

ghost use Rattle.std.specs.Prelude.{◌≡◌, ℕ, ℤ, ◌+◌, ◌*◌, ◌/◌, ◌%◌, ◌^◌, ◌<◌, ◌≤◌, List, length};
ghost use denote.Param.Send.{IsSync};
ghost use Rattle.par_exec.specs.Windows.{replaced, EachWindow};

mod crew;
mod gate;
mod parts;

pub use crew::Crew;
pub use gate::{Gate, ItemGate, Open, Phase};
pub use parts::{PartJob, run_parts};
use std::marker::Sync;
use std::thread::{Threads, join_mut};

/// Work that is done on each window of a buffer, by the window's number.
pub trait Job: Sync {
    /// The numbers of windows, each with the window's length in cells, that the job takes.
    ghost accepts: { Self → ℕ → ℕ → Type 0 };

    /// The new cells of a window, from its number and its old cells.
    ghost new_window: { Self → ℕ → List ℤ → List ℤ };

    /// Works on the window with number `index`, in place.
    fn run(&self, index: usize, window: &mut [i32])
        requires { accepts self.now index (length window.old) }
        ensures { window.new ≡ new_window self.now index window.old };
}

/// Runs job i on window i, for each window of the buffer, and tells the crew's gate of i just before.
///
/// `staging` is cut into windows of `stride` cells, at least 1, which divides its length; they are
/// numbered from 0. With more than one worker and more than one window, the buffer is split into
/// halves that run by fork and join, the workers shared out between them. The result is the same
/// for every crew. Takes no memory.
pub fn run_group<R: Threads + Sync, J: Job, G: Gate + Sync>(
    crew: &Crew<'_, R, G>,
    staging: &mut [i32],
    stride: usize,
    jobs: &J,
)
    requires stride { 0 < stride }
    requires whole { length staging.old % stride ≡ 0 }
    requires accepts { (i : ℕ) → i < length staging.old / stride → J.accepts jobs.now i stride }
    ensures each { EachWindow (J.new_window jobs.now) stride 0 (length staging.old / stride) staging.old staging.new }
    ensures together { staging.new ≡ replaced (J.new_window jobs.now) stride 0 (length staging.old / stride) staging.old }
{
    let work = WindowJobs {
        jobs,
        gate: crew.gate,
        stride,
    };
    let count = staging.len() / stride;
    run_windows(crew.threads, crew.workers, &work, 0, count, staging);
}

// Jobs on windows of `stride` cells, and the gate that is told of each.
#[derive(Drop)]
struct WindowJobs<'a, J, G> {
    jobs: &'a J,
    gate: &'a G,
    stride: usize,
}

// Runs job i on window i, where the buffer has `count` windows from number `first` on, by so many workers.
#[cycle(windows)]
fn run_windows<R: Threads + Sync, J: Job, G: Gate + Sync>(
    threads: &R,
    workers: u32,
    work: &WindowJobs<'_, J, G>,
    first: usize,
    count: usize,
    staging: &mut [i32],
)
    requires stride { 0 < work.now.stride }
    requires workers { 0 < workers }
    requires room { first + count < 2 ^ 64 }
    requires whole { length staging.old ≡ count * work.now.stride }
    requires accepts { (i : ℕ) → first ≤ i → i < first + count → J.accepts work.now.jobs.now i work.now.stride }
    ensures { EachWindow (J.new_window work.now.jobs.now) work.now.stride first count staging.old staging.new }
{
    if count == 0 {
        return;
    }
    if count == 1 {
        work.gate.enter(first);
        work.jobs.run(first, staging);
        return;
    }
    let low = count / 2;
    let high = count - low;
    let next = first + low;
    let (front, back) = staging.split_at_mut(low * work.stride);
    if workers == 1 {
        run_windows(threads, 1, work, first, low, front);
        run_windows(threads, 1, work, next, high, back);
        return;
    }
    let theirs = workers / 2;
    let ours = workers - theirs;
    join_mut(
        threads,
        &mut ||
            requires { IsSync R.row × IsSync J.row × IsSync G.row × (0 < work.now.stride) × (0 < theirs) × (first + low < 2 ^ 64)
                × (length front.now ≡ low * work.now.stride)
                × ((i : ℕ) → first ≤ i → i < first + low → J.accepts work.now.jobs.now i work.now.stride) }
            ensures { EachWindow (J.new_window work.entry.now.jobs.now) work.entry.now.stride first low front.entry.now front.exit.now }
        { run_windows(threads, theirs, work, first, low, front) },
        &mut ||
            requires { IsSync R.row × IsSync J.row × IsSync G.row × (0 < work.now.stride) × (0 < ours) × (next + high < 2 ^ 64)
                × (length back.now ≡ high * work.now.stride)
                × ((i : ℕ) → next ≤ i → i < next + high → J.accepts work.now.jobs.now i work.now.stride) }
            ensures { EachWindow (J.new_window work.entry.now.jobs.now) work.entry.now.stride next high back.entry.now back.exit.now }
        { run_windows(threads, ours, work, next, high, back) },
    );
}
