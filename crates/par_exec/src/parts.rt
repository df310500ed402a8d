// Jobs on the parts of a list, on several threads by fork and join over halves of it.

ghost use Rattle.std.specs.Prelude.{◌≡◌, ℕ, ◌+◌, ◌<◌, ◌^◌, length};
ghost use denote.Param.Send.{IsSync, IsSend};
ghost use Rattle.par_exec.specs.Parts.{TakesEach, MadeEach};

use crate::Gate;
use std::marker::{Send, Sync};
use std::thread::{Threads, join_mut};

/// Work that is done on each part of a list, by the part's number.
pub trait PartJob<T>: Sync {
    /// The numbers of parts, each with the part, that the job takes.
    ghost takes: { Self → ℕ → T → Type 0 };

    /// What the job may make of a part, by its number.
    ghost makes: { Self → ℕ → T → T → Type 0 };

    /// Works on the part with number `index`, in place. The gate is that of all parts.
    fn run<G: Gate>(&self, gate: &G, index: usize, part: &mut T)
        requires takes { takes self.now index part.old }
        ensures { makes self.now index part.old part.new };
}

/// Runs job i on part i, for each part of the list, and tells the gate of i just before; the parts are numbered from 0.
///
/// With more than one worker and more than one part, the list is split into halves that run by fork and join, the
/// workers shared out between them. What is said of each part holds for every number of workers, at least 1, and every
/// gate. Takes no memory.
pub fn run_parts<R: Threads + Sync, T: Send, J: PartJob<T>, G: Gate + Sync>(
    threads: &R,
    workers: u32,
    gate: &G,
    jobs: &J,
    parts: &mut [T],
)
    requires workers { 0 < workers }
    requires takes { TakesEach (J.takes jobs.now) 0 parts.old }
    ensures { MadeEach (J.makes jobs.now) 0 parts.old parts.new }
{
    run_from(threads, workers, 0, jobs, gate, parts);
}

// Runs job i on part i, where the parts of the list are numbered from `first` on.
#[cycle(parts)]
fn run_from<R: Threads + Sync, T: Send, J: PartJob<T>, G: Gate + Sync>(
    threads: &R,
    workers: u32,
    first: usize,
    jobs: &J,
    gate: &G,
    parts: &mut [T],
)
    requires workers { 0 < workers }
    requires room { first + length parts.old < 2 ^ 64 }
    requires takes { TakesEach (J.takes jobs.now) first parts.old }
    ensures { MadeEach (J.makes jobs.now) first parts.old parts.new }
{
    let count = parts.len();
    if count == 0 {
        return;
    }
    if count == 1 {
        gate.enter(first);
        jobs.run(gate, first, &mut parts[0]);
        return;
    }
    let low = count / 2;
    let next = first + low;
    let (front, back) = parts.split_at_mut(low);
    if workers == 1 {
        run_from(threads, 1, first, jobs, gate, front);
        run_from(threads, 1, next, jobs, gate, back);
        return;
    }
    let theirs = workers / 2;
    let ours = workers - theirs;
    join_mut(
        threads,
        &mut ||
            requires { IsSync R.row × IsSync J.row × IsSync G.row × IsSend T.row × (0 < theirs)
                × (first + length front.now < 2 ^ 64) × TakesEach (J.takes jobs.now) first front.now }
            ensures { MadeEach (J.makes jobs.entry.now) first front.entry.now front.exit.now }
        { run_from(threads, theirs, first, jobs, gate, front) },
        &mut ||
            requires { IsSync R.row × IsSync J.row × IsSync G.row × IsSend T.row × (0 < ours)
                × (next + length back.now < 2 ^ 64) × TakesEach (J.takes jobs.now) next back.now }
            ensures { MadeEach (J.makes jobs.entry.now) next back.entry.now back.exit.now }
        { run_from(threads, ours, next, jobs, gate, back) },
    );
}
