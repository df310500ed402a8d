// Elements of a loop on a rank in batches that run at once.

ghost use Rattle.std.specs.Prelude.{◌≡◌, ◌≤◌, ◌+◌, length, take, drop};
ghost use Rattle.rank_program.specs.Batches.{CanRunInRows, GoesOn};
ghost use Rattle.rank_program.specs.LocalRuns.{IsLent, StaysLent, share_in};

use crate::counts::all_count;
use crate::row_loops::LoopInRows;
use crate::share::RankShare;
use kernel_runs::worker_batches::{BatchesRoom, Workers, most_at_once, run_at_once};
use par_exec::Gate;
use rank_layout::{element_windows_stand, steps_stand, windows_stand};
use std::marker::Sync;
use std::thread::Threads;

// So many places of a list from one on.
fn part_at(places: &[u32], at: usize, count: usize) -> &[u32]
    requires { at + count ≤ length places.now }
    ensures { result.now ≡ take count (drop at places.now) }
{
    &places[at..at + count]
}

/// Runs the kernel of a loop for elements at its places from `at` on, in batches at once, for as many as can run so.
/// Answers how many ran, from the first on. None of them has a fault.
pub fn run_many<R: Threads + Sync, G: Gate + Sync>(
    workers: &Workers<'_, R, G>,
    run: &LoopInRows<'_>,
    at: usize,
    share: &mut RankShare<'_>,
    room: &mut BatchesRoom,
) -> usize
    requires can { CanRunInRows run.now }
    requires fits { at ≤ length run.now.local.now.places.now }
    requires lent { IsLent run.now.local.now share.old }
    ensures few { at + result ≤ length run.now.local.now.places.now }
    ensures runs { GoesOn run.now.local.now at (at + result) (share_in run.now.local.now share.old)
        (share_in run.now.local.now share.new) }
    ensures fault { share.new.fault ≡ share.old.fault }
    ensures lent { StaysLent share.old share.new }
{
    steps_stand();
    windows_stand();
    element_windows_stand();
    bound_plan::frames_are_reached();
    kernel_runs::in_place::finishes_here();
    let count = most_at_once(workers, room).min(run.local.places.len() - at);
    if count == 0 {
        return 0;
    }
    if !all_count(run.local, at, count) {
        return 0;
    }
    let part = part_at(run.local.places, at, count);
    let width = run.local.part.cells;
    run_at_once(
        workers,
        &run.rows,
        part,
        &mut share.memory[..width],
        share.partials,
        room,
    )
}
