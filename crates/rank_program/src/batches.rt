// Batches of a loop's elements on a rank: up to 64 of them at once where they can run in rows, else one after another.

ghost use Rattle.std.specs.Prelude.{◌≡◌, ◌<◌, ◌≤◌, ◌+◌, length};
ghost use Rattle.rank_program.specs.Rooms.{most_ways, most_columns};
ghost use Rattle.kernel_runs.specs.RowLoops.{HasRowRoom};
ghost use Rattle.rank_program.specs.Batches.{CanRunInRows, GoesOn};
ghost use Rattle.rank_program.specs.LocalLoops.{IsLocalLoop};
ghost use Rattle.rank_program.specs.LocalRuns.{AllBeginHere, HasLoopRoom, IsLent, StaysLent, share_in};

use crate::counts::all_count;
use crate::here::run_alone;
use crate::local_loops::LocalLoop;
use crate::many::run_many;
use crate::room::{KernelRoom, MOST_COLUMNS, open_places};
use crate::row_loops::{LoopInRows, MOST_PAIRS, no_column, row_loop};
use crate::share::RankShare;
use kernel_columns::ROWS;
use kernel_runs::row_batches::{FEWEST, RowRoom, batch_at, run_batch};
use kernel_runs::worker_batches::Workers;
use par_exec::{Gate, ItemGate};
use rank_layout::{MAX_ARGS, element_windows_stand, steps_stand, windows_stand};
use smallvec::SmallVec;
use std::marker::Sync;
use std::thread::Threads;

// Runs the kernel of a loop for elements at its places from `at` on at once: for as many of so many, at most 64, as run
// in rows. Answers how many ran, from the first on. None of them has a fault.
fn run_rows<G: Gate>(
    told: &ItemGate<'_, G>,
    run: &LoopInRows<'_>,
    at: usize,
    count: usize,
    share: &mut RankShare<'_>,
    room: &mut RowRoom,
) -> usize
    requires can { CanRunInRows run.now }
    requires some { 0 < count }
    requires few { count ≤ ROWS }
    requires fits { at + count ≤ length run.now.local.now.places.now }
    requires lent { IsLent run.now.local.now share.old }
    requires room { HasRowRoom most_ways most_columns most_columns room.old }
    ensures few { result ≤ count }
    ensures runs { GoesOn run.now.local.now at (at + result) (share_in run.now.local.now share.old)
        (share_in run.now.local.now share.new) }
    ensures fault { share.new.fault ≡ share.old.fault }
    ensures lent { StaysLent share.old share.new }
    ensures room { HasRowRoom most_ways most_columns most_columns room.new }
{
    steps_stand();
    windows_stand();
    element_windows_stand();
    bound_plan::frames_are_reached();
    kernel_runs::in_place::finishes_here();
    if !all_count(run.local, at, count) {
        return 0;
    }
    let batch = batch_at(run.local.places, at, count);
    let width = run.local.part.cells;
    told.begin(&run.local.places[at..at + count]);
    let ran = run_batch(
        &run.rows,
        &batch,
        count,
        &mut share.memory[..width],
        share.partials,
        room,
    );
    told.end(&run.local.places[at..at + ran]);
    ran
}

// Runs the kernel of a loop whose elements run in rows for them, by batches of up to 64, or several of these at once.
// Behind a batch of which some ran in rows, one element runs alone, which does not run with them. Where none of a batch
// runs in rows, its first 8 elements run one after another, and twice as many each time that the next batch fails too.
// Answers how many elements ran; fewer than make a batch are left.
fn run_all<R: Threads + Sync, G: Gate + Sync>(
    workers: &Workers<'_, R, G>,
    run: &LoopInRows<'_>,
    share: &mut RankShare<'_>,
    room: &mut KernelRoom,
) -> usize
    requires can { CanRunInRows run.now }
    requires lent { IsLent run.now.local.now share.old }
    requires room { HasLoopRoom run.now.local.now room.old }
    ensures count { result ≤ length run.now.local.now.places.now }
    ensures runs { GoesOn run.now.local.now 0 result (share_in run.now.local.now share.old) (share_in run.now.local.now share.new) }
    ensures lent { StaysLent share.old share.new }
    ensures room { HasLoopRoom run.now.local.now room.new }
{
    let end = run.local.places.len();
    let mut at = 0;
    let mut pause = FEWEST;
    while end - at >= FEWEST {
        let many = run_many(workers, run, at, share, &mut room.batches);
        if many > 0 {
            at += many;
            continue;
        }
        let count = ROWS.min(end - at);
        let ran = run_rows(workers.told, run, at, count, share, &mut room.rows);
        let upto = if ran > 0 {
            pause = FEWEST;
            count.min(ran + 1)
        } else {
            let alone = pause.min(end - at);
            pause = pause.saturating_mul(2);
            alone
        };
        run_alone(workers.told, run.local, at + ran, at + upto, share, room);
        at += upto;
    }
    at
}

/// Runs the kernel of a loop on a rank for its elements by batches of up to 64, where they run in rows. Answers how
/// many elements ran, from the first on. The room has places of the arguments, as `put_behind` left them. The tables of
/// rows are locals here and not of what calls it, which would clear them for a single element too.
pub fn run_batches<R: Threads + Sync, G: Gate + Sync>(
    workers: &Workers<'_, R, G>,
    local: &LocalLoop<'_>,
    share: &mut RankShare<'_>,
    room: &mut KernelRoom,
) -> usize
    requires is { IsLocalLoop local.now }
    requires steps { AllBeginHere local.now }
    requires lent { IsLent local.now share.old }
    requires room { HasLoopRoom local.now room.old }
    ensures count { result ≤ length local.now.places.now }
    ensures runs { GoesOn local.now 0 result (share_in local.now share.old) (share_in local.now share.new) }
    ensures lent { StaysLent share.old share.new }
    ensures room { HasLoopRoom local.now room.new }
{
    if local.places.len() < FEWEST {
        return 0;
    }
    let mut ways = [None; MAX_ARGS];
    let mut columns = [no_column(); MOST_COLUMNS];
    let mut frame = SmallVec::new(*room.places.allocator());
    open_places(local.args.len(), &mut frame);
    let mut pairs = [(0, 0); MOST_PAIRS];
    match row_loop(
        local,
        room.places.as_slice(),
        &mut ways,
        &mut columns,
        frame.as_mut_slice(),
        &mut pairs,
    ) {
        None => 0,
        Some(rows) => run_all(workers, &LoopInRows { local, rows }, share, room),
    }
}
