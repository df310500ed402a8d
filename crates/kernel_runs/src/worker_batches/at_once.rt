// By how many workers batches run.

ghost use Rattle.std.specs.Prelude.{◌<◌, ◌≤◌, ℕ, List, length, map, slice_index};
ghost use Rattle.kernel_model.specs.Obeys.{Mode};
ghost use Rattle.kernel_model.specs.declared.types.views.frame.Place.{Place};
ghost use Rattle.kernel_model.specs.Framed.{target_of};
ghost use Rattle.rank_state.specs.Windows.{Merges, firsts};
ghost use Rattle.kernel_runs.specs.RowLoops.{RunsInRows};
ghost use Rattle.kernel_runs.specs.RowsRun.{RowsRun};
ghost use Rattle.kernel_runs.specs.Rounds.{CanRun};

use crate::row_batches::RowLoop;
use crate::worker_batches::room::BatchesRoom;
use crate::worker_batches::rounds::run_round;
use par_exec::{Gate, ItemGate};
use std::marker::Sync;
use std::thread::Threads;

/// By whom a loop's elements on a rank run: so many workers, of whom several run batches at once; and the gate that is
/// told of the elements.
#[derive(Drop)]
pub struct Workers<'a, R, G> {
    pub threads: &'a R,
    pub count: u32,
    pub told: &'a ItemGate<'a, G>,
}

/// How many places a call of [`run_at_once`] takes at most; 0 where no batches run at once.
pub fn most_at_once<R, G>(workers: &Workers<'_, R, G>, room: &BatchesRoom) -> usize {
    if workers.count == 1 {
        return 0;
    }
    room.most()
}

/// Runs the kernel of a loop for places of a rank, for as many of them, from the first on, as can run at once, and
/// answers for how many. It has run for these then, one after another on the memory, with the first values of the
/// loop's scalars behind the memory for each of them. `memory` has the cells of the rank's buffer, and `partials` the
/// rank's partials, into which the amounts are merged: so it is called where the rank owns all of the elements, or where
/// the loop reduces into no variable. Takes no memory.
pub fn run_at_once<R: Threads + Sync, G: Gate + Sync>(
    workers: &Workers<'_, R, G>,
    rows: &RowLoop<'_>,
    places: &[u32],
    memory: &mut [i32],
    partials: &mut [i32],
    room: &mut BatchesRoom,
) -> usize
    requires can { CanRun rows.now (length memory.old) places.now }
    requires partials { Merges (length partials.old) rows.now.scalars.now }
    requires in_rows { (modes : List Mode) × (stand : ℕ → List Place)
        × RunsInRows rows.now (length memory.old) modes stand places.now (length places.now) }
    ensures few { result ≤ length places.now }
    ensures ran { (modes : List Mode) (stand : ℕ → List Place)
        → RunsInRows rows.now (length memory.old) modes stand places.now (length places.now)
        → RowsRun rows.now.code.now.kernel.now rows.now.constants.now (firsts rows.now.variables.now rows.now.scalars.now)
        rows.now.scalars.now
        (λ l. map target_of (stand (slice_index places.now l))) result memory.old memory.new partials.old partials.new }
{
    let ran = run_round(workers, rows, places, memory, partials, room);
    room.note(ran, places.len());
    ran
}
