// Rounds of batches: those that run at once, and then are put back one after another.

ghost use Rattle.std.specs.Prelude.{◌≡◌, ◌<◌, ◌≤◌, ℕ, List, true, length, map, slice_index};
ghost use Rattle.par_exec.specs.Parts.{TakesEach};
ghost use Rattle.kernel_columns.specs.declared.columns.TheConstants.{ROWS};
ghost use Rattle.kernel_model.specs.Obeys.{Mode};
ghost use Rattle.kernel_model.specs.declared.types.views.frame.Place.{Place};
ghost use Rattle.kernel_model.specs.Framed.{target_of};
ghost use Rattle.rank_state.specs.Windows.{Merges, firsts};
ghost use Rattle.kernel_runs.specs.Asides.{NeverReadOthers};
ghost use Rattle.kernel_runs.specs.Meeting.{AreDifferent};
ghost use Rattle.kernel_runs.specs.RowLoops.{RunsInRows};
ghost use Rattle.kernel_runs.specs.RowsRun.{RowsRun};
ghost use Rattle.kernel_runs.specs.Rounds.{CanRun, RanBatch};

use crate::row_batches::{RowLoop, asides_stay, batches_of, places_stay_apart, put_aside};
use crate::worker_batches::aside::run_all_aside;
use crate::worker_batches::at_once::Workers;
use crate::worker_batches::differing::all_differ;
use crate::worker_batches::room::{BatchPart, BatchesRoom};
use kernel_columns::ROWS;
use par_exec::{Gate, ItemGate};
use std::marker::Sync;
use std::thread::Threads;

// Puts back batches that ran aside, one after another, up to the first of which not all places ran, and tells of each.
// Answers for how many places of the list, from the first on, the kernel ran.
fn put_all<G: Gate>(
    told: &ItemGate<'_, G>,
    rows: &RowLoop<'_>,
    places: &[u32],
    parts: &[BatchPart],
    memory: &mut [i32],
    partials: &mut [i32],
) -> usize
    requires can { CanRun rows.now (length memory.old) places.now }
    requires partials { Merges (length partials.old) rows.now.scalars.now }
    requires ran { TakesEach (RanBatch rows.now memory.old places.now) 0 parts.now }
    requires differ { rows.now.differ ≡ true → AreDifferent (length places.now) places.now }
    requires apart { NeverReadOthers rows.now places.now (length places.now) }
    ensures few { result ≤ length places.now }
    ensures ran { (modes : List Mode) (stand : ℕ → List Place)
        → RunsInRows rows.now (length memory.old) modes stand places.now (length places.now)
        → RowsRun rows.now.code.now.kernel.now rows.now.constants.now (firsts rows.now.variables.now rows.now.scalars.now)
        rows.now.scalars.now
        (λ l. map target_of (stand (slice_index places.now l))) result memory.old memory.new partials.old partials.new }
{
    asides_stay();
    let mut done = 0;
    for part in parts {
        if part.ran == 0 {
            return done;
        }
        put_aside(rows, &part.batch, part.ran, &part.room, memory, partials);
        told.end(&places[done..done + part.ran]);
        done += part.ran;
        if part.ran < ROWS {
            return done;
        }
    }
    done
}

/// Runs the kernel of a loop for the first places of a list, one after another on the memory, in batches that the
/// workers run at once. Answers for how many.
pub fn run_round<R: Threads + Sync, G: Gate + Sync>(
    workers: &Workers<'_, R, G>,
    rows: &RowLoop<'_>,
    places: &[u32],
    memory: &mut [i32],
    partials: &mut [i32],
    room: &mut BatchesRoom,
) -> usize
    requires can { CanRun rows.now (length memory.old) places.now }
    requires partials { Merges (length partials.old) rows.now.scalars.now }
    requires in_rows { (modes : List Mode) × (stand : ℕ → List Place)
        × RunsInRows rows.now (length memory.old) modes stand places.now (length places.now) }
    ensures few { result ≤ length places.now }
    ensures ran { (modes : List Mode) (stand : ℕ → List Place)
        → RunsInRows rows.now (length memory.old) modes stand places.now (length places.now)
        → RowsRun rows.now.code.now.kernel.now rows.now.constants.now (firsts rows.now.variables.now rows.now.scalars.now)
        rows.now.scalars.now
        (λ l. map target_of (stand (slice_index places.now l))) result memory.old memory.new partials.old partials.new }
{
    places_stay_apart();
    if rows.differ && !all_differ(places, &mut room.marks) {
        return 0;
    }
    let count = batches_of(places.len()).min(room.parts.len());
    let parts = &mut room.parts[..count];
    run_all_aside(workers, rows, places, memory, parts);
    put_all(workers.told, rows, places, parts, memory, partials)
}
