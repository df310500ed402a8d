// Batches that run at once, each on columns of its own.

ghost use Rattle.std.specs.Prelude.{◌≡◌, ◌<◌, ◌≤◌, ◌*◌, ℕ, true, length, slice_index};
ghost use Rattle.par_exec.specs.Parts.{TakesEach};
ghost use Rattle.kernel_model.specs.Resolved.{IsResolved};
ghost use Rattle.kernel_model.specs.Framed.{PlacesIn};
ghost use Rattle.kernel_code.specs.Coded.{IsCode};
ghost use Rattle.kernel_columns.specs.declared.columns.TheConstants.{ROWS};
ghost use Rattle.rank_state.specs.Windows.{Reads};
ghost use Rattle.kernel_runs.specs.RowLoops.{HasRowRoom, IsWhole, LeadsFrom, width};
ghost use Rattle.kernel_runs.specs.Asides.{IsAside};
ghost use Rattle.kernel_runs.specs.Rounds.{CanRun, RanBatch};

use crate::row_batches::{RowLoop, RowRoom, batch_at, run_aside};
use crate::worker_batches::at_once::Workers;
use crate::worker_batches::room::BatchPart;
use kernel_columns::{Numbers, ROWS};
use par_exec::{Gate, PartJob, run_parts};
use std::marker::Sync;
use std::thread::Threads;

// Whether there is room for a batch of a loop.
fn has_room(rows: &RowLoop<'_>, room: &RowRoom) -> bool
    ensures { result ≡ true
        → HasRowRoom (length rows.now.ways.now) (width rows.now) rows.now.code.now.slots room.now }
{
    let columns = room.frame.len();
    let inner = rows.columns.len();
    let ways_fit = rows.ways.len() <= room.numbers.len();
    let columns_fit = inner <= columns && rows.scalars.len() <= columns - inner;
    let slots_fit = rows.code.slots as usize <= room.scratch.len();
    ways_fit && columns_fit && slots_fit
}

// The same as `run_aside`, or 0 where there is no room.
fn run_in_room(
    rows: &RowLoop<'_>,
    batch: &Numbers,
    count: usize,
    memory: &[i32],
    room: &mut RowRoom,
) -> usize
    requires code { IsCode rows.now.code.now }
    requires resolved { IsResolved (length rows.now.constants.now) rows.now.code.now.kernel.now }
    requires params { length rows.now.places.now ≡ rows.now.code.now.kernel.now.params }
    requires fits { PlacesIn (width rows.now) rows.now.places.now }
    requires whole { IsWhole rows.now }
    requires leads { (l : ℕ) → l < count → LeadsFrom rows.now (length memory.now) (slice_index batch.now l) }
    requires few { count ≤ ROWS }
    requires variables { Reads (length rows.now.variables.now) rows.now.scalars.now }
    ensures few { result ≤ count }
    ensures aside { 0 < result
        → IsAside rows.now batch.now result room.new.numbers.items memory.now room.new.frame.items }
{
    if !has_room(rows, room) {
        return 0;
    }
    run_aside(rows, batch, count, memory, room)
}

// The batches of a list of places of an item on a rank.
#[derive(Drop)]
struct Batches<'a, 'b> {
    rows: &'a RowLoop<'b>,
    places: &'a [u32],
    memory: &'a [i32],
    item: u32,
    rank: u32,
}

impl<'a, 'b> PartJob<BatchPart> for Batches<'a, 'b> {
    ghost use Rattle.kernel_runs.specs.Rounds.{CanRunBatch, RanBatch};

    ghost takes = { λ s i x. CanRunBatch s.rows.now s.memory.now s.places.now i };

    ghost makes = { λ s i x y. RanBatch s.rows.now s.memory.now s.places.now i y };

    fn run<G: Gate>(&self, gate: &G, index: usize, part: &mut BatchPart) {
        let at = index * ROWS;
        let count = ROWS.min(self.places.len() - at);
        gate.begin(self.item, self.rank, &self.places[at..at + count]);
        part.batch = batch_at(self.places, at, count);
        part.ran = run_in_room(self.rows, &part.batch, count, self.memory, &mut part.room);
    }
}

/// Runs the kernel of a loop for the places of a list in batches of 64, each on columns of its own, by the `workers`,
/// whose gate is told of each batch just before, on the thread that runs it. There are no more parts than batches.
pub fn run_all_aside<R: Threads + Sync, G: Gate + Sync>(
    workers: &Workers<'_, R, G>,
    rows: &RowLoop<'_>,
    places: &[u32],
    memory: &[i32],
    parts: &mut [BatchPart],
)
    requires can { CanRun rows.now (length memory.now) places.now }
    requires there { (i : ℕ) → i < length parts.old → i * ROWS < length places.now }
    ensures { TakesEach (RanBatch rows.now memory.now places.now) 0 parts.new }
{
    let batches = Batches {
        rows,
        places,
        memory,
        item: workers.told.item,
        rank: workers.told.rank,
    };
    let count = workers.count.max(1);
    run_parts(workers.threads, count, workers.told.gate, &batches, parts);
}
