// What batches need that run at once.

ghost use Rattle.std.specs.Prelude.{◌≡◌, [], IfOk};
ghost use Rattle.kernel_runs.specs.Rounds.{HasBatches};

use crate::row_batches::{RowRoom, batches_of};
use kernel_columns::{Numbers, ROWS};
use std::alloc::{AllocError, Global};

// A batch: its places, for how many of them, from the first on, the kernel ran, and the columns in which it did.
#[derive(Drop)]
pub struct BatchPart {
    pub batch: Numbers,
    pub ran: usize,
    pub room: RowRoom,
}

/// Room for batches that run at once, and a mark for each place of the rank. What stands there means nothing between
/// two calls.
#[derive(Drop)]
pub struct BatchesRoom {
    pub(crate) parts: Vec<BatchPart>,
    pub(crate) marks: Vec<u32>,
    // How many batches the next call takes at most: fewer where those of the last did not all run.
    next: usize,
}

// As many batches as run at once at most, 32,768 elements: the time that their kernels take is long beside that in
// which threads start.
const MOST_BATCHES: usize = 512;

// The bytes of a batch's column: 64 cells of 4 bytes.
const COLUMN_BYTES: usize = ROWS * 4;

// How many batches with so many columns of any kind take so many bytes at most, but for the vectors' own words.
fn batches_in(bytes: usize, columns: usize) -> usize {
    bytes / columns.max(1).saturating_mul(COLUMN_BYTES)
}

impl BatchesRoom {
    /// No room: no batches run at once in it.
    pub fn none(alloc: Global) -> BatchesRoom
        ensures { result.parts.items ≡ [] }
    {
        BatchesRoom {
            parts: Vec::new(alloc),
            marks: Vec::new(alloc),
            next: 0,
        }
    }

    /// Room for batches of loops with at most so many ways, columns and scalars together, and slots, on a rank with so
    /// many places. Loops with more run as where there is no room. It has as many batches as take so many `bytes`, but
    /// at most 512, and no more than the places make; with the marks it takes 4 bytes more for each place.
    ///
    /// # Errors
    /// Want of memory alone.
    pub fn new(
        alloc: Global,
        bytes: usize,
        ways: usize,
        columns: usize,
        slots: usize,
        places: usize,
    ) -> Result<BatchesRoom, AllocError>
        ensures { IfOk result (HasBatches ways columns slots places) }
    {
        let all = ways.saturating_add(columns).saturating_add(slots);
        let batches = batches_in(bytes, all)
            .min(MOST_BATCHES)
            .min(batches_of(places));
        let mut parts = Vec::with_capacity(alloc, batches)?;
        for _batch in 0..batches {
            parts.push(BatchPart {
                batch: [0; ROWS],
                ran: 0,
                room: RowRoom::new(alloc, ways, columns, slots)?,
            })?;
        }
        Ok(BatchesRoom {
            parts,
            marks: vec![in alloc; 0; places]?,
            next: batches,
        })
    }

    /// How many places the next call takes at most.
    pub fn most(&self) -> usize {
        self.next.saturating_mul(ROWS)
    }

    // Notes that so many of as many places ran.
    pub(crate) fn note(&mut self, ran: usize, places: usize) {
        let batches = if ran == places { self.next } else { ran / ROWS };
        self.next = batches.saturating_mul(2).max(2).min(self.parts.len());
    }
}
