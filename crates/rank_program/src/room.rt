// What steps need on their way, taken once.

ghost use Rattle.std.specs.Prelude.{◌≡◌, ◌≤◌, length, IfOk};
ghost use Rattle.rank_program.specs.Rooms.{HasKernelRoom, HasRoomOf};

use crate::runnable::Runnable;
use kernel_model::types::views::Place;
use kernel_runs::row_batches::RowRoom;
use kernel_runs::worker_batches::BatchesRoom;
use rank_state::{Owned, Span};
use smallvec::SmallVec;
use std::alloc::{AllocError, Global};

/// Room for runs of kernels: where their arguments stand, their locals, the cells that they may spoil, a batch of
/// elements, and batches that several workers run at once. What stands there means nothing between two steps.
#[derive(Drop)]
pub struct KernelRoom {
    pub places: SmallVec<Place, MOST_WAYS>,
    pub locals: Vec<i32>,
    pub saved: Vec<i32>,
    pub rows: RowRoom,
    pub batches: BatchesRoom,
}

/// Room for the spans of an element or a message, for runs of kernels, and for the values of all constants. What stands
/// there means nothing between two steps.
#[derive(Drop)]
pub struct Room {
    pub spans: Vec<Span>,
    pub owned: Vec<Owned>,
    pub kernels: KernelRoom,
    pub constants: Vec<i32>,
}

/// How many cells the arguments of a kernel that runs on a rank's own cells have at most.
pub const MOST_SAVED: usize = 1024;

/// How many ways lead from an element of a loop to what its arguments reach at most: one for each argument.
pub const MOST_WAYS: usize = 16;

/// How many columns a kernel has at most that runs for a batch of elements at once: as many as a cache of 32 KiB holds.
pub const MOST_COLUMNS: usize = 128;

/// Opens so many places, whatever they are.
pub fn open_places(count: usize, places: &mut SmallVec<Place, MOST_WAYS>)
    requires { count ≤ places.old.capacity }
    ensures count { length places.new.items ≡ count }
    ensures room { places.new.capacity ≡ places.old.capacity }
{
    places.clear();
    for _place in 0..count {
        places.push_reserved(Place::default());
    }
}

impl KernelRoom {
    // As much as kernels with so many cells of locals need that one worker runs.
    fn new(alloc: Global, locals: usize) -> Result<KernelRoom, AllocError>
        ensures { IfOk result (HasKernelRoom locals) }
    {
        Ok(KernelRoom {
            places: SmallVec::new(alloc),
            locals: vec![in alloc; 0; locals]?,
            saved: vec![in alloc; 0; MOST_SAVED]?,
            rows: RowRoom::new(alloc, MOST_WAYS, MOST_COLUMNS, MOST_COLUMNS)?,
            batches: BatchesRoom::none(alloc),
        })
    }
}

impl Room {
    /// As much room as any step needs that one worker takes.
    pub fn new(alloc: Global, program: &Runnable<'_>) -> Result<Room, AllocError>
        ensures { IfOk result (HasRoomOf program.now) }
    {
        let parts = program.parts();
        let most = parts.tables.spans;
        Ok(Room {
            spans: Vec::with_capacity(alloc, most)?,
            owned: Vec::with_capacity(alloc, most)?,
            kernels: KernelRoom::new(alloc, parts.locals)?,
            constants: vec![in alloc; 0; program.constants().len()]?,
        })
    }
}
