// What rounds need on their way.

ghost use Rattle.std.specs.Prelude.{◌≡◌, ℕ, [], All, IfOk, length};
ghost use Rattle.rank_program.specs.Rooms.{HasRoomOf};
ghost use Rattle.rank_machine.specs.OnRanks.{places_on};

use kernel_code::Code;
use kernel_runs::worker_batches::BatchesRoom;
use rank_machine::ranks::RankPart;
use rank_program::{MOST_ARGS, MOST_COLUMNS, Room, Runnable, runs_in_batches};
use std::alloc::{AllocError, Global};

/// For each rank a list of places, and what elements are lent of it; for no rank where none come in rounds.
#[derive(Drop)]
pub struct RoundRoom {
    pub lists: Vec<Vec<u32>>,
    pub parts: Vec<RankPart>,
}

// What the batches of a rank that run at once take at most, in bytes: 8 MiB. A batch takes 256 for each of its columns,
// those of numbers and slots among them: 16 KiB where a loop and its kernel have 64, of which 512 run at once, and 68
// KiB where they have as many as any that runs in batches, of which 120 do. Each time that batches have run, threads
// end and start anew for the next.
const BATCH_BYTES: usize = 8 << 20;

// How many slots the kernels have at most whose elements may run in batches.
fn most_slots(codes: &[Code<'_>]) -> usize {
    let mut most = 0;
    for code in codes {
        if runs_in_batches(code) {
            most = most.max(code.slots as usize);
        }
    }
    most
}

// Room for a step, and on a rank that has several workers to itself for the batches that they run at once.
fn room_for(
    alloc: Global,
    program: &Runnable<'_>,
    rank: u32,
    several: bool,
) -> Result<Room, AllocError>
    ensures { IfOk result (HasRoomOf program.now) }
{
    let mut room = Room::new(alloc, program)?;
    if several {
        let places = program.places().get(rank as usize).copied().unwrap_or(0);
        room.kernels.batches = BatchesRoom::new(
            alloc,
            BATCH_BYTES,
            MOST_ARGS,
            program.stride().min(MOST_COLUMNS),
            most_slots(program.parts().codes),
            places,
        )?;
    }
    Ok(room)
}

impl RoundRoom {
    /// Room for so many ranks and workers.
    pub fn new(
        alloc: Global,
        program: &Runnable<'_>,
        ranks: u32,
        workers: u32,
    ) -> Result<RoundRoom, AllocError>
        ensures { IfOk result (λ room. All (λ x. HasRoomOf program.now x.room) room.parts.items) }
    {
        let mut lists = Vec::with_capacity(alloc, ranks as usize)?;
        let mut parts = Vec::with_capacity(alloc, ranks as usize)?;
        let several = workers / 2 >= ranks;
        for rank in 0..ranks {
            lists.push(Vec::new(alloc))?;
            parts.push(RankPart {
                memory: Vec::new(alloc),
                partials: Vec::new(alloc),
                fault: None,
                room: room_for(alloc, program, rank, several)?,
            })?;
        }
        Ok(RoundRoom { lists, parts })
    }
}

/// Takes all places out of the lists.
pub fn clear_all(lists: &mut [Vec<u32>])
    ensures empty { (r : ℕ) → places_on lists.new r ≡ [] }
    ensures count { length lists.new ≡ length lists.old }
{
    let mut rank = 0;
    while rank < lists.len() {
        lists[rank].clear();
        rank += 1;
    }
}
