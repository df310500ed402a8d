// What the steps of a list need on their way, taken once.

ghost use Rattle.std.specs.Prelude.{IfOk};
ghost use Rattle.rank_exec.specs.RunRooms.{HasRunRoomOf};

use crate::group_room::GroupRoom;
use crate::round_room::RoundRoom;
use rank_program::{Room, Runnable};
use std::alloc::{AllocError, Global};

/// How many begins are done as one group at most.
pub const MOST_BEGINS: usize = 1024;

/// The room for a list of steps: that for a step, a list for the places of a group, that for the group, and that for
/// rounds.
#[derive(Drop)]
pub struct RunRoom {
    pub step: Room,
    pub places: Vec<u32>,
    pub group: GroupRoom,
    pub round: RoundRoom,
}

impl RunRoom {
    /// As much room as any list of steps needs, whatever its length. Where one worker runs the program, there is none
    /// for rounds.
    pub fn new(alloc: Global, program: &Runnable<'_>, workers: u32) -> Result<RunRoom, AllocError>
        ensures { IfOk result (HasRunRoomOf program.now) }
    {
        let ranks = program.parts().owners.ranks;
        let rounds = if workers > 1 { ranks } else { 0 };
        Ok(RunRoom {
            step: Room::new(alloc, program)?,
            places: Vec::with_capacity(alloc, MOST_BEGINS)?,
            group: GroupRoom::new(alloc, MOST_BEGINS, program.stride(), program.parts().locals)?,
            round: RoundRoom::new(alloc, program, rounds, workers)?,
        })
    }
}
