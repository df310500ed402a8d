// Rounds: the elements of an item on all ranks, of which each rank's run one after another, and the ranks are shared
// out among workers.

ghost use Rattle.std.specs.Prelude.{◌≡◌, ◌<◌, ◌++◌, ◌^◌, List, All, IfOk, IfSome, OnOk, length};
ghost use Rattle.schedule_steps.specs.declared.step.Step.{Step};
ghost use Rattle.rank_state.specs.Indices.{values_at};
ghost use Rattle.rank_program.specs.Rooms.{HasRoomOf};
ghost use Rattle.rank_exec.specs.RunRooms.{HasRunRoomOf};
ghost use Rattle.rank_exec.specs.Rounds.{elements, told};
ghost use Rattle.rank_program.specs.Sound.{tables_in};
ghost use Rattle.rank_machine.specs.Shown.{IsShowing};
ghost use Rattle.rank_exec.specs.Taken.{AreReady, GroupsAlone, StepsDone};

use crate::gathering::gather;
use crate::laws::{ranks_come_in_turn, shares_are_set};
use crate::round_room::clear_all;
use crate::run_room::RunRoom;
use crate::sharing::workers_for_round;
use crate::stream::{Steps, Told};
use kernel_model::types::KernelFault;
use op_num::OutOfMemory;
use par_exec::{Crew, Gate};
use rank_machine::machine::Machine;
use rank_machine::ranks::RankPart;
use rank_machine::steps::read_constants;
use rank_program::Runnable;
use std::marker::Sync;
use std::thread::Threads;

// Copies the values of all constants for each rank.
fn read_all(machine: &Machine, program: &Runnable<'_>, parts: &mut [RankPart])
    requires shows { IsShowing program.now machine.now }
    requires space { All (λ x. HasRoomOf program.now x.room) parts.old }
    ensures constants { All (λ x. x.room.constants.items ≡ values_at machine.now.variables (tables_in program.now).constants) parts.new }
    ensures space { All (λ x. HasRoomOf program.now x.room) parts.new }
    ensures count { length parts.new ≡ length parts.old }
{
    let mut rank = 0;
    while rank < parts.len() {
        read_constants(machine, program, &mut parts[rank].room.constants);
        rank += 1;
    }
}

/// Elements that were told, with those of their item that are told next on their rank and the ranks behind it, as a
/// round: each rank's one after another, and the ranks shared out among the workers. Answers what was told behind them,
/// whose places stand in the room.
///
/// # Errors
/// Want of memory alone.
pub fn run_round<R: Threads + Sync, G: Gate + Sync, S: Steps>(
    crew: &Crew<'_, R, G>,
    machine: &mut Machine,
    program: &Runnable<'_>,
    room: &mut RunRoom,
    steps: &mut S,
    of: Told,
) -> Result<Option<Told>, OutOfMemory>
    requires space { HasRunRoomOf program.now room.old }
    requires shows { IsShowing program.now machine.old }
    requires ready { AreReady program.now (elements of.alone of.item of.rank room.old.places.items ++ S.left steps.old) machine.old }
    requires alone { GroupsAlone program.now (elements of.alone of.item of.rank room.old.places.items ++ S.left steps.old) }
    requires some { 0 < length room.old.places.items }
    requires rank { of.rank < length room.old.round.lists.items }
    requires listed { length room.old.round.lists.items ≡ length room.old.round.parts.items }
    requires ranks { length room.old.round.parts.items ≡ length machine.old.memories }
    requires few { length room.old.round.parts.items < 2 ^ 32 }
    ensures done { IfOk result (λ next. (done : List Step)
        × (elements of.alone of.item of.rank room.old.places.items ++ S.left steps.old
        ≡ done ++ (told next room.new.places.items ++ S.left steps.new)) × (0 < length done)
        × StepsDone program.now done machine.old machine.new) }
    ensures suffix { (front : List Step)
        × (elements of.alone of.item of.rank room.old.places.items ++ S.left steps.old ≡ front ++ S.left steps.new) }
    ensures more { IfOk result (λ next. IfSome next (λ x. 0 < length room.new.places.items)) }
    ensures space { OnOk result (HasRunRoomOf program.now room.new) }
    ensures lists { OnOk result (length room.new.round.lists.items ≡ length room.old.round.lists.items) }
    ensures parts { OnOk result (length room.new.round.parts.items ≡ length room.old.round.parts.items) }
{
    program.is_sound();
    crate::closed_groups::several_are_alone::<KernelFault>();
    crate::closed_groups::places_stay_shut::<KernelFault>();
    rank_state::in_place_shows::<KernelFault>();
    ranks_come_in_turn::<KernelFault>();
    shares_are_set::<KernelFault>();
    clear_all(&mut room.round.lists);
    let next = gather(steps, of, &mut room.places, &mut room.round.lists)?;
    read_all(machine, program, &mut room.round.parts);
    let lists = room.round.lists.as_slice();
    let workers = workers_for_round(program, of.item, lists, crew.workers);
    let crew = crew.with_workers(workers);
    machine.on_ranks(&crew, program, of.item, lists, &mut room.round.parts);
    Ok(next)
}
