// The elements that come behind a step.

ghost use Rattle.std.specs.Prelude.{◌≡◌, ◌<◌, ◌++◌, ◌^◌, true, List, OnOk, length};
ghost use Rattle.schedule_steps.specs.declared.step.Step.{Step};
ghost use Rattle.rank_exec.specs.RunRooms.{HasRunRoomOf};
ghost use Rattle.rank_machine.specs.Shown.{IsShowing};
ghost use Rattle.rank_exec.specs.Taken.{AreReady, GroupsAlone, StepsDone};

use crate::rounds::run_round;
use crate::run_room::RunRoom;
use crate::sharing::{come_in_rounds, groups_run_in_place, may_come_in_rounds};
use crate::stream::{Steps, Told, next_told};
use crate::told::run_told;
use crate::under_way::{go_on, item_of};
use kernel_model::types::KernelFault;
use op_num::OutOfMemory;
use par_exec::{Crew, Gate};
use rank_machine::machine::Machine;
use rank_program::Runnable;
use schedule_steps::Step;
use std::marker::Sync;
use std::thread::Threads;

// Whether elements that come behind a step may come in rounds, for which there is room for each rank.
fn rounds_may_come(
    machine: &Machine,
    program: &Runnable<'_>,
    room: &RunRoom,
    before: Step,
    workers: u32,
) -> bool
    ensures listed { result ≡ true → length room.now.round.lists.items ≡ length room.now.round.parts.items }
    ensures ranks { result ≡ true → length room.now.round.parts.items ≡ length machine.now.memories }
    ensures few { result ≡ true → length room.now.round.parts.items < 2 ^ 32 }
{
    let ranks = program.parts().owners.ranks as usize;
    let parts = room.round.parts.len();
    let lists = room.round.lists.len();
    parts == ranks
        && lists == ranks
        && machine.ranks() == ranks
        && may_come_in_rounds(program, before, workers)
}

// Whether elements that were told are run as a round, where `rounds` may come.
fn comes_in_round(
    program: &Runnable<'_>,
    room: &RunRoom,
    rounds: bool,
    of: Told,
    workers: u32,
) -> bool
    ensures rounds { result ≡ true → rounds ≡ true }
    ensures rank { result ≡ true → of.rank < length room.now.round.lists.items }
{
    rounds
        && (of.rank as usize) < room.round.lists.len()
        && come_in_rounds(program, of.item, workers)
}

/// The elements that come after a step, as long as the stream tells them: as rounds where several workers run the
/// program, else one after another in place. Closed groups come so only as rounds, or after the end of an element where
/// one worker runs the program; others are better begun as groups.
///
/// `before` is the step; for an element that was begun and ended in place, its begin. Answers the item of the last
/// element, or of the step where none comes; the gate is told where one comes to another item.
///
/// # Errors
/// Want of memory alone.
pub fn run_behind<R: Threads + Sync, G: Gate + Sync, S: Steps>(
    crew: &Crew<'_, R, G>,
    machine: &mut Machine,
    program: &Runnable<'_>,
    room: &mut RunRoom,
    steps: &mut S,
    before: Step,
) -> Result<u32, OutOfMemory>
    requires space { HasRunRoomOf program.now room.old }
    requires shows { IsShowing program.now machine.old }
    requires ready { AreReady program.now (S.left steps.old) machine.old }
    requires alone { GroupsAlone program.now (S.left steps.old) }
    ensures done { OnOk result ((done : List Step) × (S.left steps.old ≡ done ++ S.left steps.new)
        × StepsDone program.now done machine.old machine.new) }
    ensures suffix { (front : List Step) × (S.left steps.old ≡ front ++ S.left steps.new) }
    ensures space { OnOk result (HasRunRoomOf program.now room.new) }
{
    let rounds = rounds_may_come(machine, program, room, before, crew.workers);
    let closed = rounds || groups_run_in_place(before, crew.workers);
    let mut item = item_of(before);
    let mut next = next_told(steps, &mut room.places, closed);
    while let Some(of) = next {
        go_on(crew.gate, program.parts().bound, Some(item), of.item);
        item = of.item;
        if comes_in_round(program, room, rounds, of, crew.workers) {
            next = run_round(crew, machine, program, room, steps, of)?;
        } else {
            run_told(crew, machine, program, &mut room.step, of, &room.places);
            next = next_told(steps, &mut room.places, closed);
        }
    }
    Ok(item)
}
