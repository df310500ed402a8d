// Elements that a stream told, in place.

ghost use Rattle.std.specs.Prelude.{◌<◌, length};
ghost use Rattle.rank_program.specs.Rooms.{HasRoomOf};
ghost use Rattle.rank_exec.specs.Rounds.{elements};
ghost use Rattle.rank_machine.specs.Shown.{IsShowing};
ghost use Rattle.rank_exec.specs.Taken.{AreReady, GroupsAlone, StepsDone};

use crate::stream::Told;
use kernel_model::types::KernelFault;
use par_exec::{Crew, Gate, ItemGate};
use rank_machine::machine::Machine;
use rank_machine::steps::read_constants;
use rank_program::{Room, Runnable};
use std::marker::Sync;
use std::thread::Threads;

// Tells that a closed group begins, where elements are one.
fn tell_begin<G: Gate>(gate: &G, of: Told, places: &[u32]) {
    if !of.alone {
        gate.group_begins(of.item, of.rank, places);
    }
}

// Tells that it has ended.
fn tell_end<G: Gate>(gate: &G, of: Told, places: &[u32]) {
    if !of.alone {
        gate.group_ends(of.item, of.rank, places);
    }
}

/// Elements that were told, one after another, each begun and ended in place. The gate is told of them, and of a closed
/// group that they are. The constants are read once: no element changes a variable.
pub fn run_told<R: Threads + Sync, G: Gate + Sync>(
    crew: &Crew<'_, R, G>,
    machine: &mut Machine,
    program: &Runnable<'_>,
    room: &mut Room,
    of: Told,
    places: &[u32],
)
    requires space { HasRoomOf program.now room.old }
    requires shows { IsShowing program.now machine.old }
    requires some { 0 < length places.now }
    requires ready { AreReady program.now (elements of.alone of.item of.rank places.now) machine.old }
    requires alone { GroupsAlone program.now (elements of.alone of.item of.rank places.now) }
    ensures done { StepsDone program.now (elements of.alone of.item of.rank places.now) machine.old machine.new }
    ensures space { HasRoomOf program.now room.new }
{
    program.is_sound();
    crate::closed_groups::places_stay_shut::<KernelFault>();
    rank_state::in_place_shows::<KernelFault>();
    read_constants(machine, program, &mut room.constants);
    let told = ItemGate {
        gate: crew.gate,
        item: of.item,
        rank: of.rank,
    };
    tell_begin(crew.gate, of, places);
    machine.in_place(crew.threads, program, &told, places, room);
    tell_end(crew.gate, of, places);
}
