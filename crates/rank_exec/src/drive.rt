// The steps of a list, one after another, up to the first that stops.

ghost use Rattle.std.specs.Prelude.{◌≡◌, ◌+◌, ◌++◌, List, None, IfOk};
ghost use Rattle.kernel_model.specs.declared.types.faults.KernelFault.{KernelFault};
ghost use Rattle.schedule_steps.specs.declared.step.Step.{Step};
ghost use Rattle.schedule_steps.specs.Steps.{Accepted};
ghost use Rattle.schedule_model.specs.Laws.{Lawful, Coloured};
ghost use Rattle.schedule_model.specs.Sequential.{sequential};
ghost use Rattle.schedule_model.specs.Layout.{by_place};
ghost use Rattle.schedule_model.specs.Flat.{Flat, StartsFlat, flat_from};
ghost use Rattle.rank_program.specs.Rooms.{HasRoomOf};
ghost use Rattle.rank_exec.specs.RunRooms.{HasRunRoomOf};
ghost use Rattle.rank_state.specs.Stops.{stop_in};
ghost use Rattle.rank_exec.specs.Driving.{posts, takes, opens, shuts, FitsPeak, AsSequential};
ghost use Rattle.rank_program.specs.Sound.{setup_in, layout_in, HasStep};
ghost use Rattle.rank_machine.specs.Shown.{ShowsState, IsShowing};
ghost use Rattle.rank_exec.specs.Taken.{IsReady, StepEnds};

use crate::begins::{BeginAt, Begun};
use crate::behind::run_behind;
use crate::group::run_begins;
use crate::joins::join;
use crate::run_room::RunRoom;
use crate::stream::{Steps, next_of};
use crate::under_way::{end, go_on, item_of};
use kernel_model::types::KernelFault;
use op_num::OutOfMemory;
use par_exec::{Crew, Gate};
use rank_machine::machine::Machine;
use rank_machine::{messages, steps};
use rank_program::{Room, Runnable};
use rank_state::rank_memory::stop::Stop;
use schedule_steps::Step;
use std::marker::Sync;
use std::thread::Threads;

// One step, of which the gate is told.
fn take<R: Threads + Sync, G: Gate + Sync>(
    crew: &Crew<'_, R, G>,
    machine: &mut Machine,
    program: &Runnable<'_>,
    room: &mut Room,
    step: Step,
) -> Result<Option<Stop>, OutOfMemory>
    requires space { HasRoomOf program.now room.old }
    requires planned { HasStep program.now step }
    requires shows { IsShowing program.now machine.old }
    requires ready { IsReady program.now step machine.old }
    ensures after { IfOk result
        (λ stop. StepEnds program.now step (stop_in stop) machine.old machine.new) }
    ensures mail { machine.new.mail.left + posts (layout_in program.now) step ≡ machine.old.mail.left + takes (layout_in program.now) step }
    ensures frames { machine.new.frames.left + opens step ≡ machine.old.frames.left + shuts step }
    ensures space { HasRoomOf program.now room.new }
{
    match step {
        Step::Send { item, from, to } => {
            crew.gate.send(item, from, to);
            messages::send(machine, program, room, item, from, to);
            Ok(None)
        }
        Step::Recv { item, rank, from } => {
            crew.gate.recv(item, rank, from);
            messages::recv(machine, program, room, item, rank, from);
            Ok(None)
        }
        Step::Begin { item, rank, place } => {
            crew.gate.begin(item, rank, &[place]);
            steps::begin(machine, program, room, item, rank, place);
            Ok(None)
        }
        Step::End { item, rank, place } => {
            steps::end(machine, program, room, item, rank, place);
            crew.gate.end(item, rank, &[place]);
            Ok(None)
        }
        Step::Join { item } => {
            crew.gate.join(item);
            join(crew.alloc, machine, program, room, item)
        }
    }
}

/// The steps of an accepted list: the stop and the output are those of the sequential run. Where no step stops, the
/// machine's lists, its memories among them, show where the machine on flat buffers ends.
///
/// A run of begins is done in groups by the workers of `crew`, and its gate is told of each begin of a group; a begin
/// that its own end follows is done in place. So are closed groups that the stream tells after a step: with several
/// workers in rounds, of which the gate is told of each rank, with one after ends. The answer is the same for every
/// crew. `room` is what [`RunRoom::new`] gives; memory is wanted for what joins print, and for the
/// places of rounds.
///
/// However it ends, by the last step, by a stop or for want of memory, what `steps` still holds is a suffix of what it
/// held: steps are taken from the front, and none is put back.
///
/// # Errors
/// Want of memory alone.
pub fn drive<R: Threads + Sync, G: Gate + Sync, S: Steps>(
    crew: &Crew<'_, R, G>,
    machine: &mut Machine,
    program: &Runnable<'_>,
    room: &mut RunRoom,
    steps: &mut S,
) -> Result<Option<Stop>, OutOfMemory>
    requires space { HasRunRoomOf program.now room.old }
    requires lawful { Lawful (setup_in program.now) }
    requires coloured { Coloured (setup_in program.now) }
    requires accepted { Accepted (by_place (setup_in program.now) (layout_in program.now)) (S.left steps.old) }
    requires starts { (f : Flat KernelFault) × StartsFlat (setup_in program.now) (layout_in program.now) f
        × ShowsState program.now machine.old f }
    requires peak { FitsPeak (layout_in program.now) machine.old.frames.left machine.old.mail.left (S.left steps.old) }
    ensures same { IfOk result (λ stop. AsSequential (sequential (setup_in program.now).program) (stop_in stop) machine.new.output) }
    ensures shows { IfOk result
        (λ stop. stop ≡ None → (f : Flat KernelFault) → StartsFlat (setup_in program.now) (layout_in program.now) f
        → ShowsState program.now machine.old f
        → ShowsState program.now machine.new
        (flat_from (setup_in program.now) (layout_in program.now) (S.left steps.old) f)) }
    ensures suffix { (front : List Step) × (S.left steps.old ≡ front ++ S.left steps.new) }
{
    program.is_sound();
    schedule_model::flat_machine::flat_runs_as_sequential::<KernelFault>();
    schedule_steps::peak_is_room();
    rank_state::steps_are_ready::<KernelFault>();
    crate::closed_groups::closed_groups_are_alone::<KernelFault>();
    let mut under_way = None;
    let mut next = next_of(steps);
    while let Some(step) = next {
        go_on(crew.gate, program.parts().bound, under_way, item_of(step));
        under_way = Some(item_of(step));
        if let Step::Begin { item, rank, place } = step {
            let begin = BeginAt { item, rank, place };
            match run_begins(crew, machine, program, room, steps, begin) {
                Begun::InPlace => {
                    under_way = Some(run_behind(crew, machine, program, room, steps, step)?);
                    next = next_of(steps);
                }
                Begun::Group(behind) => next = behind,
            }
        } else {
            if let Some(stop) = take(crew, machine, program, &mut room.step, step)? {
                end(crew.gate, under_way);
                return Ok(Some(stop));
            }
            under_way = Some(run_behind(crew, machine, program, room, steps, step)?);
            next = next_of(steps);
        }
    }
    end(crew.gate, under_way);
    Ok(None)
}
