// The joins.

ghost use Rattle.std.specs.Prelude.{◌≡◌, ◌<◌, true, length, None, IfOk};
ghost use Rattle.schedule_steps.specs.declared.step.Step.TheVariants.{Join};
ghost use Rattle.schedule_model.specs.Program.{Reduce, Ordered, elements};
ghost use Rattle.bound_program.specs.Values.{Ordered as OrderedItem};
ghost use Rattle.run_model.specs.Programs.{item_at, loop_of};
ghost use Rattle.schedule_model.specs.Kept.{if_before};
ghost use Rattle.rank_state.specs.Core.{fault_of};
ghost use Rattle.rank_state.specs.Indices.{values_at};
ghost use Rattle.rank_state.specs.Ordered.{AreOwned, run_of, left_in};
ghost use Rattle.rank_state.specs.Stops.{stop_in};
ghost use Rattle.rank_exec.specs.Driving.{RanElement};
ghost use Rattle.rank_program.specs.Rooms.{HasKernelRoom, HasRoomOf};
ghost use Rattle.rank_program.specs.Constants.{ConstantsStay};
ghost use Rattle.rank_program.specs.Sound.{program_in, setup_in, layout_in, tables_in, HasStep};
ghost use Rattle.rank_machine.specs.Shown.{IsShowing, StepDone};
ghost use Rattle.rank_exec.specs.Taken.{StepEnds};

use crate::hosts::run_host;
use bound_program::Item;
use kernel_model::types::KernelFault;
use op_num::OutOfMemory;
use rank_machine::machine::Machine;
use rank_machine::steps::read_constants;
use rank_machine::windows::{KernelRun, OwnedWindows};
use rank_program::{KernelRoom, Room, Runnable, push_owned_windows, reduced_scalars};
use rank_state::rank_memory::stop::Stop;
use std::alloc::Global;

// A Reduce, where no fault of an earlier item is kept.
fn reduce(machine: &mut Machine, program: &Runnable<'_>, item: u32)
    requires kind { (setup_in program.now).program.kind item ≡ Reduce }
    requires shows { IsShowing program.now machine.old }
    requires going { if_before item machine.old.fault ≡ None }
    ensures shows { StepDone program.now (Join item) machine.old machine.new }
    ensures mail { machine.new.mail.left ≡ machine.old.mail.left }
    ensures frames { machine.new.frames.left ≡ machine.old.frames.left }
{
    rank_state::join_shows::<KernelFault>();
    rank_state::steps_can::<KernelFault>();
    machine.reduce(reduced_scalars(program, item));
}

// One element of an Ordered loop, on the cells of these spans and variables; its fault, where it has one.
fn run_one_on(
    machine: &mut Machine,
    run: &KernelRun<'_>,
    windows: &OwnedWindows<'_>,
    room: &mut KernelRoom,
) -> Option<KernelFault>
    requires kind { (setup_in run.now.program.now).program.kind run.now.item ≡ Ordered }
    requires element { run.now.element < elements (setup_in run.now.program.now).program run.now.item }
    requires are { AreOwned (setup_in run.now.program.now) (layout_in run.now.program.now) (tables_in run.now.program.now)
        run.now.item run.now.element windows.now.spans.now windows.now.indices.now }
    requires values { run.now.constants.now ≡ values_at machine.old.variables (tables_in run.now.program.now).constants }
    requires kernels { HasKernelRoom run.now.program.now.locals room.old }
    requires shows { IsShowing run.now.program.now machine.old }
    ensures fault { result
        ≡ fault_of (run_of (layout_in run.now.program.now) (tables_in run.now.program.now)
        run.now.item run.now.element windows.now.spans.now windows.now.indices.now machine.old) }
    ensures state { machine.new
        ≡ left_in windows.now.spans.now windows.now.indices.now
        (run_of (layout_in run.now.program.now) (tables_in run.now.program.now)
        run.now.item run.now.element windows.now.spans.now windows.now.indices.now machine.old) machine.old }
    ensures kernels { HasKernelRoom run.now.program.now.locals room.new }
{
    run.program.is_sound();
    rank_state::steps_can::<KernelFault>();
    rank_state::windows_are_counted::<KernelFault>();
    machine.element(run, windows, room)
}

// One element of an Ordered loop, with the values of all constants in the room; its fault, where it has one.
fn run_one(
    machine: &mut Machine,
    program: &Runnable<'_>,
    room: &mut Room,
    item: u32,
    element: u32,
) -> Option<KernelFault>
    requires kind { (setup_in program.now).program.kind item ≡ Ordered }
    requires element { element < elements (setup_in program.now).program item }
    requires space { HasRoomOf program.now room.old }
    requires shows { IsShowing program.now machine.old }
    requires values { room.old.constants.items ≡ values_at machine.old.variables (tables_in program.now).constants }
    ensures ran { RanElement (setup_in program.now) (layout_in program.now) (tables_in program.now)
        item element machine.old machine.new result }
    ensures stay { ConstantsStay program.now (loop_of (item_at (program_in program.now) item))
        → values_at machine.new.variables (tables_in program.now).constants
        ≡ values_at machine.old.variables (tables_in program.now).constants }
    ensures space { HasRoomOf program.now room.new }
    ensures constants { room.new.constants ≡ room.old.constants }
{
    program.is_sound();
    room.owned.clear();
    let indices = push_owned_windows(program, item, element, &mut room.owned);
    let run = KernelRun {
        program,
        item,
        element,
        constants: &room.constants,
    };
    let windows = OwnedWindows {
        spans: &room.owned,
        indices,
    };
    run_one_on(machine, &run, &windows, &mut room.kernels)
}

// Copies the values of all constants anew, unless the elements of a loop are known to leave them.
fn read_again(machine: &Machine, program: &Runnable<'_>, stay: bool, values: &mut Vec<i32>)
    requires count { length values.old.items ≡ length (tables_in program.now).constants }
    requires shows { IsShowing program.now machine.now }
    requires kept { stay ≡ true → values.old.items ≡ values_at machine.now.variables (tables_in program.now).constants }
    ensures values { values.new.items ≡ values_at machine.now.variables (tables_in program.now).constants }
    ensures count { length values.new.items ≡ length (tables_in program.now).constants }
{
    if !stay {
        read_constants(machine, program, values);
    }
}

// How many elements an Ordered loop has.
fn elements_of(program: &Runnable<'_>, item: u32, site: u32) -> u32
    requires { item_at (program_in program.now) item ≡ OrderedItem site }
    ensures { result ≡ elements (setup_in program.now).program item }
{
    run_model::items_are_there();
    let bound = program.parts().bound;
    bound.mesh.set_size(bound.sites[site as usize].set)
}

// An Ordered loop, where no fault of an earlier item is kept: its elements one after another, up to
// the first that faults.
fn run_ordered(
    machine: &mut Machine,
    program: &Runnable<'_>,
    room: &mut Room,
    item: u32,
    site: u32,
) -> Option<Stop>
    requires site { item_at (program_in program.now) item ≡ OrderedItem site }
    requires space { HasRoomOf program.now room.old }
    requires kind { (setup_in program.now).program.kind item ≡ Ordered }
    requires shows { IsShowing program.now machine.old }
    requires going { if_before item machine.old.fault ≡ None }
    ensures space { HasRoomOf program.now room.new }
    ensures after { StepEnds program.now (Join item) (stop_in result) machine.old machine.new }
    ensures mail { machine.new.mail.left ≡ machine.old.mail.left }
    ensures frames { machine.new.frames.left ≡ machine.old.frames.left }
{
    program.is_sound();
    rank_state::loop_shows::<KernelFault>();
    let stay = program.constants_stay(site);
    read_constants(machine, program, &mut room.constants);
    for element in 0..elements_of(program, item, site) {
        if let Some(fault) = run_one(machine, program, room, item, element) {
            return Some(Stop {
                item,
                element: Some(element),
                fault,
            });
        }
        read_again(machine, program, stay, &mut room.constants);
    }
    None
}

/// A join: it stops by the kept fault of an earlier item, and else does its item.
pub fn join(
    alloc: Global,
    machine: &mut Machine,
    program: &Runnable<'_>,
    room: &mut Room,
    item: u32,
) -> Result<Option<Stop>, OutOfMemory>
    requires space { HasRoomOf program.now room.old }
    requires planned { HasStep program.now (Join item) }
    requires shows { IsShowing program.now machine.old }
    ensures after { IfOk result
        (λ stop. StepEnds program.now (Join item) (stop_in stop) machine.old machine.new) }
    ensures space { HasRoomOf program.now room.new }
    ensures mail { machine.new.mail.left ≡ machine.old.mail.left }
    ensures frames { machine.new.frames.left ≡ machine.old.frames.left }
{
    rank_state::join_shows::<KernelFault>();
    if let Some(stop) = machine.fault_before(item) {
        return Ok(Some(stop));
    }
    match &program.parts().bound.trace[item as usize] {
        Item::Reduce { .. } => {
            reduce(machine, program, item);
            Ok(None)
        }
        Item::Ordered { site } => Ok(run_ordered(machine, program, room, item, *site)),
        Item::Host { act } => run_host(alloc, machine, program, item, act),
        Item::Free { .. } => unreachable!(),
    }
}
