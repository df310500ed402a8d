// Each begin and end of a list, on a machine whose lists show a state of the machine on flat buffers.

ghost use Rattle.std.specs.Prelude.{◌≡◌, ◌≢◌, ◌<◌, ◌+◌, length};
ghost use Rattle.schedule_steps.specs.declared.step.Step.TheVariants.{Begin, End};
ghost use Rattle.schedule_model.specs.Flat.{Shut_pane};
ghost use Rattle.rank_state.specs.Frames.{Shut, pane_at};
ghost use Rattle.rank_state.specs.Indices.{values_at};
ghost use Rattle.rank_state.specs.Shows.{AreWindows, pane_in};
ghost use Rattle.rank_program.specs.Rooms.{HasKernelRoom, HasRoomOf};
ghost use Rattle.rank_program.specs.Sound.{setup_in, layout_in, tables_in, HasStep};
ghost use Rattle.rank_machine.specs.Shown.{IsShowing, StepDone};

use crate::machine::Machine;
use crate::windows::{Begun, Windows};
use kernel_model::types::KernelFault;
use rank_program::{KernelRoom, Room, Runnable, original_at, owns_at, push_element};

/// Copies the values of all constants.
pub fn read_constants(machine: &Machine, program: &Runnable<'_>, values: &mut Vec<i32>)
    requires count { length values.old.items ≡ length (tables_in program.now).constants }
    requires shows { IsShowing program.now machine.now }
    ensures values { values.new.items ≡ values_at machine.now.variables (tables_in program.now).constants }
    ensures count { length values.new.items ≡ length (tables_in program.now).constants }
{
    program.is_sound();
    machine.read(program.constants(), values);
}

// A begin on the windows of these spans and scalars.
fn begin_on(
    machine: &mut Machine,
    program: &Runnable<'_>,
    element: Begun,
    windows: &Windows<'_>,
    constants: &[i32],
    room: &mut KernelRoom,
)
    requires planned { HasStep program.now (Begin element.item element.rank element.place) }
    requires original { element.original ≡ (layout_in program.now).original element.item element.rank element.place }
    requires are { AreWindows (setup_in program.now) (layout_in program.now) (tables_in program.now)
        element.item element.rank element.place windows.now.spans.now windows.now.scalars.now }
    requires values { constants.now ≡ values_at machine.old.variables (tables_in program.now).constants }
    requires kernels { HasKernelRoom program.now.locals room.old }
    requires shows { IsShowing program.now machine.old }
    requires shut { pane_at machine.old.frames.panes element.rank element.place ≡ Shut }
    requires room { 0 < machine.old.frames.left }
    ensures shows { StepDone program.now (Begin element.item element.rank element.place) machine.old machine.new }
    ensures kernels { HasKernelRoom program.now.locals room.new }
    ensures mail { machine.new.mail.left ≡ machine.old.mail.left }
    ensures frames { machine.new.frames.left + 1 ≡ machine.old.frames.left }
{
    program.is_sound();
    rank_state::begin_shows::<KernelFault>();
    rank_state::steps_can::<KernelFault>();
    rank_state::windows_are_counted::<KernelFault>();
    machine.begin(program, constants, element, windows, room);
}

/// A begin.
pub fn begin(
    machine: &mut Machine,
    program: &Runnable<'_>,
    room: &mut Room,
    item: u32,
    rank: u32,
    place: u32,
)
    requires planned { HasStep program.now (Begin item rank place) }
    requires space { HasRoomOf program.now room.old }
    requires shows { IsShowing program.now machine.old }
    requires shut { pane_at machine.old.frames.panes rank place ≡ Shut }
    requires room { 0 < machine.old.frames.left }
    ensures shows { StepDone program.now (Begin item rank place) machine.old machine.new }
    ensures space { HasRoomOf program.now room.new }
    ensures mail { machine.new.mail.left ≡ machine.old.mail.left }
    ensures frames { machine.new.frames.left + 1 ≡ machine.old.frames.left }
{
    read_constants(machine, program, &mut room.constants);
    room.spans.clear();
    let scalars = push_element(program, item, rank, place, &mut room.spans);
    let element = Begun {
        item,
        rank,
        place,
        original: original_at(program, item, rank, place),
    };
    let windows = Windows {
        spans: &room.spans,
        scalars,
    };
    begin_on(
        machine,
        program,
        element,
        &windows,
        &room.constants,
        &mut room.kernels,
    );
}

// An end on the windows of these spans and scalars.
fn end_on(
    machine: &mut Machine,
    program: &Runnable<'_>,
    item: u32,
    rank: u32,
    place: u32,
    windows: &Windows<'_>,
)
    requires planned { HasStep program.now (End item rank place) }
    requires are { AreWindows (setup_in program.now) (layout_in program.now) (tables_in program.now)
        item rank place windows.now.spans.now windows.now.scalars.now }
    requires shows { IsShowing program.now machine.old }
    requires open { pane_in item (pane_at machine.old.frames.panes rank place) ≢ Shut_pane }
    ensures shows { StepDone program.now (End item rank place) machine.old machine.new }
    ensures mail { machine.new.mail.left ≡ machine.old.mail.left }
    ensures frames { machine.new.frames.left ≡ machine.old.frames.left + 1 }
{
    program.is_sound();
    rank_state::end_shows::<KernelFault>();
    rank_state::steps_can::<KernelFault>();
    let own = owns_at(program, item, rank, place);
    machine.end(own, rank, place, windows);
}

/// An end.
pub fn end(
    machine: &mut Machine,
    program: &Runnable<'_>,
    room: &mut Room,
    item: u32,
    rank: u32,
    place: u32,
)
    requires planned { HasStep program.now (End item rank place) }
    requires space { HasRoomOf program.now room.old }
    requires shows { IsShowing program.now machine.old }
    requires open { pane_in item (pane_at machine.old.frames.panes rank place) ≢ Shut_pane }
    ensures shows { StepDone program.now (End item rank place) machine.old machine.new }
    ensures space { HasRoomOf program.now room.new }
    ensures mail { machine.new.mail.left ≡ machine.old.mail.left }
    ensures frames { machine.new.frames.left ≡ machine.old.frames.left + 1 }
{
    room.spans.clear();
    let scalars = push_element(program, item, rank, place, &mut room.spans);
    let windows = Windows {
        spans: &room.spans,
        scalars,
    };
    end_on(machine, program, item, rank, place, &windows);
}
