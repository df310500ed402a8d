// The begins of a group in three phases: windows are gathered, kernels run on them, and frames are opened with what
// these leave.

ghost use Rattle.std.specs.Prelude.{◌≡◌, ◌<◌, ◌≤◌, ◌+◌, ℕ, pos, true, length, get_or};
ghost use Rattle.schedule_steps.specs.declared.step.Step.TheVariants.{Begin};
ghost use Rattle.schedule_model.specs.Layout.{by_place};
ghost use Rattle.rank_state.specs.Frames.{Shut, pane_at};
ghost use Rattle.rank_state.specs.Groups.{begins, Distinct, Planned, AllShut};
ghost use Rattle.rank_program.specs.Rooms.{HasRoomOf};
ghost use Rattle.rank_program.specs.Jobs.{part, task_at};
ghost use Rattle.rank_exec.specs.Tasks.{IsLoaded, IsRun, HasGroupRoom, KeepsGroupRoom};
ghost use Rattle.rank_program.specs.Sound.{setup_in, layout_in, tables_in, HasStep};
ghost use Rattle.rank_machine.specs.Shown.{IsShowing, StepDone, AllDone};

use crate::begins::{BeginAt, Begins};
use crate::group_room::GroupRoom;
use kernel_model::types::KernelFault;
use rank_machine::machine::Machine;
use rank_machine::steps::begin as begin_element;
use rank_program::{Room, Runnable, Task, original_at, push_element};

// The task of a begin, with its element's windows in the window.
fn load_one(
    machine: &Machine,
    program: &Runnable<'_>,
    room: &mut Room,
    begin: BeginAt,
    window: &mut [i32],
) -> Task
    requires planned { HasStep program.now (Begin begin.item begin.rank begin.place) }
    requires space { HasRoomOf program.now room.old }
    requires shows { IsShowing program.now machine.now }
    requires wide { (tables_in program.now).stride ≤ length window.old }
    ensures loaded { IsLoaded (setup_in program.now) (layout_in program.now) (tables_in program.now)
        begin.item begin.rank begin.place machine.now result window.new }
    ensures space { HasRoomOf program.now room.new }
{
    rank_state::steps_can::<KernelFault>();
    let element = original_at(program, begin.item, begin.rank, begin.place);
    room.spans.clear();
    let scalars = push_element(
        program,
        begin.item,
        begin.rank,
        begin.place,
        &mut room.spans,
    );
    let cells = machine.load(begin.rank, &room.spans, scalars, window);
    Task {
        element,
        place: begin.place,
        cells,
    }
}

// Adds the task of a begin to those of its group, with its element's windows in the next window of the buffer.
fn load_next(
    machine: &Machine,
    program: &Runnable<'_>,
    room: &mut Room,
    begin: BeginAt,
    buffers: &mut GroupRoom,
)
    requires planned { HasStep program.now (Begin begin.item begin.rank begin.place) }
    requires space { HasRoomOf program.now room.old }
    requires shows { IsShowing program.now machine.now }
    requires buffers { HasGroupRoom (length buffers.old.tasks.items + 1) (tables_in program.now).stride program.now.locals buffers.old }
    ensures loaded { IsLoaded (setup_in program.now) (layout_in program.now) (tables_in program.now)
        begin.item begin.rank begin.place machine.now
        (task_at buffers.new.tasks.items (length buffers.old.tasks.items))
        (part buffers.new.window (length buffers.old.tasks.items) buffers.new.staging.items) }
    ensures others { (i : ℕ) → i < length buffers.old.tasks.items
        → (task_at buffers.new.tasks.items i ≡ task_at buffers.old.tasks.items i)
        × (part buffers.new.window i buffers.new.staging.items ≡ part buffers.old.window i buffers.old.staging.items) }
    ensures count { length buffers.new.tasks.items ≡ length buffers.old.tasks.items + 1 }
    ensures space { HasRoomOf program.now room.new }
    ensures kept { KeepsGroupRoom buffers.old buffers.new }
{
    let window = buffers.window;
    let at = buffers.tasks.len() * window;
    let task = load_one(
        machine,
        program,
        room,
        begin,
        &mut buffers.staging[at..at + window],
    );
    buffers.tasks.push_reserved(task);
}

/// Puts down the tasks of a group's begins in `buffers`, with their elements' windows in the windows of the buffer.
pub fn load_all(
    machine: &Machine,
    program: &Runnable<'_>,
    room: &mut Room,
    group: &Begins<'_>,
    buffers: &mut GroupRoom,
)
    requires planned { Planned (by_place (setup_in program.now) (layout_in program.now))
        group.now.item group.now.rank group.now.places.now }
    requires space { HasRoomOf program.now room.old }
    requires shows { IsShowing program.now machine.now }
    requires buffers { HasGroupRoom (length group.now.places.now) (tables_in program.now).stride program.now.locals buffers.old }
    ensures loaded { (i : ℕ) → i < length group.now.places.now
        → IsLoaded (setup_in program.now) (layout_in program.now) (tables_in program.now)
        group.now.item group.now.rank (get_or group.now.places.now i 0) machine.now
        (task_at buffers.new.tasks.items i) (part buffers.new.window i buffers.new.staging.items) }
    ensures count { length buffers.new.tasks.items ≡ length group.now.places.now }
    ensures space { HasRoomOf program.now room.new }
    ensures kept { KeepsGroupRoom buffers.old buffers.new }
{
    buffers.tasks.clear();
    for place in group.places {
        let begin = BeginAt {
            item: group.item,
            rank: group.rank,
            place: *place,
        };
        load_next(machine, program, room, begin, buffers);
    }
}

// Whether the cell is 0.
fn is_zero(window: &[i32], cell: usize) -> bool
    requires { cell < length window.now }
    ensures { result ≡ true → get_or window.now cell (pos 0) ≡ pos 0 }
{
    let value = window[cell];
    value == 0
}

// A begin whose kernel has run on the window, on the first `cells` of its cells.
fn open_one(
    machine: &mut Machine,
    program: &Runnable<'_>,
    room: &mut Room,
    begin: BeginAt,
    cells: usize,
    window: &[i32],
)
    requires planned { HasStep program.now (Begin begin.item begin.rank begin.place) }
    requires space { HasRoomOf program.now room.old }
    requires shows { IsShowing program.now machine.old }
    requires shut { pane_at machine.old.frames.panes begin.rank begin.place ≡ Shut }
    requires room { 0 < machine.old.frames.left }
    requires cells { cells < length window.now }
    requires narrow { cells ≤ (tables_in program.now).stride }
    requires ran { IsRun (setup_in program.now) (layout_in program.now) (tables_in program.now)
        begin.item begin.rank begin.place machine.old cells window.now }
    ensures shows { StepDone program.now (Begin begin.item begin.rank begin.place) machine.old machine.new }
    ensures space { HasRoomOf program.now room.new }
    ensures mail { machine.new.mail.left ≡ machine.old.mail.left }
    ensures frames { machine.new.frames.left + 1 ≡ machine.old.frames.left }
{
    program.is_sound();
    rank_state::begin_shows::<KernelFault>();
    rank_state::steps_can::<KernelFault>();
    if is_zero(window, cells) {
        machine.open(begin.item, begin.rank, begin.place, &window[..cells]);
    } else {
        begin_element(machine, program, room, begin.item, begin.rank, begin.place);
    }
}

/// The begins of a group whose kernels have run on the windows of the buffer, in their order.
pub fn open_all(
    machine: &mut Machine,
    program: &Runnable<'_>,
    room: &mut Room,
    group: &Begins<'_>,
    buffers: &GroupRoom,
)
    requires planned { Planned (by_place (setup_in program.now) (layout_in program.now))
        group.now.item group.now.rank group.now.places.now }
    requires space { HasRoomOf program.now room.old }
    requires shows { IsShowing program.now machine.old }
    requires shut { AllShut machine.old.frames.panes group.now.rank group.now.places.now }
    requires distinct { Distinct group.now.places.now }
    requires room { length group.now.places.now ≤ machine.old.frames.left }
    requires buffers { HasGroupRoom (length group.now.places.now) (tables_in program.now).stride program.now.locals buffers.now }
    requires count { length buffers.now.tasks.items ≡ length group.now.places.now }
    requires narrow { (i : ℕ) → i < length group.now.places.now
        → (task_at buffers.now.tasks.items i).cells ≤ (tables_in program.now).stride }
    requires ran { (i : ℕ) → i < length group.now.places.now
        → IsRun (setup_in program.now) (layout_in program.now) (tables_in program.now)
        group.now.item group.now.rank (get_or group.now.places.now i 0) machine.old
        (task_at buffers.now.tasks.items i).cells (part buffers.now.window i buffers.now.staging.items) }
    ensures shows { AllDone program.now (begins group.now.item group.now.rank group.now.places.now) machine.old machine.new }
    ensures space { HasRoomOf program.now room.new }
    ensures mail { machine.new.mail.left ≡ machine.old.mail.left }
    ensures frames { machine.new.frames.left + length group.now.places.now ≡ machine.old.frames.left }
{
    rank_state::begin_opens::<KernelFault>();
    let places = group.places;
    for i in 0..places.len() {
        let at = i * buffers.window;
        let window = &buffers.staging[at..at + buffers.window];
        let begin = BeginAt {
            item: group.item,
            rank: group.rank,
            place: places[i],
        };
        open_one(
            machine,
            program,
            room,
            begin,
            buffers.tasks[i].cells,
            window,
        );
    }
}
