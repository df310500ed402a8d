// Sends and receives, on a machine whose lists show a state of the machine on flat buffers.

ghost use Rattle.std.specs.Prelude.{◌≡◌, ◌<◌, ◌≤◌, ◌+◌, List, length};
ghost use Rattle.schedule_steps.specs.declared.step.Step.TheVariants.{Send, Recv};
ghost use Rattle.rank_state.specs.declared.spans.Span.{Span};
ghost use Rattle.rank_state.specs.Spans.{total};
ghost use Rattle.rank_state.specs.Mail.{Carries};
ghost use Rattle.rank_state.specs.Shows.{AreExports, AreImports};
ghost use Rattle.rank_program.specs.Rooms.{HasRoomOf};
ghost use Rattle.rank_program.specs.Sound.{setup_in, layout_in, tables_in, HasStep};
ghost use Rattle.rank_machine.specs.Shown.{IsShowing, StepDone};

use crate::machine::Machine;
use kernel_model::types::KernelFault;
use rank_program::{Room, Runnable, push_received, push_sent};
use rank_state::Span;

// A send of the cells of these spans.
fn send_on(
    machine: &mut Machine,
    program: &Runnable<'_>,
    item: u32,
    from: u32,
    to: u32,
    spans: &[Span],
)
    requires planned { HasStep program.now (Send item from to) }
    requires are { AreExports (setup_in program.now) (layout_in program.now) (tables_in program.now) item from to from spans.now }
    requires some { 0 < total spans.now }
    requires shows { IsShowing program.now machine.old }
    requires room { length ((layout_in program.now).exports item from to) ≤ machine.old.mail.left }
    ensures shows { StepDone program.now (Send item from to) machine.old machine.new }
    ensures mail { machine.new.mail.left + length ((layout_in program.now).exports item from to) ≡ machine.old.mail.left }
    ensures frames { machine.new.frames.left ≡ machine.old.frames.left }
{
    program.is_sound();
    rank_state::send_shows::<KernelFault>();
    rank_state::steps_can::<KernelFault>();
    machine.send(item, from, to, spans);
}

/// A send.
pub fn send(
    machine: &mut Machine,
    program: &Runnable<'_>,
    room: &mut Room,
    item: u32,
    from: u32,
    to: u32,
)
    requires planned { HasStep program.now (Send item from to) }
    requires space { HasRoomOf program.now room.old }
    requires shows { IsShowing program.now machine.old }
    requires room { length ((layout_in program.now).exports item from to) ≤ machine.old.mail.left }
    ensures shows { StepDone program.now (Send item from to) machine.old machine.new }
    ensures space { HasRoomOf program.now room.new }
    ensures mail { machine.new.mail.left + length ((layout_in program.now).exports item from to) ≡ machine.old.mail.left }
    ensures frames { machine.new.frames.left ≡ machine.old.frames.left }
{
    room.spans.clear();
    push_sent(program, item, from, to, &mut room.spans);
    send_on(machine, program, item, from, to, &room.spans);
}

// A receive into the cells of these spans.
fn recv_on(
    machine: &mut Machine,
    program: &Runnable<'_>,
    item: u32,
    rank: u32,
    from: u32,
    spans: &[Span],
)
    requires planned { HasStep program.now (Recv item rank from) }
    requires are { AreImports (setup_in program.now) (layout_in program.now) (tables_in program.now) item from rank spans.now }
    requires shows { IsShowing program.now machine.old }
    requires oldest { Carries item from rank (total spans.now) machine.old.mail }
    ensures shows { StepDone program.now (Recv item rank from) machine.old machine.new }
    ensures mail { machine.new.mail.left ≡ machine.old.mail.left + length ((layout_in program.now).exports item from rank) }
    ensures frames { machine.new.frames.left ≡ machine.old.frames.left }
{
    program.is_sound();
    rank_state::recv_shows::<KernelFault>();
    rank_state::steps_can::<KernelFault>();
    machine.recv(item, rank, from, spans);
}

/// A receive.
pub fn recv(
    machine: &mut Machine,
    program: &Runnable<'_>,
    room: &mut Room,
    item: u32,
    rank: u32,
    from: u32,
)
    requires planned { HasStep program.now (Recv item rank from) }
    requires space { HasRoomOf program.now room.old }
    requires shows { IsShowing program.now machine.old }
    requires oldest { (spans : List Span)
        → AreImports (setup_in program.now) (layout_in program.now) (tables_in program.now) item from rank spans
        → Carries item from rank (total spans) machine.old.mail }
    ensures shows { StepDone program.now (Recv item rank from) machine.old machine.new }
    ensures space { HasRoomOf program.now room.new }
    ensures mail { machine.new.mail.left ≡ machine.old.mail.left + length ((layout_in program.now).exports item from rank) }
    ensures frames { machine.new.frames.left ≡ machine.old.frames.left }
{
    room.spans.clear();
    push_received(program, item, rank, from, &mut room.spans);
    recv_on(machine, program, item, rank, from, &room.spans);
}
