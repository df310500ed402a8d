// Runs of begins.

ghost use Rattle.std.specs.Prelude.{◌≡◌, ◌<◌, ◌≤◌, ◌+◌, ◌*◌, ◌++◌, ◌∷◌, ℕ, true, [], List, length, take, None, Some, vec_capacity};
ghost use Rattle.schedule_steps.specs.declared.step.Step.{Step};
ghost use Rattle.schedule_steps.specs.declared.step.Step.TheVariants.{Begin, End};
ghost use Rattle.rank_exec.specs.RunRooms.{most_begins, HasRunRoomOf};
ghost use Rattle.rank_state.specs.Groups.{begins};
ghost use Rattle.rank_program.specs.Jobs.{Accepts, RanIn, job_core, part, task_at};
ghost use Rattle.rank_exec.specs.Tasks.{HasGroupRoom, KeepsGroupRoom};
ghost use Rattle.rank_exec.specs.Driving.{to_come, behind};
ghost use Rattle.rank_exec.specs.declared.begins.Begun.TheVariants.{Group};
ghost use Rattle.rank_program.specs.Sound.{Takes, layout_in, tables_in};
ghost use Rattle.rank_machine.specs.Shown.{IsShowing};
ghost use Rattle.rank_exec.specs.Taken.{AreReady, GroupsAlone, StepsDone};

use crate::begins::{BeginAt, Begins, Begun};
use crate::group_room::GroupRoom;
use crate::group_steps::{load_all, open_all};
use crate::run_room::{MOST_BEGINS, RunRoom};
use crate::sharing::workers_for;
use crate::stream::{Steps, Told, next_of};
use crate::told::run_told;
use kernel_model::types::KernelFault;
use par_exec::{Crew, Gate, ItemGate};
use rank_machine::machine::Machine;
use rank_machine::steps::read_constants;
use rank_program::{KernelJob, Runnable, job, put_targets, run_tasks};
use schedule_steps::Step;
use std::marker::Sync;
use std::thread::Threads;

// Runs a job's kernel once for each of its tasks, on the windows at the front of the staging buffer.
fn run_in_front<R: Threads + Sync, G: Gate + Sync>(
    crew: &Crew<'_, R, G>,
    told: &ItemGate<'_, G>,
    job: &KernelJob<'_>,
    staging: &mut [i32],
    window: usize,
)
    requires wide { 0 < window }
    requires enough { length job.now.tasks.now * window ≤ length staging.old }
    requires accepts { (i : ℕ) → i < length job.now.tasks.now → Accepts job.now i window }
    ensures { (i : ℕ) → i < length job.now.tasks.now
        → RanIn (job_core job.now i (take (task_at job.now.tasks.now i).cells (part window i staging.old)))
        (task_at job.now.tasks.now i).cells (part window i staging.new) }
{
    let windows = &mut staging[..job.tasks.len() * window];
    run_tasks(crew, told, job, windows, window);
}

// Runs the kernel of the loop that is the group's item once for each task, on the first cells of the task's window.
// Behind them stands a 0 then, or a 1 where the run had a fault.
fn run_all<R: Threads + Sync, G: Gate + Sync>(
    crew: &Crew<'_, R, G>,
    program: &Runnable<'_>,
    group: &Begins<'_>,
    constants: &[i32],
    buffers: &mut GroupRoom,
)
    requires some { 0 < length group.now.places.now }
    requires count { length buffers.old.tasks.items ≡ length group.now.places.now }
    requires takes { (i : ℕ) → i < length buffers.old.tasks.items
        → Takes program.now group.now.item (task_at buffers.old.tasks.items i).element
        (length constants.now) (task_at buffers.old.tasks.items i).cells }
    requires buffers { HasGroupRoom (length buffers.old.tasks.items) (tables_in program.now).stride program.now.locals buffers.old }
    requires narrow { (i : ℕ) → i < length buffers.old.tasks.items
        → (task_at buffers.old.tasks.items i).cells ≤ (tables_in program.now).stride }
    ensures ran { (i : ℕ) → i < length buffers.old.tasks.items
        → RanIn ((layout_in program.now).core group.now.item (task_at buffers.old.tasks.items i).element constants.now
        (take (task_at buffers.old.tasks.items i).cells (part buffers.old.window i buffers.old.staging.items)))
        (task_at buffers.old.tasks.items i).cells (part buffers.new.window i buffers.new.staging.items) }
    ensures tasks { buffers.new.tasks ≡ buffers.old.tasks }
    ensures kept { KeepsGroupRoom buffers.old buffers.new }
{
    buffers.targets.clear();
    put_targets(program, group.item, &buffers.tasks, &mut buffers.targets);
    let job = job(
        program,
        group.item,
        &buffers.tasks,
        &buffers.targets,
        constants,
    );
    let crew = crew.with_workers(workers_for(&job, group.places[0], crew.workers));
    let told = ItemGate {
        gate: crew.gate,
        item: group.item,
        rank: group.rank,
    };
    crew.gate.group_begins(group.item, group.rank, group.places);
    run_in_front(&crew, &told, &job, &mut buffers.staging, buffers.window);
    crew.gate.group_ends(group.item, group.rank, group.places);
}

// The place, where the step is a begin of the item and rank.
fn begin_in(step: Option<Step>, item: u32, rank: u32) -> Option<u32>
    ensures { (x : ℕ) → result ≡ Some x → step ≡ Some (Begin item rank x) }
{
    match step {
        Some(
            Step::Begin {
                item: i,
                rank: r,
                place,
            },
        ) => {
            if i == item && r == rank {
                Some(place)
            } else {
                None
            }
        }
        _ => None,
    }
}

// Adds the places of the begins of the item and rank that come next, while a group has room for them, and answers the
// step after them.
fn collect<S: Steps>(steps: &mut S, item: u32, rank: u32, places: &mut Vec<u32>) -> Option<Step>
    requires space { most_begins ≤ vec_capacity places.old }
    requires few { length places.old.items ≤ most_begins }
    ensures all { begins item rank places.new.items ++ to_come result (S.left steps.new)
        ≡ begins item rank places.old.items ++ S.left steps.old }
    ensures over { result ≡ None → S.left steps.new ≡ [] }
    ensures more { length places.old.items ≤ length places.new.items }
    ensures few { length places.new.items ≤ most_begins }
    ensures space { vec_capacity places.new ≡ vec_capacity places.old }
{
    loop {
        let next = next_of(steps);
        if places.len() >= MOST_BEGINS {
            return next;
        }
        let Some(place) = begin_in(next, item, rank) else {
            return next;
        };
        places.push_reserved(place);
    }
}

// The step is this end.
fn is_end(step: Option<Step>, item: u32, rank: u32, place: u32) -> bool
    ensures { result ≡ true → step ≡ Some (End item rank place) }
{
    match step {
        Some(
            Step::End {
                item: i,
                rank: r,
                place: p,
            },
        ) => i == item && r == rank && p == place,
        _ => false,
    }
}

/// A begin and those of its item and rank that come next, as one group; a begin that its own end follows, in place.
///
/// A group's kernels run first, by the workers of `crew`, and its gate is told of each run just before, by the begin's
/// number in the group, from 0 on.
pub fn run_begins<R: Threads + Sync, G: Gate + Sync, S: Steps>(
    crew: &Crew<'_, R, G>,
    machine: &mut Machine,
    program: &Runnable<'_>,
    room: &mut RunRoom,
    steps: &mut S,
    begin: BeginAt,
) -> Begun
    requires space { HasRunRoomOf program.now room.old }
    requires shows { IsShowing program.now machine.old }
    requires ready { AreReady program.now (Begin begin.item begin.rank begin.place ∷ S.left steps.old) machine.old }
    requires alone { GroupsAlone program.now (Begin begin.item begin.rank begin.place ∷ S.left steps.old) }
    ensures done { (done : List Step)
        × (Begin begin.item begin.rank begin.place ∷ S.left steps.old ≡ done ++ behind result (S.left steps.new)) × (0 < length done)
        × StepsDone program.now done machine.old machine.new }
    ensures over { result ≡ Group None → S.left steps.new ≡ [] }
    ensures space { HasRunRoomOf program.now room.new }
{
    program.is_sound();
    rank_state::windows_are_counted::<KernelFault>();
    let BeginAt { item, rank, place } = begin;
    room.places.clear();
    room.places.push_reserved(place);
    let next = collect(steps, item, rank, &mut room.places);
    if room.places.len() == 1 && is_end(next, item, rank, place) {
        let of = Told {
            item,
            rank,
            alone: true,
        };
        run_told(crew, machine, program, &mut room.step, of, &room.places);
        return Begun::InPlace;
    }
    let group = Begins {
        item,
        rank,
        places: &room.places,
    };
    load_all(machine, program, &mut room.step, &group, &mut room.group);
    read_constants(machine, program, &mut room.step.constants);
    run_all(crew, program, &group, &room.step.constants, &mut room.group);
    open_all(machine, program, &mut room.step, &group, &room.group);
    Begun::Group(next)
}
