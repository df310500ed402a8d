// Elements that begin and end one after another on a rank.

ghost use Rattle.std.specs.Prelude.{◌≡◌, ◌<◌, ◌+◌, length, take, vec_capacity};
ghost use Rattle.rank_state.specs.Spare.{HasSpare};
ghost use Rattle.rank_state.specs.Stops.{stop_in};
ghost use Rattle.rank_program.specs.Rooms.{HasRoomOf};
ghost use Rattle.rank_program.specs.AloneRuns.{AllBegin, Reaches};
ghost use Rattle.rank_program.specs.Sound.{setup_in, layout_in, tables_in};

use crate::here::run_here;
use crate::local_loops::local_loop;
use crate::rank_elements::RankElements;
use crate::room::Room;
use kernel_runs::worker_batches::Workers;
use par_exec::Gate;
use rank_layout::MAX_ARGS;
use rank_state::rank_memory::stop::Stop;
use std::marker::Sync;
use std::thread::Threads;

// Puts so many cells behind those of a buffer, which has the capacity.
fn lengthen(memory: &mut Vec<i32>, count: usize)
    requires spare { HasSpare count memory.old }
    ensures front { take (length memory.old.items) memory.new.items ≡ memory.old.items }
    ensures count { length memory.new.items ≡ length memory.old.items + count }
    ensures capacity { vec_capacity memory.new ≡ vec_capacity memory.old }
{
    for _cell in 0..count {
        memory.push_reserved(0);
    }
}

/// Runs the kernel of an item's loop for elements on a rank, as one after another, on the cells of the rank's buffer
/// `memory`, by these workers. While they run, the cells of the loop's scalars stand behind these, for
/// which the buffer has capacity. Answers the fault to keep of `fault` and of theirs; an element that faults leaves the
/// buffer and the partials as they were. Takes no memory.
pub fn run_places<R: Threads + Sync, G: Gate + Sync>(
    workers: &Workers<'_, R, G>,
    elements: &RankElements<'_>,
    memory: &mut Vec<i32>,
    partials: &mut [i32],
    fault: Option<Stop>,
    room: &mut Room,
) -> Option<Stop>
    requires some { 0 < length elements.now.places.now }
    requires steps { AllBegin (setup_in elements.now.program.now) (layout_in elements.now.program.now) (tables_in elements.now.program.now)
        elements.now.item elements.now.rank elements.now.places.now }
    requires variables { length elements.now.variables.now ≡ (layout_in elements.now.program.now).variables }
    requires memory { length memory.old.items ≡ (layout_in elements.now.program.now).width elements.now.rank }
    requires partials { length partials.old ≡ (tables_in elements.now.program.now).slots }
    requires spare { HasSpare (tables_in elements.now.program.now).stride memory.old }
    requires space { HasRoomOf elements.now.program.now room.old }
    ensures runs { Reaches (setup_in elements.now.program.now) (layout_in elements.now.program.now) (tables_in elements.now.program.now)
        elements.now.item elements.now.rank room.old.constants.items elements.now.variables.now elements.now.places.now
        (record { cells = memory.old.items; partials = partials.old; fault = stop_in fault }) (length elements.now.places.now)
        (record { cells = memory.new.items; partials = partials.new; fault = stop_in result }) }
    ensures spare { HasSpare (tables_in elements.now.program.now).stride memory.new }
    ensures space { HasRoomOf elements.now.program.now room.new }
{
    let mut args = [None; MAX_ARGS];
    let local = local_loop(elements, &room.constants, &mut args);
    let width = memory.len();
    lengthen(memory, local.scalars.len());
    let kept = run_here(workers, &local, memory, partials, fault, &mut room.kernels);
    memory.truncate(width);
    kept
}
