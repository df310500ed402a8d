// Runs of kernels on a rank's own cells, with the cells of a loop's variables behind them.

ghost use Rattle.std.specs.Prelude.{◌≡◌, ◌<◌, ◌≤◌, ◌+◌, ◌-◌, ◌^◌, ◌==◌, All, length, map, take};
ghost use Rattle.rank_state.specs.Windows.{Merges};
ghost use Rattle.rank_state.specs.Machine.{noted};
ghost use Rattle.rank_state.specs.Stops.{stop_in};
ghost use Rattle.rank_program.specs.Rooms.{HasKernelRoom, most_ways};
ghost use Rattle.rank_program.specs.AloneRuns.{Reaches, RunsAt};
ghost use Rattle.rank_program.specs.Batches.{BeginsAt, GoesOn};
ghost use Rattle.rank_program.specs.Here.{moved, merged_after};
ghost use Rattle.rank_program.specs.LocalLoops.{IsLocalLoop, VariablesStand};
ghost use Rattle.rank_program.specs.LocalRuns.{AllBeginHere, HasLoopRoom, IsLent, StaysLent, share_in};
ghost use Rattle.rank_program.specs.Sound.{setup_in, layout_in, tables_in};

use crate::batches::run_batches;
use crate::begun::{original_in, owns_in};
use crate::items::site_of;
use crate::local_args::put_places;
use crate::local_loops::LocalLoop;
use crate::room::{KernelRoom, MOST_WAYS, open_places};
use crate::share::RankShare;
use kernel_model::types::KernelFault;
use kernel_model::types::views::Place;
use kernel_runs::in_place::KernelInPlace;
use kernel_runs::worker_batches::Workers;
use par_exec::{Gate, ItemGate};
use rank_layout::{element_windows_stand, put_windows, steps_stand, windows_stand};
use rank_state::rank_memory::scalars::{fill, merge_amounts};
use rank_state::rank_memory::stop::{Stop, least};
use smallvec::SmallVec;
use std::marker::Sync;
use std::thread::Threads;

// Moves windows behind so many cells, which stood behind so many others.
fn move_behind(width: usize, others: usize, windows: &mut [Place])
    requires { All (λ p. width + (p.from - others) < 2 ^ 64) windows.old }
    ensures { windows.new ≡ map (moved width others) windows.old }
{
    for i in 0..windows.len() {
        let window = windows[i];
        windows[i] = Place {
            from: width + window.from.saturating_sub(others),
            count: window.count,
        };
    }
}

// Puts down where the cells of the loop's arguments on variables stand behind the rank's: as in the frame of the
// element at a place, whose windows end with those of the loop's scalars. What is put down of arguments on dats means
// nothing.
fn put_behind(local: &LocalLoop<'_>, place: u32, places: &mut SmallVec<Place, MOST_WAYS>)
    requires is { IsLocalLoop local.now }
    requires step { BeginsAt local.now place }
    requires fits { local.now.part.now.cells + length local.now.scalars.now < 2 ^ 64 }
    requires room { most_ways ≤ places.old.capacity }
    ensures stand { VariablesStand local.now places.new.items }
    ensures room { places.new.capacity ≡ places.old.capacity }
{
    steps_stand();
    element_windows_stand();
    bound_plan::frames_are_reached();
    let bound = local.program.bound;
    let site = site_of(bound, local.item);
    let element = original_in(local.program, local.item, local.rank, place);
    open_places(site.args.len(), places);
    let windows = places.as_mut_slice();
    let end = put_windows(bound, &site.args, element, windows);
    move_behind(local.part.cells, end - local.scalars.len(), windows);
}

// Notes the fault of the element at a place, whose original number is looked up only for a fault.
fn note(local: &LocalLoop<'_>, place: u32, fault: Option<KernelFault>, kept: &mut Option<Stop>)
    requires is { IsLocalLoop local.now }
    requires step { BeginsAt local.now place }
    ensures { stop_in kept.new
        ≡ noted local.now.item ((layout_in local.now.program.now).original local.now.item local.now.rank place) fault (stop_in kept.old) }
{
    if fault.is_some() {
        let element = original_in(local.program, local.item, local.rank, place);
        *kept = least(*kept, local.item, element, fault);
    }
}

// Merges the amounts that the element at a place left in the windows of the loop's scalars into the partials, where the
// rank owns it and it has no fault.
fn merge_owned(
    local: &LocalLoop<'_>,
    place: u32,
    fault: Option<KernelFault>,
    windows: &[i32],
    partials: &mut [i32],
)
    requires is { IsLocalLoop local.now }
    requires step { BeginsAt local.now place }
    requires slots { Merges (length partials.old) local.now.scalars.now }
    requires room { length local.now.scalars.now ≤ length windows.now }
    ensures { partials.new
        ≡ merged_after fault
        ((setup_in local.now.program.now).owner ((setup_in local.now.program.now).program.set local.now.item)
        ((layout_in local.now.program.now).original local.now.item local.now.rank place)
        == local.now.rank)
        local.now.scalars.now windows.now partials.old }
{
    if local.scalars.is_empty() || fault.is_some() {
        return;
    }
    if owns_in(local.program, local.item, local.rank, place) {
        merge_amounts(partials, local.scalars, windows);
    }
}

// Runs the kernel for the element at a place on `memory`: the cells of the rank's buffer, and behind them one for each
// of the loop's scalars, whatever it holds. The room has places of the arguments, as `put_behind` or an earlier element
// left them.
fn run_element(
    local: &LocalLoop<'_>,
    place: u32,
    memory: &mut [i32],
    partials: &mut [i32],
    kept: &mut Option<Stop>,
    room: &mut KernelRoom,
)
    requires is { IsLocalLoop local.now }
    requires step { BeginsAt local.now place }
    requires memory { length memory.old ≡ local.now.part.now.cells + length local.now.scalars.now }
    requires partials { length partials.old ≡ (tables_in local.now.program.now).slots }
    requires room { HasLoopRoom local.now room.old }
    ensures runs { RunsAt (setup_in local.now.program.now) (layout_in local.now.program.now) (tables_in local.now.program.now)
        local.now.item local.now.rank local.now.constants.now local.now.variables.now place
        (record { cells = take local.now.part.now.cells memory.old; partials = partials.old; fault = stop_in kept.old })
        (record { cells = take local.now.part.now.cells memory.new; partials = partials.new; fault = stop_in kept.new }) }
    ensures room { HasLoopRoom local.now room.new }
{
    steps_stand();
    windows_stand();
    element_windows_stand();
    bound_plan::frames_are_reached();
    kernel_model::fault_order::unchanged_after_faults();
    let width = local.part.cells;
    let cells = room.places.as_mut_slice();
    put_places(local.args, place, cells);
    fill(local.variables, local.scalars, width, memory);
    let kernel = KernelInPlace {
        code: local.code,
        marks: local.marks,
        clean: local.clean,
        constants: local.constants,
    };
    let fault = kernel_runs::in_place::run_here(
        &kernel,
        memory,
        cells,
        &mut room.saved,
        &mut room.locals,
    );
    note(local, place, fault, kept);
    let windows = &memory[width..];
    merge_owned(local, place, fault, windows, partials);
}

/// Runs the kernel of a loop on a rank for its elements at the places from one on and before another, one after
/// another, on the rank's own cells, and tells of each. The room has places of the arguments, as `put_behind` or an
/// earlier element left them. An element that faults leaves the buffer and the partials as they were. Takes no memory.
pub fn run_alone<G: Gate>(
    told: &ItemGate<'_, G>,
    local: &LocalLoop<'_>,
    from: usize,
    to: usize,
    share: &mut RankShare<'_>,
    room: &mut KernelRoom,
)
    requires is { IsLocalLoop local.now }
    requires order { from ≤ to }
    requires fits { to ≤ length local.now.places.now }
    requires steps { AllBeginHere local.now }
    requires lent { IsLent local.now share.old }
    requires room { HasLoopRoom local.now room.old }
    ensures runs { GoesOn local.now from to (share_in local.now share.old) (share_in local.now share.new) }
    ensures lent { StaysLent share.old share.new }
    ensures room { HasLoopRoom local.now room.new }
{
    for i in from..to {
        let place = local.places[i];
        told.begin(&local.places[i..i + 1]);
        run_element(
            local,
            place,
            share.memory,
            share.partials,
            &mut share.fault,
            room,
        );
        told.end(&local.places[i..i + 1]);
    }
}

/// Runs the kernel of a loop on a rank for its elements, as one after another, on `memory`: the cells of the rank's
/// buffer, and behind them one for each of the loop's scalars, whatever it holds. Where they run in rows, 64 of them
/// run at once, and several batches of 64 by several workers; the gate is told of them. Answers the fault to keep of
/// `fault` and of theirs; an element that faults leaves the buffer and the partials as they were. Takes no memory.
pub fn run_here<R: Threads + Sync, G: Gate + Sync>(
    workers: &Workers<'_, R, G>,
    local: &LocalLoop<'_>,
    memory: &mut [i32],
    partials: &mut [i32],
    fault: Option<Stop>,
    room: &mut KernelRoom,
) -> Option<Stop>
    requires is { IsLocalLoop local.now }
    requires some { 0 < length local.now.places.now }
    requires steps { AllBeginHere local.now }
    requires memory { length memory.old ≡ local.now.part.now.cells + length local.now.scalars.now }
    requires partials { length partials.old ≡ (tables_in local.now.program.now).slots }
    requires room { HasKernelRoom local.now.program.now.locals room.old }
    ensures reaches { Reaches (setup_in local.now.program.now) (layout_in local.now.program.now) (tables_in local.now.program.now)
        local.now.item local.now.rank local.now.constants.now local.now.variables.now local.now.places.now
        (record { cells = take local.now.part.now.cells memory.old; partials = partials.old; fault = stop_in fault })
        (length local.now.places.now)
        (record { cells = take local.now.part.now.cells memory.new; partials = partials.new; fault = stop_in result }) }
    ensures room { HasKernelRoom local.now.program.now.locals room.new }
{
    put_behind(local, local.places[0], &mut room.places);
    let mut share = RankShare {
        memory,
        partials,
        fault,
    };
    let done = run_batches(workers, local, &mut share, room);
    run_alone(
        workers.told,
        local,
        done,
        local.places.len(),
        &mut share,
        room,
    );
    share.fault
}
