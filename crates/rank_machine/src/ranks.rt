// The elements of an item on all ranks at once.

ghost use Rattle.std.specs.Prelude.{◌≡◌, ◌+◌, ◌<◌, ◌^◌, map, length};
ghost use denote.Param.Send.{IsSync};
ghost use Rattle.schedule_model.specs.Machine.{is_less_element};
ghost use Rattle.par_exec.specs.Parts.{TakesEach, MadeEach};
ghost use Rattle.rank_state.specs.Stops.{stop_in};
ghost use Rattle.rank_program.specs.FromNone.{kept_both};
ghost use Rattle.rank_machine.specs.OnRanks.{CanRunOn, RanOn, share_in, lent, kept_of_all, RanLent};

use kernel_runs::worker_batches::Workers;
use par_exec::{Crew, Gate, ItemGate};
use rank_program::{RankElements, Room, Runnable, run_places};
use rank_state::rank_memory::stop::Stop;
use std::marker::Sync;
use std::mem::swap;
use std::thread::{Threads, join_mut};

/// What elements are lent of their rank: its cells and partials, where they note their fault, and room for a step with
/// the values of all constants.
#[derive(Drop)]
pub struct RankPart {
    pub memory: Vec<i32>,
    pub partials: Vec<i32>,
    pub fault: Option<Stop>,
    pub room: Room,
}

/// The elements of an item, by places for each rank, with the values of all variables.
#[derive(Drop)]
pub struct Round<'a, 'b> {
    pub program: &'a Runnable<'b>,
    pub lists: &'a [Vec<u32>],
    pub item: u32,
    pub variables: &'a [i32],
}

// Runs the kernel of a round's item for the elements at a rank's places, in place on what they are lent, by so many
// workers that the rank has to itself. The gate is told of the rank before.
fn run_rank<R: Threads + Sync, G: Gate + Sync>(
    threads: &R,
    workers: u32,
    gate: &G,
    round: &Round<'_, '_>,
    rank: usize,
    part: &mut RankPart,
)
    requires can { CanRunOn round.now.program.now round.now.item round.now.variables.now round.now.lists.now rank part.old }
    ensures { RanOn round.now.program.now round.now.item round.now.variables.now round.now.lists.now rank part.old part.new }
{
    gate.enter(rank);
    let places = round.lists[rank].as_slice();
    if places.is_empty() {
        part.fault = None;
        return;
    }
    let told = ItemGate {
        gate,
        item: round.item,
        rank: rank as u32,
    };
    let workers = Workers {
        threads,
        count: workers,
        told: &told,
    };
    let elements = RankElements {
        program: round.program,
        item: round.item,
        rank: rank as u32,
        places,
        variables: round.variables,
    };
    part.fault = run_places(
        &workers,
        &elements,
        &mut part.memory,
        &mut part.partials,
        None,
        &mut part.room,
    );
}

// Runs the round on the ranks from `first` on, which have these parts: with more than one worker and more than one
// rank, on halves of them by fork and join, the workers shared out between these.
#[cycle(ranks)]
fn run_from<R: Threads + Sync, G: Gate + Sync>(
    threads: &R,
    workers: u32,
    gate: &G,
    round: &Round<'_, '_>,
    first: usize,
    parts: &mut [RankPart],
)
    requires workers { 0 < workers }
    requires room { first + length parts.old < 2 ^ 64 }
    requires can { TakesEach (CanRunOn round.now.program.now round.now.item round.now.variables.now round.now.lists.now)
        first parts.old }
    ensures { MadeEach (RanOn round.now.program.now round.now.item round.now.variables.now round.now.lists.now)
        first parts.old parts.new }
{
    let count = parts.len();
    if count == 0 {
        return;
    }
    if count == 1 {
        run_rank(threads, workers, gate, round, first, &mut parts[0]);
        return;
    }
    let low = count / 2;
    let next = first + low;
    let (front, back) = parts.split_at_mut(low);
    if workers == 1 {
        run_from(threads, 1, gate, round, first, front);
        run_from(threads, 1, gate, round, next, back);
        return;
    }
    let theirs = workers / 2;
    let ours = workers - theirs;
    join_mut(
        threads,
        &mut ||
            requires { IsSync R.row × IsSync G.row × (0 < theirs) × (first + length front.now < 2 ^ 64)
                × TakesEach (CanRunOn round.now.program.now round.now.item round.now.variables.now round.now.lists.now)
                first front.now }
            ensures { MadeEach (RanOn round.entry.now.program.now round.entry.now.item round.entry.now.variables.now
                round.entry.now.lists.now) first front.entry.now front.exit.now }
        { run_from(threads, theirs, gate, round, first, front) },
        &mut ||
            requires { IsSync R.row × IsSync G.row × (0 < ours) × (next + length back.now < 2 ^ 64)
                × TakesEach (CanRunOn round.now.program.now round.now.item round.now.variables.now round.now.lists.now)
                next back.now }
            ensures { MadeEach (RanOn round.entry.now.program.now round.entry.now.item round.entry.now.variables.now
                round.entry.now.lists.now) next back.entry.now back.exit.now }
        { run_from(threads, ours, gate, round, next, back) },
    );
}

// Gives each part the memory and the partials of its rank, and the rank what the part had.
fn swap_all(memories: &mut [Vec<i32>], partials: &mut [Vec<i32>], parts: &mut [RankPart])
    requires memories { length memories.old ≡ length parts.old }
    requires partials { length partials.old ≡ length parts.old }
    ensures memories { memories.new ≡ map (λ x. x.memory) parts.old }
    ensures partials { partials.new ≡ map (λ x. x.partials) parts.old }
    ensures parts { parts.new ≡ lent memories.old partials.old parts.old }
{
    let mut rank = 0;
    while rank < parts.len() {
        let part = &mut parts[rank];
        swap(&mut memories[rank], &mut part.memory);
        swap(&mut partials[rank], &mut part.partials);
        rank += 1;
    }
}

// The first element is before the second.
fn is_before(element: Option<u32>, other: Option<u32>) -> bool
    ensures { result ≡ is_less_element element other }
{
    match (element, other) {
        (Some(a), Some(b)) => a < b,
        _ => false,
    }
}

// The fault that is kept of one and of a later one: the lesser, and the first of equals.
fn kept(before: Option<Stop>, later: Option<Stop>) -> Option<Stop>
    ensures { stop_in result ≡ kept_both (stop_in before) (stop_in later) }
{
    let Some(new) = later else {
        return before;
    };
    let Some(old) = before else {
        return later;
    };
    if new.item < old.item || (new.item == old.item && is_before(new.element, old.element)) {
        later
    } else {
        before
    }
}

// The fault that is kept of one and of those of all parts, by increasing rank.
fn kept_of_parts(fault: Option<Stop>, parts: &[RankPart]) -> Option<Stop>
    ensures { stop_in result ≡ kept_of_all (stop_in fault) (map share_in parts.now) }
{
    let mut least = fault;
    let mut rank = 0;
    while rank < parts.len() {
        least = kept(least, parts[rank].fault);
        rank += 1;
    }
    least
}

/// Runs the kernel of a round's item for the elements at each rank's places, one after another, in place on the rank's
/// memory and partials, from no fault on; answers the fault to keep of `fault` and of theirs, put together by
/// increasing rank. The ranks are shared out among the workers of `crew`, and its gate is told of each rank just
/// before. What is said of each rank holds for every crew. There is a part for each rank. Takes no memory.
pub fn run_lent<R: Threads + Sync, G: Gate + Sync>(
    crew: &Crew<'_, R, G>,
    round: &Round<'_, '_>,
    memories: &mut [Vec<i32>],
    partials: &mut [Vec<i32>],
    fault: Option<Stop>,
    parts: &mut [RankPart],
) -> Option<Stop>
    requires memories { length memories.old ≡ length parts.old }
    requires partials { length partials.old ≡ length parts.old }
    requires can { TakesEach (CanRunOn round.now.program.now round.now.item round.now.variables.now round.now.lists.now) 0
        (lent memories.old partials.old parts.old) }
    ensures { RanLent round.now.program.now round.now.item round.now.variables.now round.now.lists.now
        memories.old partials.old parts.old (stop_in fault)
        memories.new partials.new parts.new (stop_in result) }
{
    swap_all(memories, partials, parts);
    run_from(crew.threads, crew.workers, crew.gate, round, 0, parts);
    let kept = kept_of_parts(fault, parts);
    swap_all(memories, partials, parts);
    kept
}
