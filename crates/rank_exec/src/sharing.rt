// Whether a group's kernels are worth threads.

ghost use Rattle.std.specs.Prelude.{◌<◌};

use crate::under_way::item_of;
use bound_program::Item;
use kernel_code::Part;
use rank_program::{KernelJob, Runnable, comes_in_batches};
use schedule_steps::Step;

// As many operations as threads are worth: starting them takes as long as some thousands.
const WORTH_THREADS: usize = 16384;

// As many elements as a group has that threads are tried for.
const FULL_GROUP: usize = 64;

// About how many operations a part of a kernel's code has, with those of its longer branch, and of a body as often as
// it is run.
fn operations(part: &Part) -> usize {
    match part {
        Part::Straight(ops) => ops.len(),
        Part::Both(first, second) => operations(first).saturating_add(operations(second)),
        Part::If {
            condition,
            then,
            otherwise,
            ..
        } => condition
            .len()
            .saturating_add(operations(then).max(operations(otherwise))),
        Part::For {
            first,
            past,
            body,
            ..
        } => (past.saturating_sub(*first) as usize).saturating_mul(operations(body)),
    }
}

/// How many of the `workers` run a group's kernels: all of them where these have many operations together, and for a
/// group that begins with its rank's first place, as a loop of one group does; else one.
pub fn workers_for(job: &KernelJob<'_>, place: u32, workers: u32) -> u32
    requires { 0 < workers }
    ensures { 0 < result }
{
    if place == 0 || operations(&job.code.part).saturating_mul(job.tasks.len()) >= WORTH_THREADS {
        return workers;
    }
    1
}

// About how many operations the kernel of a Free item has; 0 where the item is none.
fn operations_in(program: &Runnable<'_>, item: u32) -> usize {
    let program = program.parts();
    let Some(Item::Free { site }) = program.bound.trace.get(item as usize) else {
        return 0;
    };
    let Some(site) = program.bound.sites.get(*site as usize) else {
        return 0;
    };
    let Some(code) = program.codes.get(site.kernel as usize) else {
        return 0;
    };
    operations(&code.part)
}

// Whether the kernel of a Free item is so short that not even a full group of its elements is worth threads.
fn is_short(program: &Runnable<'_>, item: u32) -> bool {
    operations_in(program, item).saturating_mul(FULL_GROUP) < WORTH_THREADS
}

/// Whether the elements of a Free item come in rounds, where each rank's run in place: there are as many ranks as
/// `workers` at least, or their kernel is short, or it isn't and they run in batches, which several workers share out on
/// a rank.
pub fn come_in_rounds(program: &Runnable<'_>, item: u32, workers: u32) -> bool {
    workers <= program.parts().owners.ranks
        || is_short(program, item)
        || comes_in_batches(program, item)
}

/// Whether elements that come behind this step may come in rounds: those of the same item would.
pub fn may_come_in_rounds(program: &Runnable<'_>, before: Step, workers: u32) -> bool {
    match before {
        Step::Join { .. } => true,
        _ => come_in_rounds(program, item_of(before), workers),
    }
}

/// Whether closed groups that come after this step run in place, where they come in no rounds: it is the end of an
/// element, and a single worker runs all kernels.
pub fn groups_run_in_place(before: Step, workers: u32) -> bool {
    workers == 1 && matches!(before, Step::End { .. })
}

/// How many of the `workers` run a round with these places by rank: where its kernels have many operations together, all
/// of them, but no more than there are ranks where the kernel is short; else one.
pub fn workers_for_round(program: &Runnable<'_>, item: u32, lists: &[Vec<u32>], workers: u32) -> u32
    requires { 0 < workers }
    ensures { 0 < result }
{
    let mut count: usize = 0;
    for list in lists {
        count = count.saturating_add(list.len());
    }
    if operations_in(program, item).saturating_mul(count) < WORTH_THREADS {
        return 1;
    }
    if is_short(program, item) {
        return workers.min(program.parts().owners.ranks).max(1);
    }
    workers
}
