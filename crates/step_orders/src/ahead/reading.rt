// Steps that are read from a stream and held.

ghost use Rattle.std.specs.Prelude.{◌≡◌, ◌<◌, ◌+◌, ◌++◌, true, length, vec_capacity};

use crate::Steps;
use schedule_steps::Step;

// Reads a step, where there is one and room for it. Whether one was read.
fn read<S: Steps>(steps: &mut S, held: &mut Vec<Step>) -> bool
    ensures all { held.new.items ++ S.left steps.new ≡ held.old.items ++ S.left steps.old }
    ensures more { result ≡ true → length held.new.items ≡ length held.old.items + 1 }
    ensures fewer { result ≡ true → length (S.left steps.new) < length (S.left steps.old) }
    ensures room { vec_capacity held.new ≡ vec_capacity held.old }
{
    if held.len() >= held.capacity() {
        return false;
    }
    let Some(step) = steps.next_step() else {
        return false;
    };
    held.push_reserved(step);
    true
}

// The step is a begin of the item and rank.
fn begins_in(step: Step, item: u32, rank: u32) -> bool {
    match step {
        Step::Begin {
            item: i,
            rank: r,
            ..
        } => i == item && r == rank,
        _ => false,
    }
}

// Reads on while begins of the item and rank come. How many steps are held before the first other step, or in all.
fn read_begins<S: Steps>(steps: &mut S, held: &mut Vec<Step>, item: u32, rank: u32) -> usize
    ensures all { held.new.items ++ S.left steps.new ≡ held.old.items ++ S.left steps.old }
    ensures room { vec_capacity held.new ≡ vec_capacity held.old }
{
    let mut begun = held.len();
    while read(steps, held) {
        if !begins_in(held[begun], item, rank) {
            return begun;
        }
        begun += 1;
    }
    begun
}

// Reads on until so many steps are held.
fn read_up_to<S: Steps>(steps: &mut S, held: &mut Vec<Step>, count: usize)
    ensures all { held.new.items ++ S.left steps.new ≡ held.old.items ++ S.left steps.old }
    ensures room { vec_capacity held.new ≡ vec_capacity held.old }
{
    while held.len() < count {
        if !read(steps, held) {
            return;
        }
    }
}

/// Reads a step, and where it is a begin, those of its item and rank that follow and as many steps behind them, as far
/// as there is room for them.
pub fn read_group<S: Steps>(steps: &mut S, held: &mut Vec<Step>)
    ensures all { held.new.items ++ S.left steps.new ≡ held.old.items ++ S.left steps.old }
    ensures room { vec_capacity held.new ≡ vec_capacity held.old }
{
    if !read(steps, held) {
        return;
    }
    let Some(Step::Begin { item, rank, .. }) = held.last().copied() else {
        return;
    };
    let begun = read_begins(steps, held, item, rank);
    read_up_to(steps, held, begun.saturating_mul(2));
}
