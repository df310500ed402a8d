// Which step a turn takes.
ghost use Rattle.std.specs.Prelude.{◌≡◌, ◌≢◌, ◌<◌, ◌≤◌, ◌+◌, ◌^◌, ◌/◌, ◌++◌, ◌∷◌, [], List, true, false, cond, length, take};
ghost use Rattle.schedule_steps.specs.declared.step.Step.{Step as StepValue};
ghost use Rattle.schedule_steps.specs.Drawn.{numbers, is_early, waits, drawn_number, picked};
ghost use Rattle.step_orders.specs.Rests.{rests, sent_below, is_sent, can_go};
ghost use Rattle.step_orders.specs.TurnOf.{turn_of};

use crate::drawn::heads::{can_go, is_early};
use schedule_steps::Step;

/// What a turn takes: nothing is left, or the join that comes next, or a rank's next step.
#[derive(Clone, Copy, Debug)]
pub enum Turn {
    Over,
    Join,
    Rank { rank: u32 },
}

// Whether some rank's next step is of an item before the join.
fn is_any_early(heads: &[Option<Step>], join: u32) -> bool
    requires few { length heads.now < 2 ^ 32 }
    ensures yes { result ≡ true → (tails : List (List StepValue))
        → numbers (λ r. is_early join (rests heads.now tails r)) (length heads.now) ≢ [] }
    ensures no { result ≡ false → (tails : List (List StepValue))
        → numbers (λ r. is_early join (rests heads.now tails r)) (length heads.now) ≡ [] }
{
    for rank in 0..heads.len() as u32 {
        if is_early(heads[rank as usize], join) {
            return true;
        }
    }
    false
}

// Puts a number behind the first of these, where it is wanted; how many there are now.
fn put_if(numbers: &mut [u32], count: usize, is_wanted: bool, number: u32) -> usize
    requires { count < length numbers.old }
    ensures room { length numbers.new ≡ length numbers.old }
    ensures count { result ≡ cond is_wanted (count + 1) count }
    ensures numbers { take result numbers.new ≡ take count numbers.old ++ cond is_wanted (number ∷ []) [] }
{
    if is_wanted {
        numbers[count] = number;
        return count + 1;
    }
    count
}

// Puts at the front of `found`, increasing, the ranks whose next step is of an item before the join and needn't wait
// for a message; how many they are.
fn put_going(found: &mut [u32], heads: &[Option<Step>], join: u32, sent: &[Vec<u32>]) -> usize
    requires few { length heads.now < 2 ^ 32 }
    requires room { length heads.now ≤ length found.old }
    ensures room { length found.new ≡ length found.old }
    ensures count { result ≤ length found.new }
    ensures found { (tails : List (List StepValue)) → take result found.new
        ≡ numbers (λ r. can_go (is_sent (sent_below sent.now)) join (rests heads.now tails r)) (length heads.now) }
{
    let mut count = 0;
    for rank in 0..heads.len() as u32 {
        count = put_if(found, count, can_go(heads[rank as usize], join, sent), rank);
    }
    count
}

/// The next number of the linear congruence.
pub fn drawn_number(number: u64) -> u64
    ensures { result ≡ drawn_number number }
{
    number
        .wrapping_mul(6364136223846793005)
        .wrapping_add(1442695040888963407)
}

// By a number, one of the ranks to pick from; rank 0 where there is none.
fn picked(number: u64, ranks: &[u32]) -> u32
    ensures { result ≡ picked number ranks.now }
{
    if ranks.is_empty() {
        return 0;
    }
    ranks[((number >> 33) % ranks.len() as u64) as usize]
}

/// What the next turn takes, where these are the ranks' next steps, `join` is the next join or the number of items, and
/// `number` the number that is drawn next. `found` is scratch room for a number for each rank: what stands in it is not
/// read, and it is written over. Takes no memory.
pub fn next_turn(
    found: &mut [u32],
    heads: &[Option<Step>],
    sent: &[Vec<u32>],
    items: u32,
    join: u32,
    number: u64,
) -> Turn
    requires few { length heads.now < 2 ^ 32 }
    requires room { length heads.now ≤ length found.old }
    ensures room { length found.new ≡ length found.old }
    ensures turn { (tails : List (List StepValue))
        → result ≡ turn_of (rests heads.now tails) (is_sent (sent_below sent.now)) number join items (length heads.now) }
{
    if !is_any_early(heads, join) {
        return if join < items { Turn::Join } else { Turn::Over };
    }
    let count = put_going(found, heads, join, sent);
    Turn::Rank {
        rank: picked(number, &found[..count]),
    }
}
