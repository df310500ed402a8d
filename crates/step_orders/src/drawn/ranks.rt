// Ranks' next steps, joins, and the sends that are taken.
ghost use Rattle.std.specs.Prelude.{◌≡◌, ◌≢◌, ◌<◌, ◌≤◌, ◌+◌, ◌==◌, ◌^◌, ℕ, true, cond, [], None, IfOk, length, map, slice_index_or};
ghost use Rattle.step_orders.specs.Rests.{rests, sent_below};
ghost use Rattle.step_orders.specs.UnderWay.{IsNextJoin, sent_after, HasRoom, IsTable};

use crate::{Shape, Steps};
use op_num::OutOfMemory;
use schedule_steps::Step;
use std::alloc::Global;

/// The first join from an item on, or the number of items.
pub fn next_join<S: Shape>(shape: &S, from: u32) -> u32
    requires { from ≤ (S.outline shape.now).items }
    ensures { IsNextJoin (S.outline shape.now) from result }
{
    let mut item = from;
    while item < shape.items() && shape.is_free(item) {
        item += 1;
    }
    item
}

/// Takes a rank's next step, if it has one; the step behind it is its next.
pub fn take_step<T: Steps>(heads: &mut [Option<Step>], streams: &mut [T], rank: u32) -> Option<Step>
    requires streams { length streams.old ≡ length heads.old }
    requires rank { rank < length heads.old }
    ensures heads { length heads.new ≡ length heads.old }
    ensures streams { length streams.new ≡ length streams.old }
    ensures step { result ≡ slice_index_or heads.old rank None }
    ensures others { (r : ℕ) → r ≢ rank → slice_index_or (map T.left streams.new) r [] ≡ slice_index_or (map T.left streams.old) r [] }
    ensures rests { (r : ℕ) → rests heads.new (map T.left streams.new) r
        ≡ cond (r == rank) (slice_index_or (map T.left streams.old) r []) (rests heads.old (map T.left streams.old) r) }
{
    let step = heads[rank as usize];
    heads[rank as usize] = streams[rank as usize].next_step();
    step
}

/// Marks a send as taken; any other step changes nothing.
pub fn mark_sent(sent: &mut [Vec<u32>], step: Step)
    requires { HasRoom sent.old step }
    ensures table { (n : ℕ) → IsTable n sent.old → IsTable n sent.new }
    ensures sent { (s r : ℕ) → sent_below sent.new s r ≡ sent_after (sent_below sent.old) step s r }
{
    if let Step::Send { item, from, to } = step {
        sent[from as usize][to as usize] = item + 1;
    }
}

/// By rank, its next step, from streams of all its steps on.
pub fn first_heads<T: Steps>(
    alloc: Global,
    streams: &mut [T],
) -> Result<Vec<Option<Step>>, OutOfMemory>
    requires few { length streams.old < 2 ^ 32 }
    ensures streams { length streams.new ≡ length streams.old }
    ensures heads { IfOk result (λ v. length v.items ≡ length streams.old) }
    ensures rests { IfOk result (λ v. (r : ℕ) → r < length streams.old
        → rests v.items (map T.left streams.new) r ≡ slice_index_or (map T.left streams.old) r []) }
{
    let mut heads = vec![in alloc; None; streams.len()]?;
    for rank in 0..streams.len() as u32 {
        take_step(&mut heads, streams, rank);
    }
    Ok(heads)
}

/// By sender and receiver, that no message is sent.
pub fn nothing_sent(alloc: Global, ranks: u32) -> Result<Vec<Vec<u32>>, OutOfMemory>
    ensures table { IfOk result (λ v. IsTable ranks v.items) }
    ensures sent { IfOk result (λ v. (s r : ℕ) → sent_below v.items s r ≡ 0) }
{
    let mut rows = Vec::new(alloc);
    for _row in 0..ranks {
        rows.push(vec![in alloc; 0; ranks as usize]?)?;
    }
    Ok(rows)
}
