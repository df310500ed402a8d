// The messages of items, by rank.
ghost use Rattle.std.specs.Prelude.{◌≡◌, ◌<◌, ℕ, IfOk, All, length};
ghost use Rattle.lemmas.specs.Below.{row};
ghost use Rattle.loop_plan.specs.declared.types.Pair.{Pair as PairValue};
ghost use Rattle.loop_plan.specs.ItemPlans.{plan_in};
ghost use Rattle.schedule_check.specs.Messages.{receivers_in, senders_in, receiver_lists, sender_lists, HasMessages};

use local_mesh::rank_sets::empty_lists;
use loop_plan::{ItemPlan, Pair};
use op_num::OutOfMemory;
use std::alloc::Global;

/// The messages of an item: by rank the ranks that it sends to, and by rank those that it receives from, both
/// increasing. An item without messages has no lists.
#[derive(Debug, Drop)]
pub struct Messages {
    receivers: Vec<Vec<u32>>,
    senders: Vec<Vec<u32>>,
}

// By sender, the receivers.
fn receivers(alloc: Global, ranks: u32, pairs: &[Pair]) -> Result<Vec<Vec<u32>>, OutOfMemory>
    requires { All (λ (q : PairValue). q.from < ranks) pairs.now }
    ensures { IfOk result (λ v. (s : ℕ) → s < ranks → row v.items s ≡ receivers_in pairs.now s) }
{
    let mut lists = empty_lists(alloc, ranks)?;
    for pair in pairs {
        lists[pair.from as usize].push(pair.to)?;
    }
    Ok(lists)
}

// By receiver, the senders.
fn senders(alloc: Global, ranks: u32, pairs: &[Pair]) -> Result<Vec<Vec<u32>>, OutOfMemory>
    requires { All (λ (q : PairValue). q.to < ranks) pairs.now }
    ensures { IfOk result (λ v. (r : ℕ) → r < ranks → row v.items r ≡ senders_in pairs.now r) }
{
    let mut lists = empty_lists(alloc, ranks)?;
    for pair in pairs {
        lists[pair.to as usize].push(pair.from)?;
    }
    Ok(lists)
}

// The messages of these pairs.
fn messages_of(alloc: Global, ranks: u32, pairs: &[Pair]) -> Result<Messages, OutOfMemory>
    requires { All (λ (q : PairValue). (q.from < ranks) × (q.to < ranks)) pairs.now }
    ensures { IfOk result (λ v. HasMessages pairs.now ranks v.receivers.items v.senders.items) }
{
    if pairs.is_empty() {
        return Ok(Messages {
            receivers: Vec::new(alloc),
            senders: Vec::new(alloc),
        });
    }
    let receivers = receivers(alloc, ranks, pairs)?;
    let senders = senders(alloc, ranks, pairs)?;
    Ok(Messages { receivers, senders })
}

/// By item, its messages. An error is want of memory.
pub fn item_messages(
    alloc: Global,
    ranks: u32,
    items: &[ItemPlan],
) -> Result<Vec<Messages>, OutOfMemory>
    requires { (k : ℕ) → k < length items.now
        → All (λ (q : PairValue). (q.from < ranks) × (q.to < ranks)) (plan_in items.now k).pairs }
    ensures count { IfOk result (λ v. length v.items ≡ length items.now) }
    ensures messages { IfOk result (λ v. (k : ℕ) → k < length items.now
        → HasMessages (plan_in items.now k).pairs ranks (receiver_lists v.items k) (sender_lists v.items k)) }
{
    let mut messages = Vec::new(alloc);
    for item in 0..items.len() {
        messages.push(messages_of(alloc, ranks, &items[item].pairs)?)?;
    }
    Ok(messages)
}

// A list of lists' list, or an empty one.
fn list_at(lists: &[Vec<u32>], rank: u32) -> &[u32]
    ensures { result.now ≡ row lists.now rank }
{
    if rank as usize >= lists.len() {
        return &[];
    }
    &lists[rank as usize]
}

/// The ranks that a rank sends to in an item.
pub fn receivers_at(items: &[Messages], item: u32, from: u32) -> &[u32]
    requires { item < length items.now }
    ensures { result.now ≡ row (receiver_lists items.now item) from }
{
    list_at(&items[item as usize].receivers, from)
}

/// The ranks that a rank receives from in an item.
pub fn senders_at(items: &[Messages], item: u32, rank: u32) -> &[u32]
    requires { item < length items.now }
    ensures { result.now ≡ row (sender_lists items.now item) rank }
{
    list_at(&items[item as usize].senders, rank)
}
