// The most frequent rank.
ghost use Rattle.std.specs.Prelude.{◌≡◌, ℕ, ◌<◌, ◌≤◌, nat_eq, count_by, length, slice_index};
ghost use Rattle.partition.specs.Block.{InBlock};
ghost use Rattle.partition.specs.Elected.{IsElected};

use crate::blocks::block_owner;

// Of the ranks that stand in a list the one with the most votes; of several the lowest.
fn elect(votes: &[u64], list: &[u32]) -> u32
    requires some { 0 < length list.now }
    requires below { (k : ℕ) → k < length list.now → slice_index list.now k < length votes.now }
    ensures stands { (k : ℕ) × (k < length list.now) × (slice_index list.now k ≡ result) }
    ensures most { (k : ℕ) → k < length list.now → slice_index votes.now (slice_index list.now k) ≤ slice_index votes.now result }
    ensures lowest { (k : ℕ) → k < length list.now
        → slice_index votes.now (slice_index list.now k) ≡ slice_index votes.now result → result ≤ slice_index list.now k }
{
    let mut best = list[0];
    for rank in list {
        let (found, most) = (votes[*rank as usize], votes[best as usize]);
        if most < found || (most == found && *rank < best) {
            best = *rank;
        }
    }
    best
}

// Counts how often each rank stands in a list, where none has a vote before.
fn count_ranks(votes: &mut [u64], list: &[u32])
    requires none { (r : ℕ) → slice_index votes.old r ≡ 0 }
    requires below { (k : ℕ) → k < length list.now → slice_index list.now k < length votes.old }
    ensures length { length votes.new ≡ length votes.old }
    ensures count { (r : ℕ) → r < length votes.old → slice_index votes.new r ≡ count_by (λ x. nat_eq x r) list.now }
{
    for rank in list {
        votes[*rank as usize] += 1;
    }
}

// Takes away the votes of a list.
fn clear_ranks(votes: &mut [u64], list: &[u32])
    requires below { (k : ℕ) → k < length list.now → slice_index list.now k < length votes.old }
    requires count { (r : ℕ) → r < length votes.old → slice_index votes.old r ≡ count_by (λ x. nat_eq x r) list.now }
    ensures length { length votes.new ≡ length votes.old }
    ensures none { (r : ℕ) → slice_index votes.new r ≡ 0 }
{
    for rank in list {
        votes[*rank as usize] = 0;
    }
}

/// The rank most frequent in a list of numbers below `ranks`; of several the lowest. `votes` has a 0 for each rank,
/// before and after. It takes time linear in the list.
pub fn most_frequent(votes: &mut [u64], list: &[u32], ranks: u32) -> u32
    requires some { 0 < ranks }
    requires room { ranks ≤ length votes.old }
    requires none { (r : ℕ) → slice_index votes.old r ≡ 0 }
    requires below { (k : ℕ) → k < length list.now → slice_index list.now k < ranks }
    ensures elected { IsElected ranks (λ r. count_by (λ x. nat_eq x r) list.now) result }
    ensures length { length votes.new ≡ length votes.old }
    ensures none { (r : ℕ) → slice_index votes.new r ≡ 0 }
{
    if list.is_empty() {
        return 0;
    }
    count_ranks(votes, list);
    let rank = elect(votes, list);
    clear_ranks(votes, list);
    rank
}

/// The rank most frequent in a list, or where it is empty the one in whose block an element lies. `votes` has a 0 for
/// each rank, before and after; there are 1 to 64 ranks, and the element is below `size`.
pub fn most_frequent_or_block(
    votes: &mut [u64],
    list: &[u32],
    size: u32,
    ranks: u32,
    element: u32,
) -> u32
    requires some { 0 < ranks }
    requires few { ranks ≤ 64 }
    requires room { ranks ≤ length votes.old }
    requires none { (r : ℕ) → slice_index votes.old r ≡ 0 }
    requires below { (k : ℕ) → k < length list.now → slice_index list.now k < ranks }
    requires element { element < size }
    ensures elected { 0 < length list.now → IsElected ranks (λ r. count_by (λ x. nat_eq x r) list.now) result }
    ensures block { length list.now ≡ 0 → InBlock size ranks result element }
    ensures within { result < ranks }
    ensures length { length votes.new ≡ length votes.old }
    ensures none { (r : ℕ) → slice_index votes.new r ≡ 0 }
{
    if list.is_empty() {
        block_owner(size, ranks, element)
    } else {
        most_frequent(votes, list, ranks)
    }
}
