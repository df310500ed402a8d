// What one run of a loop does.

ghost use Rattle.std.specs.Prelude.{◌≡◌, ◌<◌, ◌-◌, ℕ, IfOk, length, sum};
ghost use Rattle.loop_plan.specs.Pairs.{sets_of};
ghost use Rattle.plan_counts.specs.Counts.{largest, owned_of, imbalance_of};
ghost use Rattle.plan_counts.specs.Counts.{number_of_colours, blocks_of, block_colours_of, inner_colours_of};

use crate::sums::{product_of, sum_of, total_of};
use colouring::Colours;
use local_mesh::RankMesh;
use op_num::OutOfMemory;
use schedule_check::local_set;

/// How many elements the ranks own of a set. An error is want of memory, where 64 bits can't count them.
pub fn owned_of(ranks: &[RankMesh], set: u32) -> Result<u64, OutOfMemory>
    requires { (r : ℕ) → r < length ranks.now → set < length (sets_of ranks.now r) }
    ensures { IfOk result (λ n. n ≡ owned_of ranks.now set) }
{
    let mut total = 0u64;
    for rank in 0..ranks.len() {
        let owned = local_set(ranks, rank, set).own;
        total = sum_of(total, owned as u64)?;
    }
    Ok(total)
}

// The largest of the numbers, and 0 where there are none.
fn largest(numbers: &[u32]) -> u32
    ensures { result ≡ largest numbers.now }
{
    let mut most = 0u32;
    let mut rest = numbers;
    while let [first, more @ ..] = rest {
        most = most.max(*first);
        rest = more;
    }
    most
}

// How many colours stand in a list, which are numbered from 0 on.
fn number_of_colours(colours: &[u32]) -> u64
    ensures { result ≡ number_of_colours colours.now }
{
    let mut most = 0u64;
    let mut rest = colours;
    while let [first, more @ ..] = rest {
        most = most.max(*first as u64 + 1);
        rest = more;
    }
    most
}

/// How many times the mean of all ranks the one with most places has, in hundredths, rounded down; 100 where none has
/// any. An error is want of memory, where 64 bits can't count.
pub fn imbalance_of(places: &[u32]) -> Result<u64, OutOfMemory>
    ensures { IfOk result (λ n. n ≡ imbalance_of places.now) }
{
    let total = total_of(places)?;
    if total == 0 {
        return Ok(100);
    }
    let shares = product_of(largest(places) as u64, places.len() as u64)?;
    Ok(product_of(shares, 100)? / total)
}

/// How many places the ranks execute beyond those elements that they own. An error is want of memory, where 64 bits
/// can't count them.
pub fn repeated_of(places: &[u32], owned: u64) -> Result<u64, OutOfMemory>
    ensures { IfOk result (λ n. n ≡ sum places.now - owned) }
{
    Ok(total_of(places)?.saturating_sub(owned))
}

/// The blocks of all ranks. An error is want of memory, where 64 bits can't count them.
pub fn blocks_of(colours: &[Colours]) -> Result<u64, OutOfMemory>
    ensures { IfOk result (λ n. n ≡ blocks_of colours.now) }
{
    let mut total = 0u64;
    for rank in colours {
        total = sum_of(total, rank.blocks.len() as u64)?;
    }
    Ok(total)
}

/// The most colours that the blocks of a rank have.
pub fn block_colours_of(colours: &[Colours]) -> u64
    ensures { result ≡ block_colours_of colours.now }
{
    let mut most = 0u64;
    let mut rest = colours;
    while let [first, more @ ..] = rest {
        most = most.max(number_of_colours(&first.blocks));
        rest = more;
    }
    most
}

/// The most colours that the places of a block of a rank have.
pub fn inner_colours_of(colours: &[Colours]) -> u64
    ensures { result ≡ inner_colours_of colours.now }
{
    let mut most = 0u64;
    let mut rest = colours;
    while let [first, more @ ..] = rest {
        most = most.max(number_of_colours(&first.inner));
        rest = more;
    }
    most
}
