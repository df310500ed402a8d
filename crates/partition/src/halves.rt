// Owners of one set by repeated halving.
ghost use Rattle.std.specs.Prelude.{◌≡◌, ◌≢◌, ◌⊎◌, ℕ, ◌<◌, ◌≤◌, ◌+◌, ◌*◌, ◌-◌, ◌^◌, nat_eq, count_by, IfOk, OnOk, length};
ghost use Rattle.std.specs.Prelude.{slice_index};
ghost use Rattle.partition.specs.Block.{block_start};
ghost use Rattle.partition.specs.Bisect.{IsHalved, IsBisected};
ghost use Rattle.partition.specs.Parted.{IsParted};

use crate::axis::{longest_axis, part_along};
use op_num::OutOfMemory;
use std::alloc::Global;

// Where a rank's share of so many elements begins.
fn start_of(size: u32, ranks: u32, rank: u32) -> u64
    requires { 0 < ranks }
    ensures { result ≡ block_start size ranks rank }
{
    rank as u64 * size as u64 / ranks as u64
}

// Gives elements to a rank.
fn give_all(owners: &mut [u32], elements: &[u32], rank: u32)
    requires { (k : ℕ) → k < length elements.now → slice_index elements.now k < length owners.old }
    ensures given { (k : ℕ) → k < length elements.now → slice_index owners.new (slice_index elements.now k) ≡ rank }
    ensures kept { (x : ℕ) → ((k : ℕ) → k < length elements.now → slice_index elements.now k ≢ x)
        → slice_index owners.new x ≡ slice_index owners.old x }
    ensures only { (x : ℕ) → (slice_index owners.new x ≡ rank) ⊎ (slice_index owners.new x ≡ slice_index owners.old x) }
{
    for element in elements {
        owners[*element as usize] = rank;
    }
}

// Along the axis with the largest spread, moves the first elements to the first places. What is in `keys` is lost.
fn cut(
    keys: &mut Vec<u64>,
    values: &[i32],
    dim: u32,
    elements: &mut [u32],
    first: usize,
) -> Result<(), OutOfMemory>
    requires dim { 0 < dim }
    requires some { 0 < length elements.old }
    requires first { first ≤ length elements.old }
    requires within { (k : ℕ) → k < length elements.old → slice_index elements.old k * dim + dim ≤ length values.now }
    ensures { OnOk result (IsParted values.now dim first elements.old elements.new) }
{
    let axis = longest_axis(values, dim, elements);
    if first < elements.len() {
        part_along(keys, values, dim, axis, elements, first)?;
    }
    Ok(())
}

// Gives different elements to `many` ranks from `low` on, by halves. The elements are moved, and what is in `keys` is
// lost.
fn halve(
    keys: &mut Vec<u64>,
    owners: &mut [u32],
    values: &[i32],
    dim: u32,
    size: u32,
    ranks: u32,
    elements: &mut [u32],
    low: u32,
    many: u32,
) -> Result<(), OutOfMemory>
    requires dim { 0 < dim }
    requires few { ranks ≤ 64 }
    requires many { 0 < many }
    requires high { low + many ≤ ranks }
    requires size { length owners.old ≡ size }
    requires below { (k : ℕ) → k < length elements.old → slice_index elements.old k < size }
    requires within { (k : ℕ) → k < length elements.old → slice_index elements.old k * dim + dim ≤ length values.now }
    requires once { (x : ℕ) → count_by (λ y. nat_eq y x) elements.old ≤ 1 }
    requires share { length elements.old ≡ block_start size ranks (low + many) - block_start size ranks low }
    ensures halved { OnOk result ((depth : ℕ) → many ≤ depth
        → IsHalved depth size ranks values.now dim (slice_index owners.new) low many elements.old) }
    ensures kept { OnOk result ((x : ℕ) → ((k : ℕ) → k < length elements.old → slice_index elements.old k ≢ x)
        → slice_index owners.new x ≡ slice_index owners.old x) }
    ensures ranks { OnOk result ((x : ℕ) → slice_index owners.old x < ranks → slice_index owners.new x < ranks) }
{
    if many == 1 {
        give_all(owners, elements, low);
        return Ok(());
    }
    if elements.is_empty() {
        return Ok(());
    }
    let half = many / 2;
    let first = (start_of(size, ranks, low + half) - start_of(size, ranks, low)) as usize;
    cut(keys, values, dim, elements, first)?;
    let (lower, upper) = elements.split_at_mut(first);
    halve(keys, owners, values, dim, size, ranks, lower, low, half)?;
    let (above, rest) = (low + half, many - half);
    halve(keys, owners, values, dim, size, ranks, upper, above, rest)
}

// The numbers of so many elements.
fn all_elements(alloc: Global, size: u32) -> Result<Vec<u32>, OutOfMemory>
    ensures length { IfOk result (λ v. length v.items ≡ size) }
    ensures each { IfOk result (λ v. (x : ℕ) → x < size → slice_index v.items x ≡ x) }
{
    let mut elements = Vec::with_capacity(alloc, size as usize)?;
    for element in 0..size {
        elements.push(element)?;
    }
    Ok(elements)
}

/// The owners of a set of `size` elements by the values of a dat of this dim.
pub fn bisect_set(
    alloc: Global,
    values: &[i32],
    dim: u32,
    size: u32,
    ranks: u32,
) -> Result<Vec<u32>, OutOfMemory>
    requires dim { 0 < dim }
    requires some { 0 < ranks }
    requires few { ranks ≤ 64 }
    requires values { length values.now ≡ size * dim }
    ensures length { IfOk result (λ v. length v.items ≡ size) }
    ensures within { IfOk result (λ v. (x : ℕ) → x < size → slice_index v.items x < ranks) }
    ensures halved { IfOk result (λ v. IsBisected size ranks values.now dim v.items) }
{
    let mut owners = vec![in alloc; 0u32; size as usize]?;
    let mut elements = all_elements(alloc, size)?;
    let mut keys = Vec::new(alloc);
    halve(
        &mut keys,
        &mut owners,
        values,
        dim,
        size,
        ranks,
        &mut elements,
        0,
        ranks,
    )?;
    Ok(owners)
}
