// Owners of one set by blocks.
ghost use Rattle.std.specs.Prelude.{◌≡◌, ℕ, ◌<◌, ◌≤◌, IfOk, length, slice_index};
ghost use Rattle.partition.specs.Block.{InBlock};

use op_num::OutOfMemory;
use std::alloc::Global;

/// The rank in whose block an element lies.
pub fn block_owner(size: u32, ranks: u32, element: u32) -> u32
    requires ranks { 0 < ranks }
    requires element { element < size }
    ensures block { InBlock size ranks result element }
    ensures within { result < ranks }
    ensures only { (i : ℕ) → InBlock size ranks i element → i ≡ result }
{
    (((element as u64 + 1) * ranks as u64 - 1) / size as u64) as u32
}

/// The owners of one set's elements by blocks.
pub fn block_set(alloc: Global, size: u32, ranks: u32) -> Result<Vec<u32>, OutOfMemory>
    requires ranks { 0 < ranks }
    ensures length { IfOk result (λ v. length v.items ≡ size) }
    ensures block { IfOk result (λ v. (x : ℕ) → x < size → InBlock size ranks (slice_index v.items x) x) }
    ensures within { IfOk result (λ v. (x : ℕ) → x < size → slice_index v.items x < ranks) }
    ensures only { IfOk result (λ v. (x : ℕ) → x < size → (i : ℕ) → InBlock size ranks i x → i ≡ slice_index v.items x) }
{
    let mut owners = Vec::with_capacity(alloc, size as usize)?;
    for element in 0..size {
        owners.push(block_owner(size, ranks, element))?;
    }
    Ok(owners)
}
