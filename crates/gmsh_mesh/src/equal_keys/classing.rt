// Classes of equal keys.
ghost use Rattle.std.specs.Prelude.{◌≡◌, ◌<◌, ◌≤◌, ◌^◌, ℕ, IfOk, length};
ghost use Rattle.std.specs.List.Sorted.{IsNonDecreasing, IsPermutation};
ghost use Rattle.gmsh_mesh.specs.EqualKeys.{IsPoint, AreClasses};

use std::alloc::{AllocError, Global};

/// The class of each key, at its place: equal keys have one class, others have others, and each class is below the
/// number of keys. It takes time n log n, and fails only for want of memory.
pub fn classes(alloc: Global, keys: &[u64]) -> Result<Vec<u32>, AllocError>
    requires { length keys.now < 2 ^ 32 }
    ensures { IfOk result (λ of. AreClasses keys.now of.items) }
{
    let sorted = sorted_copy(alloc, keys)?;
    let mut of = Vec::with_capacity(alloc, keys.len())?;
    for key in keys {
        let lower = lower_count(&sorted, *key);
        of.push(lower as u32)?;
    }
    Ok(of)
}

// The keys in order.
fn sorted_copy(alloc: Global, keys: &[u64]) -> Result<Vec<u64>, AllocError>
    ensures size { IfOk result (λ sorted. length sorted.items ≡ length keys.now) }
    ensures order { IfOk result (λ sorted. IsNonDecreasing sorted.items) }
    ensures there { IfOk result (λ sorted. IsPermutation keys.now sorted.items) }
{
    let mut sorted = Vec::from_slice(alloc, keys)?;
    sorted.sort()?;
    Ok(sorted)
}

// How many numbers of a list in order are lower.
fn lower_count(sorted: &[u64], key: u64) -> usize
    requires { IsNonDecreasing sorted.now }
    ensures { IsPoint sorted.now key result }
{
    sorted.partition_point(|x| *x < key)
}
