// Sums and products that 64 bits hold.

ghost use Rattle.std.specs.Prelude.{◌≡◌, ◌+◌, ◌*◌, IfOk, sum};

use op_num::OutOfMemory;
use std::alloc::AllocError;

/// The sum of two counts. An error is want of memory, where 64 bits can't hold it.
pub fn sum_of(a: u64, b: u64) -> Result<u64, OutOfMemory>
    ensures { IfOk result (λ n. n ≡ a + b) }
{
    match a.checked_add(b) {
        Some(sum) => Ok(sum),
        None => Err(AllocError),
    }
}

/// The product of two counts. An error is want of memory, where 64 bits can't hold it.
pub fn product_of(a: u64, b: u64) -> Result<u64, OutOfMemory>
    ensures { IfOk result (λ n. n ≡ a * b) }
{
    match a.checked_mul(b) {
        Some(product) => Ok(product),
        None => Err(AllocError),
    }
}

/// The sum of numbers. An error is want of memory, where 64 bits can't hold it.
pub fn total_of(numbers: &[u32]) -> Result<u64, OutOfMemory>
    ensures { IfOk result (λ n. n ≡ sum numbers.now) }
{
    let mut total = 0u64;
    for number in numbers {
        total = sum_of(total, *number as u64)?;
    }
    Ok(total)
}
