// Tags and keys in one list.
ghost use Rattle.std.specs.Prelude.{◌≡◌, ◌++◌, IfOk};

use std::alloc::{AllocError, Global};

// The tags, and the keys behind them.
pub(crate) fn joined(alloc: Global, tags: &[u32], keys: &[u32]) -> Result<Vec<u64>, AllocError>
    ensures { IfOk result (λ all. all.items ≡ tags.now ++ keys.now) }
{
    let mut all = Vec::with_capacity(alloc, tags.len())?;
    push_numbers(&mut all, tags)?;
    push_numbers(&mut all, keys)?;
    Ok(all)
}

// Pushes numbers, each with 64 bits.
fn push_numbers(all: &mut Vec<u64>, numbers: &[u32]) -> Result<(), AllocError>
    ensures { IfOk result (λ _. all.new.items ≡ all.old.items ++ numbers.now) }
{
    for number in numbers {
        all.push(u64::from(*number))?;
    }
    Ok(())
}
