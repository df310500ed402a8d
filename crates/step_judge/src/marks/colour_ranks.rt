// Stages by colours.
ghost use Rattle.std.specs.Prelude.{◌≡◌, ◌<◌, ◌≤◌, ◌^◌, ℕ, IfOk, length, slice_index};
ghost use Rattle.std.specs.List.Sorted.{IsNonDecreasing, IsPermutation};
ghost use Rattle.step_judge.specs.Ranked.{Point, Ranked};

use std::alloc::{AllocError, Global};

// How many numbers of a list in order are lower.
fn lower_count(sorted: &[u32], colour: u32) -> usize
    requires { IsNonDecreasing sorted.now }
    ensures { Point sorted.now colour result }
{
    sorted.partition_point(|x| *x < colour)
}

// The colours in order.
fn sorted_copy(alloc: Global, colours: &[u32]) -> Result<Vec<u32>, AllocError>
    ensures size { IfOk result (λ sorted. length sorted.items ≡ length colours.now) }
    ensures order { IfOk result (λ sorted. IsNonDecreasing sorted.items) }
    ensures there { IfOk result (λ sorted. IsPermutation colours.now sorted.items) }
{
    let mut sorted = Vec::from_slice(alloc, colours)?;
    sorted.sort()?;
    Ok(sorted)
}

/// Stages for colours: lower stages are lower colours, and stages are below the number of tasks.
pub fn ranked(alloc: Global, colours: &[u32]) -> Result<Vec<u32>, AllocError>
    requires { length colours.now < 2 ^ 32 }
    ensures { IfOk result (λ of. Ranked colours.now of.items) }
{
    let sorted = sorted_copy(alloc, colours)?;
    let mut of = Vec::new(alloc);
    for colour in colours {
        let lower = lower_count(&sorted, *colour);
        of.push(lower as u32)?;
    }
    Ok(of)
}
