// How the local number of an element is found.
ghost use Rattle.std.specs.Prelude.{◌≡◌, ◌≢◌, ℕ, ◌<◌, ◌≤◌, ◌^◌, IfOk, IfSome, IfNone, length, slice_index};
ghost use Rattle.local_mesh.specs.Lookup.{RisesWithin, AreStretches, Finds};
ghost use Rattle.local_mesh.specs.Parts.{AreParts, AreSorted};

use crate::originals::{locals_of, number_locals};
use op_num::OutOfMemory;
use std::alloc::Global;

/// How the local number of an element is found among original numbers.
#[derive(Debug, Drop)]
pub enum Lookup {
    // These are three stretches, each in increasing order: the first ends at `owned`, the second at `executed`.
    Rising { owned: usize, executed: usize },
    // All in increasing order, and the local number of each.
    Sorted { copies: Vec<u32>, locals: Vec<u32> },
}

// The place of a number among those from `begin` to below `end`, which rise.
fn place_within(numbers: &[u32], begin: usize, end: usize, number: u32) -> Option<u32>
    requires few { length numbers.now < 2 ^ 32 }
    requires begin { begin ≤ end }
    requires end { end ≤ length numbers.now }
    requires rising { RisesWithin numbers.now begin end }
    ensures some { IfSome result (λ l. (l < length numbers.now) × (slice_index numbers.now l ≡ number)) }
    ensures none { IfNone result ((k : ℕ) → begin ≤ k → k < end → slice_index numbers.now k ≢ number) }
{
    let stretch = &numbers[begin..end];
    match stretch.binary_search(&number) {
        Ok(at) => Some((begin + at) as u32),
        Err(_) => None,
    }
}

// The place of a number among three stretches that rise.
fn place_in_stretches(numbers: &[u32], owned: usize, executed: usize, number: u32) -> Option<u32>
    requires { AreStretches numbers.now owned executed }
    ensures some { IfSome result (λ l. (l < length numbers.now) × (slice_index numbers.now l ≡ number)) }
    ensures none { IfNone result ((k : ℕ) → k < length numbers.now → slice_index numbers.now k ≢ number) }
{
    if let Some(place) = place_within(numbers, 0, owned, number) {
        return Some(place);
    }
    if let Some(place) = place_within(numbers, owned, executed, number) {
        return Some(place);
    }
    place_within(numbers, executed, numbers.len(), number)
}

impl Lookup {
    /// Of these numbers, of which `copies` has all in increasing order; without it they are three stretches, each in
    /// increasing order: the first ends at `owned`, the second at `executed`. What is in `scratch` is lost.
    pub fn new(
        alloc: Global,
        numbers: &[u32],
        owned: usize,
        executed: usize,
        copies: Option<Vec<u32>>,
        scratch: &mut [u32],
    ) -> Result<Lookup, OutOfMemory>
        requires parts { AreParts (length scratch.old) numbers.now }
        requires sorted { IfSome copies (λ c. AreSorted numbers.now c.items) }
        requires rising { IfNone copies (AreStretches numbers.now owned executed) }
        ensures { IfOk result (Finds numbers.now) }
    {
        let Some(copies) = copies else {
            return Ok(Lookup::Rising { owned, executed });
        };
        number_locals(scratch, numbers);
        let locals = locals_of(alloc, &copies, scratch)?;
        Ok(Lookup::Sorted { copies, locals })
    }

    /// The local number of an element, or none where it isn't among these numbers. It takes time logarithmic in them.
    pub fn local_of(&self, numbers: &[u32], original: u32) -> Option<u32>
        requires { Finds numbers.now self.now }
        ensures some { IfSome result (λ l. (l < length numbers.now) × (slice_index numbers.now l ≡ original)) }
        ensures none { IfNone result ((k : ℕ) → k < length numbers.now → slice_index numbers.now k ≢ original) }
    {
        match self {
            Lookup::Rising { owned, executed } => {
                place_in_stretches(numbers, *owned, *executed, original)
            }
            Lookup::Sorted { copies, locals } => match copies.binary_search(&original) {
                Ok(at) => Some(locals[at]),
                Err(_) => None,
            },
        }
    }
}
