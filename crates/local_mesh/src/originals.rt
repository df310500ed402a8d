// Original numbers by local number, and local numbers by original number.
ghost use Rattle.std.specs.Prelude.{◌≡◌, ◌≢◌, ℕ, ◌<◌, ◌≤◌, ◌^◌, IfOk, IfSome, IfNone, Some, length, slice_index, Contains};
ghost use Rattle.local_mesh.specs.Lookup.{Finds};

use crate::lookup::Lookup;
use op_num::OutOfMemory;
use std::alloc::Global;
use std::marker::Model;

/// The original numbers of the elements of one set that a rank has, by local number: 4 bytes each, where the set was
/// renumbered 12. Contracts see them as a list.
#[derive(Debug, Drop)]
pub struct Originals {
    numbers: Vec<u32>,
    lookup: Lookup,
}

impl Model for Originals {
    ghost use Rattle.std.specs.Prelude.{List, ℕ};
    ghost use Rattle.local_mesh.specs.Lookup.{Finds};

    ghost Value = { List ℕ };

    ghost view = { λ o. o.numbers.items };

    ghost invariant = { λ o. Finds o.numbers.items o.lookup };
}

impl Originals {
    // These numbers, by this look-up.
    pub(crate) fn new(numbers: Vec<u32>, lookup: Lookup) -> Originals
        requires { Finds numbers.items lookup }
        ensures { result ≡ numbers.items }
    {
        Originals { numbers, lookup }
    }

    /// The numbers, by local number.
    pub fn as_slice(&self) -> &[u32]
        ensures { result.now ≡ self.now }
    {
        &self.numbers
    }

    /// The local number of an element, or none where it isn't among these. It takes time logarithmic in them.
    pub fn local_of(&self, original: u32) -> Option<u32>
        ensures some { IfSome result (λ l. (l < length self.now) × (slice_index self.now l ≡ original)) }
        ensures none { IfNone result ((k : ℕ) → k < length self.now → slice_index self.now k ≢ original) }
        ensures at { (k : ℕ) → k < length self.now → slice_index self.now k ≡ original → result ≡ Some k }
    {
        self.lookup.local_of(&self.numbers, original)
    }
}

/// Writes each local number at its original number.
pub fn number_locals(numbers: &mut [u32], original: &[u32])
    requires few { length original.now < 2 ^ 32 }
    requires within { (k : ℕ) → k < length original.now → slice_index original.now k < length numbers.old }
    requires apart { (j k : ℕ) → j < k → k < length original.now → slice_index original.now j ≢ slice_index original.now k }
    ensures at { (k : ℕ) → k < length original.now → slice_index numbers.new (slice_index original.now k) ≡ k }
    ensures others { (y : ℕ) → ¬ Contains original.now y → slice_index numbers.new y ≡ slice_index numbers.old y }
{
    for (local, element) in original.iter().enumerate() {
        numbers[*element as usize] = local as u32;
    }
}

/// What stands at each of these places.
pub fn locals_of(alloc: Global, places: &[u32], numbers: &[u32]) -> Result<Vec<u32>, OutOfMemory>
    requires { (k : ℕ) → k < length places.now → slice_index places.now k < length numbers.now }
    ensures length { IfOk result (λ v. length v.items ≡ length places.now) }
    ensures at { IfOk result (λ v. (k : ℕ) → k < length places.now
        → slice_index v.items k ≡ slice_index numbers.now (slice_index places.now k)) }
{
    let mut locals = Vec::with_capacity(alloc, places.len())?;
    for place in places {
        locals.push(numbers[*place as usize])?;
    }
    Ok(locals)
}
