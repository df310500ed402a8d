// Local numbers of a set's elements on their owners.
ghost use Rattle.std.specs.Prelude.{◌≡◌, ℕ, ◌<◌, IfOk, length, slice_index};
ghost use Rattle.std.specs.List.{range_with_len};

use op_num::OutOfMemory;
use std::alloc::Global;
use std::marker::Model;

/// By element of a set, its local number on the rank that owns it: 4 bytes each, none where each has its own number
/// there. Contracts see them as a list.
#[derive(Debug, Drop)]
pub struct LocalNumbers {
    count: u32,
    // None where each of so many has its own number.
    numbers: Option<Vec<u32>>,
}

impl Model for LocalNumbers {
    ghost use Rattle.std.specs.Prelude.{List, ℕ};
    ghost use Rattle.local_mesh.specs.HeldNumbers.{numbers_in};

    ghost Value = { List ℕ };

    ghost view = { λ t. numbers_in t.count t.numbers };
}

impl LocalNumbers {
    // So many elements with their own numbers.
    pub(crate) fn same(count: u32) -> LocalNumbers
        ensures { result ≡ range_with_len 0 count }
    {
        LocalNumbers {
            count,
            numbers: None,
        }
    }

    // These numbers.
    pub(crate) fn listed(numbers: Vec<u32>) -> LocalNumbers
        ensures { result ≡ numbers.items }
    {
        LocalNumbers {
            count: 0,
            numbers: Some(numbers),
        }
    }

    /// The local number of an element on its owner.
    pub fn of(&self, element: u32) -> u32
        requires { element < length self.now }
        ensures { result ≡ slice_index self.now element }
    {
        match &self.numbers {
            Some(numbers) => numbers[element as usize],
            None => element,
        }
    }

    // The local numbers of these elements.
    pub(crate) fn of_each(&self, alloc: Global, elements: &[u32]) -> Result<Vec<u32>, OutOfMemory>
        requires { (k : ℕ) → k < length elements.now → slice_index elements.now k < length self.now }
        ensures length { IfOk result (λ v. length v.items ≡ length elements.now) }
        ensures at { IfOk result (λ v. (k : ℕ) → k < length elements.now
            → slice_index v.items k ≡ slice_index self.now (slice_index elements.now k)) }
    {
        let mut locals = Vec::with_capacity(alloc, elements.len())?;
        for element in elements {
            locals.push(self.of(*element))?;
        }
        Ok(locals)
    }
}
