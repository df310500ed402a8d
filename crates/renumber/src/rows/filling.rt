// Rows that are being filled.
ghost use Rattle.std.specs.Prelude.{◌≡◌, ℕ, ◌<◌, ◌^◌, [], ◌∷◌, ◌++◌, length, slice_index, slice_index_or, set, IfOk};
ghost use Rattle.renumber.specs.Parts.{empty_rows};

use crate::rows::compressed::Rows;
use std::alloc::{AllocError, Global};
use std::marker::Model;

/// Rows of numbers, and how many each has room for. Contracts see the list of the rows, and that of the lengths that
/// they have room for.
#[derive(Debug, Drop)]
pub struct Filling {
    starts: Vec<usize>,
    ends: Vec<usize>,
    items: Vec<u32>,
}

impl Model for Filling {
    ghost use Rattle.std.specs.Prelude.{drop, length};
    ghost use Rattle.renumber.specs.Parts.{FillingValue, parts, rooms, AreEnds};

    ghost Value = { FillingValue };

    ghost view = { λ f. record {
      rows = parts f.starts.items f.ends.items f.items.items;
      room =
          rooms f.starts.items (drop 1 f.starts.items);
    } };

    ghost invariant = { λ f. AreEnds f.starts.items f.ends.items (length f.items.items) };
}

impl Filling {
    /// Empty rows, with room for these lengths. It fails only for want of memory, also where the sum of the lengths
    /// passes the largest `usize`.
    pub fn new(alloc: Global, lengths: &[usize]) -> Result<Filling, AllocError>
        requires { length lengths.now < 2 ^ 32 }
        ensures { IfOk result (λ f. f ≡ empty_rows lengths.now) }
    {
        let mut starts = Vec::with_capacity(alloc, lengths.len() + 1)?;
        let mut end = 0usize;
        for length in lengths {
            starts.push(end)?;
            end = end.checked_add(*length).ok_or(AllocError)?;
        }
        let ends = Vec::from_slice(alloc, &starts)?;
        starts.push(end)?;
        let items = vec![in alloc; 0u32; end]?;
        Ok(Filling {
            starts,
            ends,
            items,
        })
    }

    /// Puts a number behind those of the row at a place, from 0, which has room for it. Takes no memory.
    pub fn push(&mut self, place: usize, number: u32)
        requires within { place < length self.old.rows }
        requires room { length (slice_index_or self.old.rows place []) < slice_index self.old.room place }
        ensures { self.new ≡ record self.old { rows = set self.old.rows place (slice_index_or self.old.rows place [] ++ number ∷ []) } }
    {
        let end = self.ends[place];
        self.items[end] = number;
        self.ends[place] = end + 1;
    }

    /// The rows, which are full. Takes no memory.
    pub fn finish(self) -> Rows
        requires { (k : ℕ) → k < length self.rows → length (slice_index_or self.rows k []) ≡ slice_index self.room k }
        ensures { result ≡ self.rows }
    {
        Rows {
            starts: self.starts,
            items: self.items,
        }
    }
}
