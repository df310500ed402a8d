// Rows that are full.
ghost use Rattle.std.specs.Prelude.{◌≡◌, ◌<◌, [], length, slice_index_or};

use std::marker::Model;

/// Rows of numbers. Contracts see the list of the rows.
#[derive(Debug, Drop)]
pub struct Rows {
    pub(crate) starts: Vec<usize>,
    pub(crate) items: Vec<u32>,
}

impl Model for Rows {
    ghost use Rattle.std.specs.Prelude.{ℕ, List, drop, length};
    ghost use Rattle.renumber.specs.Parts.{parts, AreStarts};

    ghost Value = { List (List ℕ) };

    ghost view = { λ r. parts r.starts.items (drop 1 r.starts.items) r.items.items };

    ghost invariant = { λ r. AreStarts r.starts.items (length r.items.items) };
}

impl Rows {
    /// How many rows there are.
    pub fn len(&self) -> usize
        ensures { result ≡ length self.now }
    {
        self.starts.len() - 1
    }

    /// The numbers of the row at a place, from 0, in order.
    pub fn row(&self, place: usize) -> &[u32]
        requires { place < length self.now }
        ensures { result.now ≡ slice_index_or self.now place [] }
    {
        &self.items[self.starts[place]..self.starts[place + 1]]
    }
}
