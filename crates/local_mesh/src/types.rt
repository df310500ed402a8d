// One rank's part of a mesh.
ghost use Rattle.std.specs.Prelude.{◌≡◌, ◌≢◌, ℕ, ◌<◌, ◌≤◌, ◌+◌, ◌*◌, IfSome, IfNone, Some, length, slice_index};
ghost use Rattle.local_mesh.specs.LocalMesh.{originals_in};

use crate::originals::Originals;

/// The elements of one set that a rank has, numbered locally from 0: first what it owns, then what it imports to
/// execute, then what it imports to read.
#[derive(Debug, Drop)]
pub struct LocalSet {
    /// How many it owns.
    pub own: u32,
    /// How many it imports to execute.
    pub exec: u32,
    /// How many it imports to read.
    pub nonexec: u32,
    /// The original number of each, by local number.
    pub original: Originals,
    /// Whether each, by local number, is its own and core: all its targets are its own too.
    pub core: Vec<bool>,
}

/// One rank's part of a mesh, by numbers of sets, maps and dats.
#[derive(Debug, Drop)]
pub struct RankMesh {
    pub sets: Vec<LocalSet>,
    /// For each map the local targets of the elements that the rank executes: those of local element 0, then those of
    /// local element 1, and so on.
    pub maps: Vec<Vec<u32>>,
    /// The first cell of each dat in the rank's buffer.
    pub bases: Vec<usize>,
    /// How many cells the buffer has.
    pub cells: usize,
}

impl RankMesh {
    /// The first cell of a local element of a dat with `dim` cells for each. Takes no memory.
    pub fn place(&self, dat: u32, dim: u32, local: u32) -> usize
        requires dat { dat < length self.now.bases.items }
        requires cells { slice_index self.now.bases.items dat + (local + 1) * dim ≤ self.now.cells }
        ensures { result ≡ slice_index self.now.bases.items dat + local * dim }
    {
        self.bases[dat as usize] + local as usize * dim as usize
    }

    /// The local number of the element with an original number of the set numbered `set`, or none where the rank has
    /// no copy of it. It takes time logarithmic in what the rank has, and no memory.
    pub fn local_of(&self, set: u32, original: u32) -> Option<u32>
        requires { set < length self.now.sets.items }
        ensures some { IfSome result (λ l. (l < length (originals_in self.now.sets.items set))
            × (slice_index (originals_in self.now.sets.items set) l ≡ original)) }
        ensures none { IfNone result ((k : ℕ) → k < length (originals_in self.now.sets.items set)
            → slice_index (originals_in self.now.sets.items set) k ≢ original) }
        ensures at { (k : ℕ) → k < length (originals_in self.now.sets.items set)
            → slice_index (originals_in self.now.sets.items set) k ≡ original → result ≡ Some k }
    {
        self.sets[set as usize].original.local_of(original)
    }
}

/// By rank what the rank owns, imports to execute and imports to read of one set, each by new number; and all of these
/// by original number, unless new numbers are the original ones.
#[derive(Drop)]
pub struct Groups {
    pub own: Vec<Vec<u32>>,
    pub exec: Vec<Vec<u32>>,
    pub nonexec: Vec<Vec<u32>>,
    pub copies: Option<Vec<Vec<u32>>>,
}
