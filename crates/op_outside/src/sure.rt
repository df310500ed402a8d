// A shelf and a sink that never fail.
ghost use Rattle.std.specs.Prelude.{◌≡◌, ◌≢◌, List, ℕ, Some, None, OnOk, OnErr, string_bytes};

use crate::part::copy_part;
use crate::{Failed, OutOfMemory, Shelf, ShelfFault, Sink};
use std::alloc::Global;
use std::collections::BTreeMap;

/// Files in memory, by name, whose reads never fail. It tells its files and lends every name.
#[derive(Drop)]
pub struct SureShelf {
    files: BTreeMap<String, Vec<u8>>,
}

impl SureShelf {
    ghost use Rattle.op_outside.specs.Memory.{sure_held};

    /// A shelf without files. Takes no memory.
    pub fn new(alloc: Global) -> SureShelf
        ensures { (name : List ℕ) → sure_held result name ≡ None }
    {
        SureShelf {
            files: BTreeMap::new(alloc),
        }
    }

    /// Holds the file `name` with these bytes from now on, in place of one with the same name.
    pub fn hold(&mut self, name: String, bytes: Vec<u8>) -> Result<(), OutOfMemory>
        ensures ok { OnOk result (sure_held self.new (string_bytes name) ≡ Some bytes.items) }
        ensures others { OnOk result ((other : List ℕ) → other ≢ string_bytes name → sure_held self.new other ≡ sure_held self.old other) }
        ensures err { OnErr result ((other : List ℕ) → sure_held self.new other ≡ sure_held self.old other) }
    {
        self.files.insert(name, bytes)?;
        Ok(())
    }
}

impl Shelf for SureShelf {
    ghost use Rattle.op_outside.specs.Memory.{sure_held};

    ghost told = { λ shelf. Some (sure_held shelf) };

    ghost faults = { λ _. 0 };

    ghost lends = { λ _ _. Unit {0} };

    fn read_at(&mut self, name: &str, from: u64, into: &mut [u8]) -> Result<usize, ShelfFault> {
        match self.files.get(name) {
            None => Err(ShelfFault::Missing),
            Some(bytes) => Ok(copy_part(bytes, from, into)),
        }
    }
}

/// Takes every piece whole and drops it, and never fails. It does not tell what was written.
#[derive(Clone, Copy, Debug, Default)]
pub struct SureSink;

impl SureSink {
    /// The sink that takes all.
    pub fn new() -> SureSink
        ensures { ⟦<SureSink as Sink>⟧.faults result ≡ 0 }
    {
        SureSink
    }
}

impl Sink for SureSink {
    ghost written = { λ _. None };

    ghost faults = { λ _. 0 };

    fn write(&mut self, piece: &[u8]) -> Result<usize, Failed> {
        Ok(piece.len())
    }
}
