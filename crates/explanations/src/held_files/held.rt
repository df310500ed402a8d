// Files in memory.
ghost use Rattle.std.specs.Prelude.{◌≡◌, ◌≢◌, List, ℕ, Some, None, option_map, OnOk, OnErr, string_bytes};
ghost use Rattle.explanations.specs.Held.{held};

use crate::held_files::lent::LentFiles;
use op_outside::OutOfMemory;
use std::alloc::Global;
use std::collections::BTreeMap;

/// Files in memory, by name.
#[derive(Drop)]
pub struct HeldFiles {
    files: BTreeMap<String, Vec<u8>>,
}

impl HeldFiles {
    ghost use Rattle.explanations.specs.Held.{held, lent};

    /// No files. Takes no memory.
    pub fn new(alloc: Global) -> HeldFiles
        ensures { (name : List ℕ) → held result name ≡ None }
    {
        HeldFiles {
            files: BTreeMap::new(alloc),
        }
    }

    /// Holds the file `name` with these bytes from now on, in place of one with the same name. An error is want of
    /// memory, and the files are as they were then.
    pub fn hold(&mut self, name: String, bytes: Vec<u8>) -> Result<(), OutOfMemory>
        ensures ok { OnOk result (held self.new (string_bytes name) ≡ Some bytes.items) }
        ensures others { OnOk result ((other : List ℕ) → other ≢ string_bytes name → held self.new other ≡ held self.old other) }
        ensures err { OnErr result ((other : List ℕ) → held self.new other ≡ held self.old other) }
    {
        self.files.insert(name, bytes)?;
        Ok(())
    }

    /// The bytes of the file `name`, or none where it isn't held.
    pub fn bytes(&self, name: &str) -> Option<&[u8]>
        ensures { option_map (λ b. b.now) result ≡ held self.now name.now }
    {
        match self.files.get(name) {
            Some(bytes) => Some(bytes.as_slice()),
            None => None,
        }
    }

    /// The files, for what reads files. Takes no memory.
    pub fn lent(&self) -> LentFiles<'_>
        ensures { lent result ≡ held self.now }
    {
        LentFiles::new(self)
    }
}
