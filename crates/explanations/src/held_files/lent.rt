// A shelf of files that are held in memory.
ghost use Rattle.std.specs.Prelude.{◌≡◌, ◌≤◌, length};
ghost use Rattle.op_outside.specs.Outside.{IsPart};
ghost use Rattle.explanations.specs.Held.{held, lent};

use crate::held_files::held::HeldFiles;
use op_outside::{Shelf, ShelfFault};

/// The files that are held in memory, as a shelf. It tells its files and lends every name, and no read fails.
#[derive(Drop)]
pub struct LentFiles<'a> {
    files: &'a HeldFiles,
}

impl<'a> LentFiles<'a> {
    ghost use Rattle.explanations.specs.Held.{held, lent};

    /// A shelf of these files.
    pub fn new(files: &'a HeldFiles) -> LentFiles<'a>
        ensures { lent result ≡ held files.now }
    {
        LentFiles { files }
    }
}

// Copies the bytes from a place on, as many as there is room for.
fn copy_part(bytes: &[u8], from: u64, into: &mut [u8]) -> usize
    ensures fits { result ≤ length into.old }
    ensures part { IsPart bytes.now from result into.new }
{
    if from >= bytes.len() as u64 {
        return 0;
    }
    let rest = &bytes[from as usize..];
    let count = rest.len().min(into.len());
    into[..count].copy_from_slice(&rest[..count]);
    count
}

impl<'a> Shelf for LentFiles<'a> {
    ghost use Rattle.std.specs.Prelude.{Some};
    ghost use Rattle.explanations.specs.Held.{lent};

    ghost told = { λ shelf. Some (lent shelf) };

    ghost faults = { λ _. 0 };

    ghost lends = { λ _ _. Unit {0} };

    fn read_at(&mut self, name: &str, from: u64, into: &mut [u8]) -> Result<usize, ShelfFault> {
        match self.files.bytes(name) {
            None => Err(ShelfFault::Missing),
            Some(bytes) => Ok(copy_part(bytes, from, into)),
        }
    }
}
