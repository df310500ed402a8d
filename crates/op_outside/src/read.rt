// A whole file.
ghost use Rattle.std.specs.Prelude.{◌≡◌, ◌≤◌, ◌<◌, ◌^◌, ◌↔◌, List, ℕ, [], length, vec_len, IfOk, OnOk, IfSome, IsErrOf};
ghost use Rattle.op_outside.specs.Outside.{Rose, Holds, Lacks};

use crate::{OutOfMemory, ReadRefusal, Shelf, ShelfFault};
use std::alloc::Global;

// How many bytes are asked for at once.
const CHUNK: usize = 65536;

/// The bytes of the file `name`, which has at most `limit` bytes; `limit` is below 2 ^ 32.
///
/// `Failed` comes only where the shelf's count of faults rose in this call, `Missing` only where the
/// files are told and none has the name, `TooLarge`, over told files, only where the file has more
/// than `limit` bytes. The files and the lent names stay as they were.
pub fn read_whole<F: Shelf>(
    alloc: Global,
    shelf: &mut F,
    name: &str,
    limit: u64,
) -> Result<Vec<u8>, ReadRefusal>
    requires lent { F.lends shelf.old name.now }
    requires limit { limit < 2 ^ 32 }

    ensures told { F.told shelf.new ≡ F.told shelf.old }
    ensures lends { (n : List ℕ) → F.lends shelf.old n ↔ F.lends shelf.new n }
    ensures never_falls { F.faults shelf.old ≤ F.faults shelf.new }

    ensures read { IfOk result (λ v. Holds (F.told shelf.old) name.now (λ bytes. bytes ≡ v.items)) }
    ensures fits { IfOk result (λ v. vec_len v ≤ limit) }
    ensures calm { OnOk result (F.faults shelf.new ≡ F.faults shelf.old) }

    ensures failed { IsErrOf result ReadRefusal.Failed → Rose (F.faults shelf.old) (F.faults shelf.new) }
    ensures missing { IsErrOf result ReadRefusal.Missing → Lacks (F.told shelf.old) name.now }
    ensures too_large { IsErrOf result ReadRefusal.TooLarge → Holds (F.told shelf.old) name.now (λ bytes. limit < length bytes) }
{
    let mut chunk = new_chunk(alloc)?;
    read_by(shelf, name, limit, Vec::new(alloc), chunk.as_mut_slice())
}

// A buffer to read into.
fn new_chunk(alloc: Global) -> Result<Vec<u8>, OutOfMemory>
    ensures { IfOk result (λ chunk. 0 < vec_len chunk) }
{
    vec![in alloc; 0u8; CHUNK]
}

// Reads the file into `bytes`, which is empty, by pieces of at most the chunk's length.
fn read_by<F: Shelf>(
    shelf: &mut F,
    name: &str,
    limit: u64,
    mut bytes: Vec<u8>,
    chunk: &mut [u8],
) -> Result<Vec<u8>, ReadRefusal>
    requires lent { F.lends shelf.old name.now }
    requires limit { limit < 2 ^ 32 }
    requires empty { bytes.items ≡ [] }
    requires chunk { 0 < length chunk.old }
    ensures told { F.told shelf.new ≡ F.told shelf.old }
    ensures lends { (n : List ℕ) → F.lends shelf.old n ↔ F.lends shelf.new n }
    ensures never_falls { F.faults shelf.old ≤ F.faults shelf.new }

    ensures read { IfOk result (λ v. Holds (F.told shelf.old) name.now (λ bytes. bytes ≡ v.items)) }
    ensures fits { IfOk result (λ v. vec_len v ≤ limit) }
    ensures calm { OnOk result (F.faults shelf.new ≡ F.faults shelf.old) }

    ensures failed { IsErrOf result ReadRefusal.Failed → Rose (F.faults shelf.old) (F.faults shelf.new) }
    ensures missing { IsErrOf result ReadRefusal.Missing → Lacks (F.told shelf.old) name.now }
    ensures too_large { IsErrOf result ReadRefusal.TooLarge → Holds (F.told shelf.old) name.now (λ bytes. limit < length bytes) }
{
    loop {
        let count = match shelf.read_at(name, bytes.len() as u64, chunk) {
            Ok(count) => count,
            Err(ShelfFault::Failed) => return Err(ReadRefusal::Failed),
            Err(ShelfFault::Missing) => return Err(ReadRefusal::Missing),
        };
        if count == 0 {
            return Ok(bytes);
        }
        if count as u64 > limit - bytes.len() as u64 {
            return Err(ReadRefusal::TooLarge);
        }
        bytes.extend_from_slice(&chunk[..count])?;
    }
}
