// The files that the words name.

ghost use Rattle.std.specs.Prelude.{◌≡◌, ◌≤◌, ◌<◌, ◌^◌, ◌↔◌, List, ℕ, [], ◌∷◌, Ok, Err, IfOk, IfErr, OnOk, vec_len};
ghost use Rattle.op_outside.specs.Outside.{Rose};
ghost use Rattle.job_inputs.specs.Readings.{readings_of, AreNext, HaveCome, Finds};
ghost use Rattle.answers.specs.Judgements.{IsHeld};
ghost use Rattle.command_words.specs.Lines.{most};
ghost use Rattle.command_words.specs.Halts.{limit_of};
ghost use Rattle.job_inputs.specs.Chains.{HaltsOver};

use crate::kept_files::Kept;
use command_words::answer_lines::{Failure, Halt, Limit, Refusal, most};
use op_outside::{ReadRefusal, Shelf};
use std::alloc::Global;

/// The bytes of the file `name`, which is the next of those in `kept` that are to be read; at most as many as the limit
/// allows, which is one of bytes, below 2^32. Where it was read before, they are what was read then, so that a file has
/// one content.
///
/// Refused are a file that isn't there, and one with more bytes than the limit allows, with one more than it as its
/// size. A file that could not be read is a failure, where the shelf's count of faults rose, and so is want of memory.
pub fn file_of<'a, F: Shelf>(
    alloc: Global,
    shelf: &mut F,
    kept: &mut Kept<'a>,
    name: &'a str,
    limit: Limit,
) -> Result<Vec<u8>, Halt<'a>>
    requires lent { F.lends shelf.old name.now }
    requires limit { most (limit_of limit) < 2 ^ 32 }
    requires next { AreNext (name.now ∷ []) kept.old }

    ensures told { F.told shelf.new ≡ F.told shelf.old }
    ensures lends { (n : List ℕ) → F.lends shelf.old n ↔ F.lends shelf.new n }
    ensures never_falls { F.faults shelf.old ≤ F.faults shelf.new }
    ensures calm { OnOk result (F.faults shelf.new ≡ F.faults shelf.old) }
    ensures come { OnOk result (HaveCome (name.now ∷ []) kept.old kept.new) }
    ensures read { IfOk result (λ v. Finds (F.told shelf.old) kept.old kept.new
        (λ files. IsHeld (limit_of limit) name.now (files name.now) (Ok v.items))) }
    ensures fits { IfOk result (λ v. vec_len v ≤ most (limit_of limit)) }
    ensures err { IfErr result (HaltsOver (F.told shelf.old) kept.old
        (λ files r. IsHeld (limit_of limit) name.now (files name.now) (Err r)) (Rose (F.faults shelf.old) (F.faults shelf.new))) }
{
    let most = most(limit);
    match kept.read(alloc, shelf, name, most) {
        Ok(bytes) => Ok(bytes),
        Err(ReadRefusal::Failed) => Err(Halt::Failed(Failure::Unread(name))),
        Err(ReadRefusal::Missing) => Err(Halt::Refused(Refusal::CannotRead(name))),
        Err(ReadRefusal::TooLarge) => Err(Halt::Refused(Refusal::BeyondLimit {
            limit,
            size: most + 1,
        })),
        Err(ReadRefusal::OutOfMemory) => Err(Halt::Failed(Failure::OutOfMemory)),
    }
}

/// The bytes of the file `name`, as [`file_of`] gives them, where no other file is read in the call.
pub fn sole_file<'a, F: Shelf>(
    alloc: Global,
    shelf: &mut F,
    name: &'a str,
    limit: Limit,
) -> Result<Vec<u8>, Halt<'a>>
    requires lent { F.lends shelf.old name.now }
    requires limit { most (limit_of limit) < 2 ^ 32 }

    ensures read { IfOk result (λ v. Finds (F.told shelf.old) (readings_of (name.now ∷ [])) []
        (λ files. IsHeld (limit_of limit) name.now (files name.now) (Ok v.items))) }
    ensures fits { IfOk result (λ v. vec_len v ≤ most (limit_of limit)) }
    ensures err { IfErr result (HaltsOver (F.told shelf.old) (readings_of (name.now ∷ []))
        (λ files r. IsHeld (limit_of limit) name.now (files name.now) (Err r)) (Rose (F.faults shelf.old) (F.faults shelf.new))) }
{
    let mut kept = Kept::new(alloc);
    kept.push(name)?;
    file_of(alloc, shelf, &mut kept, name, limit)
}
