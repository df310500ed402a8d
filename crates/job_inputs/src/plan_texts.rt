// The text of a plan, as it is asked for.

ghost use Rattle.std.specs.Prelude.{◌≡◌, ◌≤◌, ◌↔◌, ℕ, List, All, length, Ok, Err, IfOk, IfErr, OnOk};
ghost use Rattle.op_outside.specs.Outside.{Rose};
ghost use Rattle.job_inputs.specs.Readings.{AreNext, HaveCome, Finds};
ghost use Rattle.command_words.specs.declared.answer_lines.limits.TheConstants.{PLAN_BYTES};
ghost use Rattle.command_words.specs.Words.{names_in_blocks};
ghost use Rattle.command_words.specs.Values.{blocks_in};
ghost use Rattle.answers.specs.Judgements.{ColouringOf};
ghost use Rattle.job_inputs.specs.Inputs.{colouring_by};
ghost use Rattle.job_inputs.specs.Chains.{HaltsOver};

use crate::files::file_of;
use crate::kept_files::Kept;
use command_words::Blocks;
use command_words::answer_lines::{Halt, Limit};
use op_outside::Shelf;
use std::alloc::Global;

/// What the file holds that tells the blocks and colours of a plan, which is the next in `kept` then; nothing where
/// none does.
///
/// Refused are a file that isn't there, and one with more than `PLAN_BYTES` bytes. A file that could not be read is a
/// failure, where the shelf's count of faults rose, and so is want of memory.
pub fn plan_text_of<'a, F: Shelf>(
    alloc: Global,
    shelf: &mut F,
    kept: &mut Kept<'a>,
    blocks: Blocks<'a>,
) -> Result<Vec<u8>, Halt<'a>>
    requires lent { All (λ name. F.lends shelf.old name) (names_in_blocks (blocks_in blocks)) }
    requires next { AreNext (names_in_blocks (blocks_in blocks)) kept.old }
    ensures told { F.told shelf.new ≡ F.told shelf.old }
    ensures lends { (n : List ℕ) → F.lends shelf.old n ↔ F.lends shelf.new n }
    ensures calm { OnOk result (F.faults shelf.new ≡ F.faults shelf.old) }
    ensures come { OnOk result (HaveCome (names_in_blocks (blocks_in blocks.entry)) kept.old kept.new) }
    ensures read { IfOk result (λ v. Finds (F.told shelf.old) kept.old kept.new
        (λ files. ColouringOf (blocks_in blocks.entry) files (Ok (colouring_by (blocks_in blocks.entry) v.items)))) }
    ensures fits { IfOk result (λ v. length v.items ≤ PLAN_BYTES) }
    ensures err { IfErr result (HaltsOver (F.told shelf.old) kept.old (λ files r. ColouringOf (blocks_in blocks.entry) files (Err r))
        (Rose (F.faults shelf.old) (F.faults shelf.new))) }
{
    match blocks {
        Blocks::OfSize(_) => Ok(Vec::new(alloc)),
        Blocks::AsPlanned(name) => file_of(alloc, shelf, kept, name, Limit::PlanBytes),
    }
}
