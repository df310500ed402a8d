// Owners out of the text of a graph partitioner.

ghost use Rattle.std.specs.Prelude.{◌+◌, ◌^◌, ◌<◌, ◌∷◌, [], length};
ghost use Rattle.op_outside.specs.Outside.{Rose};
ghost use Rattle.job_inputs.specs.Readings.{AreNext};
ghost use Rattle.mesh_decl.specs.Mesh.{set_count};
ghost use Rattle.bound_program.specs.Values.{bound_of};
ghost use Rattle.command_words.specs.Laws.{AreFew};
ghost use Rattle.job_inputs.specs.Chains.{AnswersBy, AnswersFrom};
ghost use Rattle.tool_command.specs.ToolAnswers.{NumbersTaken, PartitionTaken, TakenAnswers};

use crate::lines::{refused_metis, refused_name};
use crate::owners::written;
use bound_program::Bound;
use command_words::answer_lines::{Answer, Failure, Halt, Limit};
use job_inputs::file_of;
use job_inputs::kept_files::Kept;
use metis_text::owner_text::metis::{MetisRefusal, owners_by_metis};
use op_outside::Shelf;
use std::alloc::Global;

// The answer to the bytes of a partitioner's text, for the set of this number.
fn numbers_taken<'a>(
    alloc: Global,
    bound: &Bound,
    bytes: &[u8],
    ranks: u32,
    set: u32,
) -> Result<Answer, Halt<'a>>
    requires few { AreFew ranks }
    requires set { set < set_count (bound_of bound.now).mesh }
    requires lines { length bytes.now + 1 < 2 ^ 32 }
    ensures { AnswersBy (NumbersTaken ranks (bound_of bound.now) set bytes.now) result }
{
    match owners_by_metis(alloc, &bound.mesh, ranks, set, bytes) {
        Ok(owners) => written(alloc, bound, &owners),
        Err(MetisRefusal::OutOfMemory) => Err(Halt::Failed(Failure::OutOfMemory)),
        Err(refusal) => Ok(refused_metis(alloc, refusal)?),
    }
}

// The answer to the bytes of a partitioner's text, for the set of this name.
fn partition_taken<'a>(
    alloc: Global,
    bound: &Bound,
    bytes: &[u8],
    ranks: u32,
    set: &str,
) -> Result<Answer, Halt<'a>>
    requires few { AreFew ranks }
    requires lines { length bytes.now + 1 < 2 ^ 32 }
    ensures { AnswersBy (PartitionTaken ranks set.now (bound_of bound.now) bytes.now) result }
{
    match bound.mesh.set_named(set.as_bytes()) {
        Some(number) => numbers_taken(alloc, bound, bytes, ranks, number),
        None => Ok(refused_name(alloc, b"owners 2 name ", set.as_bytes())?),
    }
}

/// The answer of telling the owners among so many ranks that a graph partitioner gave the elements of a set, and those
/// that the other sets have by them. The file is the next in `kept`.
pub fn taken<'a, F: Shelf>(
    alloc: Global,
    shelf: &mut F,
    kept: &mut Kept<'a>,
    bound: &Bound,
    ranks: u32,
    file: &'a str,
    set: &str,
) -> Result<Answer, Halt<'a>>
    requires lent { F.lends shelf.old file.now }
    requires next { AreNext (file.now ∷ []) kept.old }
    requires few { AreFew ranks }
    ensures { AnswersFrom (F.told shelf.old) kept.old (λ files. TakenAnswers ranks file.now set.now files (bound_of bound.now))
        (Rose (F.faults shelf.old) (F.faults shelf.new)) result }
{
    let bytes = file_of(alloc, shelf, kept, file, Limit::PartitionBytes)?;
    partition_taken(alloc, bound, &bytes, ranks, set)
}
