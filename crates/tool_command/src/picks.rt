// A printed dat, picked out of an output.

ghost use Rattle.std.specs.Prelude.{◌≡◌, [], ◌∷◌};
ghost use Rattle.op_outside.specs.Outside.{Rose};
ghost use Rattle.job_inputs.specs.Readings.{AreNext};
ghost use Rattle.bound_program.specs.Values.{bound_of};
ghost use Rattle.bound_program.specs.Fits.{Fits};
ghost use Rattle.job_inputs.specs.Chains.{AnswersBy, AnswersFrom};
ghost use Rattle.tool_command.specs.ToolAnswers.{PieceAnswers, PickAnswers};

use crate::lines::refused_piece;
use bound_program::Bound;
use command_words::answer_lines::{Answer, Failure, Halt, Limit};
use job_inputs::file_of;
use job_inputs::kept_files::Kept;
use mesh_draw::output_pieces::{PieceRefusal, piece_of};
use op_outside::Shelf;
use std::alloc::Global;

// The answer to the bytes of an output.
fn picked_of<'a>(
    alloc: Global,
    bound: &Bound,
    bytes: &[u8],
    file: &str,
    earlier: u64,
) -> Result<Answer, Halt<'a>>
    requires { Fits (bound_of bound.now) }
    ensures { AnswersBy (PieceAnswers (bound_of bound.now) file.now earlier bytes.now) result }
{
    match piece_of(alloc, bound, bytes, file.as_bytes(), earlier) {
        Ok(piece) => Ok(Answer::Done(piece.to_vec(alloc)?)),
        Err(PieceRefusal::OutOfMemory) => Err(Halt::Failed(Failure::OutOfMemory)),
        Err(refusal) => Ok(refused_piece(alloc, file, refusal)?),
    }
}

/// The answer of picking a dat out of the output in a file, which is the next in `kept`.
pub fn picked<'a, F: Shelf>(
    alloc: Global,
    shelf: &mut F,
    kept: &mut Kept<'a>,
    bound: &Bound,
    output: &'a str,
    file: &str,
    earlier: u64,
) -> Result<Answer, Halt<'a>>
    requires lent { F.lends shelf.old output.now }
    requires next { AreNext (output.now ∷ []) kept.old }
    requires fits { Fits (bound_of bound.now) }
    ensures { AnswersFrom (F.told shelf.old) kept.old
        (λ files. PickAnswers output.now file.now earlier files (bound_of bound.now))
        (Rose (F.faults shelf.old) (F.faults shelf.new)) result }
{
    let bytes = file_of(alloc, shelf, kept, output, Limit::PrintWeight)?;
    picked_of(alloc, bound, &bytes, file, earlier)
}
