// Sources alone: what they are translated and restored to.

ghost use Rattle.std.specs.Prelude.{◌≤◌, Ok, Err, length, IfOk, IfErr};
ghost use Rattle.c_tree.specs.Lexed.{Lexes};
ghost use Rattle.c_tree.specs.View.{program_of};
ghost use Rattle.answers.specs.Judgements.{TreeIs, TranslationIs, RestorationIs};
ghost use Rattle.answers.specs.Said.{SaysTranslation};
ghost use Rattle.command_words.specs.declared.answer_lines.limits.TheConstants.{SOURCE_BYTES};
ghost use Rattle.command_words.specs.Halts.{StopsWhere};

use crate::sources::unlexed;
use c_tree::{Program, Token};
use command_words::answer_lines::{Failure, Halt, Refusal};
use op_translate::{TransRefusal, restore, translate};
use std::alloc::Global;

/// The translation of the source whose tokens and tree these are: each loop call is a call of its own stub, and a table
/// of the stubs stands behind it.
///
/// A source with a name of a stub is refused, with the place of the first. Want of memory is the one failure.
pub fn translation_of<'a>(
    alloc: Global,
    source: &[u8],
    tokens: &[Token],
    program: &Program,
) -> Result<Vec<u8>, Halt<'a>>
    requires lexed { Lexes source.now (Ok tokens.now) }
    requires read { TreeIs source.now (Ok (program_of program.now)) }
    ensures ok { IfOk result (λ v. TranslationIs source.now (program_of program.now) (Ok v.items)) }
    ensures err { IfErr result (StopsWhere (λ r. TranslationIs source.now (program_of program.now) (Err r))) }
{
    match translate(alloc, source, tokens, program) {
        Ok(translation) => Ok(translation),
        Err(refusal) => Err(untranslated(refusal)),
    }
}

/// The restoration of the source: each call of a stub is a loop call again. The source has at most `SOURCE_BYTES`
/// bytes.
///
/// A source without tokens is refused, and else the first of its tokens that is a name of a stub and isn't called, or a
/// loop call. Want of memory is the one failure.
pub fn restoration_of<'a>(alloc: Global, source: &[u8]) -> Result<Vec<u8>, Halt<'a>>
    requires { length source.now ≤ SOURCE_BYTES }
    ensures ok { IfOk result (λ v. RestorationIs source.now (Ok v.items)) }
    ensures err { IfErr result (StopsWhere (λ r. RestorationIs source.now (Err r))) }
{
    match restore(alloc, source) {
        Ok(restoration) => Ok(restoration),
        Err(refusal) => Err(untranslated(refusal)),
    }
}

// A source that isn't translated or restored.
fn untranslated<'a>(refusal: TransRefusal) -> Halt<'a>
    ensures { StopsWhere (SaysTranslation refusal) result }
{
    let (number, at) = match refusal {
        TransRefusal::NameTaken { at } => (1, at),
        TransRefusal::NoCall { at } => (2, at),
        TransRefusal::LoopLeft { at } => (3, at),
        TransRefusal::Lex(refusal) => return unlexed(refusal),
        TransRefusal::OutOfMemory => return Halt::Failed(Failure::OutOfMemory),
    };
    Halt::Refused(Refusal::BadStub { number, at })
}
