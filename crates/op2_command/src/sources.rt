// The jobs on a source alone: its translation and its restoration.

ghost use Rattle.std.specs.Prelude.{◌≤◌, [], ◌∷◌, length};
ghost use Rattle.op_outside.specs.Outside.{Rose};
ghost use Rattle.answers.specs.Answers.{TranslateAnswers, RestoreAnswers};
ghost use Rattle.command_words.specs.declared.answer_lines.limits.TheConstants.{SOURCE_BYTES};
ghost use Rattle.job_inputs.specs.Chains.{AnswersBy, AnswersOver};
ghost use Rattle.op2_command.specs.Chains.{TextTranslates, TextRestores};

use command_words::answer_lines::{Answer, Halt, Limit};
use job_inputs::kept_files::some_files_are_as_seen;
use job_inputs::{restoration_of, sole_file, tokens_of, translation_of, tree_of_tokens};
use op_outside::Shelf;
use std::alloc::Global;

// The answer that is the translation of these bytes.
fn text_translated<'a>(alloc: Global, bytes: &[u8]) -> Result<Answer, Halt<'a>>
    requires { length bytes.now ≤ SOURCE_BYTES }
    ensures { AnswersBy (TextTranslates bytes.now) result }
{
    let tokens = tokens_of(alloc, bytes)?;
    let program = tree_of_tokens(alloc, bytes, &tokens)?;
    let translation = translation_of(alloc, bytes, &tokens, &program)?;
    Ok(Answer::Done(translation))
}

/// The answer that is the source in a file, translated.
pub fn translated<'a, F: Shelf>(
    alloc: Global,
    shelf: &mut F,
    source: &'a str,
) -> Result<Answer, Halt<'a>>
    requires { F.lends shelf.old source.now }
    ensures { AnswersOver (F.told shelf.old) (source.now ∷ []) (TranslateAnswers source.now)
        (Rose (F.faults shelf.old) (F.faults shelf.new)) result }
{
    some_files_are_as_seen();
    let bytes = sole_file(alloc, shelf, source, Limit::SourceBytes)?;
    text_translated(alloc, &bytes)
}

// The answer that is the restoration of these bytes.
fn text_restored<'a>(alloc: Global, bytes: &[u8]) -> Result<Answer, Halt<'a>>
    requires { length bytes.now ≤ SOURCE_BYTES }
    ensures { AnswersBy (TextRestores bytes.now) result }
{
    let restoration = restoration_of(alloc, bytes)?;
    Ok(Answer::Done(restoration))
}

/// The answer that is the source in a file, restored.
pub fn restored<'a, F: Shelf>(
    alloc: Global,
    shelf: &mut F,
    source: &'a str,
) -> Result<Answer, Halt<'a>>
    requires { F.lends shelf.old source.now }
    ensures { AnswersOver (F.told shelf.old) (source.now ∷ []) (RestoreAnswers source.now)
        (Rose (F.faults shelf.old) (F.faults shelf.new)) result }
{
    some_files_are_as_seen();
    let bytes = sole_file(alloc, shelf, source, Limit::SourceBytes)?;
    text_restored(alloc, &bytes)
}
