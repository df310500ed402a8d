// The source: its bytes, its tree, and its kernels and constants.

ghost use Rattle.std.specs.Prelude.{◌≡◌, ◌≤◌, Ok, Err, length, IfOk, IfErr};
ghost use Rattle.c_tree.specs.Lexed.{Lexes};
ghost use Rattle.c_tree.specs.View.{program_of};
ghost use Rattle.answers.specs.Judgements.{TreeIs, TypesAre};
ghost use Rattle.answers.specs.Said.{SaysLex, SaysSource, SaysTypes};
ghost use Rattle.command_words.specs.declared.answer_lines.limits.TheConstants.{SOURCE_BYTES};
ghost use Rattle.command_words.specs.Halts.{StopsWhere};

use c_reader::{SourceRefusal, read_lexed, read_program};
use c_tree::{LexRefusal, Program, Token, lex};
use command_words::answer_lines::{Failure, Halt, Refusal};
use kernel_model::types::Resolved;
use name_resolution::{TypeRefusal, resolve};
use std::alloc::Global;

/// The tree of the source; it has at most `SOURCE_BYTES` bytes.
///
/// A source without one is refused, with the place where it can't be read, and one whose tree has too many levels. Want
/// of memory is the one failure.
pub fn tree_of<'a>(alloc: Global, source: &[u8]) -> Result<Program, Halt<'a>>
    requires { length source.now ≤ SOURCE_BYTES }
    ensures ok { IfOk result (λ p. TreeIs source.now (Ok (program_of p))) }
    ensures err { IfErr result (StopsWhere (λ r. TreeIs source.now (Err r))) }
{
    match read_program(alloc, source) {
        Ok(program) => Ok(program),
        Err(refusal) => Err(unread(refusal)),
    }
}

/// The tokens of the source; it has at most `SOURCE_BYTES` bytes.
///
/// A source without tokens is refused as one without a tree. Want of memory is the one failure.
pub fn tokens_of<'a>(alloc: Global, source: &[u8]) -> Result<Vec<Token>, Halt<'a>>
    requires { length source.now ≤ SOURCE_BYTES }
    ensures ok { IfOk result (λ v. Lexes source.now (Ok v.items)) }
    ensures err { IfErr result (StopsWhere (λ r. TreeIs source.now (Err r))) }
{
    match lex(alloc, source) {
        Ok(tokens) => Ok(tokens),
        Err(refusal) => Err(unlexed(refusal)),
    }
}

/// The tree of the source whose tokens these are, as `tree_of` gives it; the source has at most `SOURCE_BYTES` bytes.
pub fn tree_of_tokens<'a>(
    alloc: Global,
    source: &[u8],
    tokens: &[Token],
) -> Result<Program, Halt<'a>>
    requires few { length source.now ≤ SOURCE_BYTES }
    requires lexed { Lexes source.now (Ok tokens.now) }
    ensures ok { IfOk result (λ p. TreeIs source.now (Ok (program_of p))) }
    ensures err { IfErr result (StopsWhere (λ r. TreeIs source.now (Err r))) }
{
    match read_lexed(alloc, source, tokens) {
        Ok(program) => Ok(program),
        Err(refusal) => Err(unread(refusal)),
    }
}

// A source without a tree.
fn unread<'a>(refusal: SourceRefusal) -> Halt<'a>
    ensures { StopsWhere (SaysSource refusal) result }
{
    match refusal {
        SourceRefusal::Lex(refusal) => unlexed(refusal),
        SourceRefusal::Syntax { at } => Halt::Refused(Refusal::NoTree { at }),
        SourceRefusal::TooDeep { at } => Halt::Refused(Refusal::TooDeep { at }),
        SourceRefusal::OutOfMemory => Halt::Failed(Failure::OutOfMemory),
    }
}

// A source without tokens.
pub(crate) fn unlexed<'a>(refusal: LexRefusal) -> Halt<'a>
    ensures { StopsWhere (SaysLex refusal) result }
{
    let (number, at) = match refusal {
        LexRefusal::BadByte { at } => (1, at),
        LexRefusal::OpenComment { at } => (2, at),
        LexRefusal::OpenText { at } => (3, at),
        LexRefusal::NumberTooLarge { at } => (4, at),
        LexRefusal::OutOfMemory => return Halt::Failed(Failure::OutOfMemory),
    };
    Halt::Refused(Refusal::NoTokens { number, at })
}

/// The kernels and constants of the source, with each name resolved.
pub fn types_of<'a>(alloc: Global, program: &Program) -> Result<Resolved, Halt<'a>>
    ensures ok { IfOk result (λ types. TypesAre (program_of program.now) (Ok types)) }
    ensures err { IfErr result (StopsWhere (λ r. TypesAre (program_of program.now) (Err r))) }
{
    match resolve(alloc, program) {
        Ok(resolved) => Ok(resolved),
        Err(refusal) => Err(unresolved(refusal)),
    }
}

// A source that breaks a rule on names and types.
fn unresolved<'a>(refusal: TypeRefusal) -> Halt<'a>
    ensures { StopsWhere (SaysTypes refusal) result }
{
    let (number, at) = match refusal {
        TypeRefusal::UnknownName { at } => (1, at),
        TypeRefusal::DuplicateName { at } => (2, at),
        TypeRefusal::NotAnArray { at } => (3, at),
        TypeRefusal::NotAScalar { at } => (4, at),
        TypeRefusal::AssignsCounter { at } => (5, at),
        TypeRefusal::AssignsConst { at } => (6, at),
        TypeRefusal::TooMuchWork { at } => (7, at),
        TypeRefusal::OutOfMemory => return Halt::Failed(Failure::OutOfMemory),
    };
    Halt::Refused(Refusal::BadName { number, at })
}
