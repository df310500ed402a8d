// A source that is read again: its tokens, its tree, and its kernels with each name resolved.
ghost use Rattle.std.specs.Prelude.{◌≡◌, ◌+◌, ◌<◌, ◌^◌, ℕ, List, length, Ok, IfOk, IfSome, IfNone};
ghost use Rattle.c_tree.specs.declared.lexer.tokens.Token.{Token as LexedToken};
ghost use Rattle.c_tree.specs.Lexed.{Lexes};
ghost use Rattle.c_tree.specs.Tree.{ProgramTree};
ghost use Rattle.c_tree.specs.View.{program_of};
ghost use Rattle.c_tree.specs.Reads.{Reads};
ghost use Rattle.kernel_model.specs.declared.types.kernels.Resolved.{Resolved as Kernels};
ghost use Rattle.kernel_model.specs.Resolved.{IsResolvedProgram};
ghost use Rattle.kernel_model.specs.View.{resolved_of};
ghost use Rattle.name_resolution.specs.Programs.{Resolves};
ghost use Rattle.explanations.specs.Accesses.{IsReadAs};

use c_reader::read_lexed;
use c_tree::{LexRefusal, Program, SourceRefusal, Token, lex};
use kernel_model::types::Resolved;
use name_resolution::{TypeRefusal, resolve};
use op_num::OutOfMemory;
use std::alloc::{AllocError, Global};

/// A source: its tokens, its tree, and its kernels with each name resolved.
#[derive(Drop)]
pub struct Source {
    pub tokens: Vec<Token>,
    pub program: Program,
    pub types: Resolved,
}

// The tokens of a source, if it has some.
fn tokens_of(alloc: Global, source: &[u8]) -> Result<Option<Vec<Token>>, OutOfMemory>
    requires { length source.now + 2 < 2 ^ 32 }
    ensures some { IfOk result (λ o. IfSome o (λ v. Lexes source.now (Ok v.items))) }
    ensures none { IfOk result (λ o. IfNone o ((tokens : List LexedToken) → Lexes source.now (Ok tokens) → ⊥)) }
{
    match lex(alloc, source) {
        Ok(tokens) => Ok(Some(tokens)),
        Err(LexRefusal::OutOfMemory) => Err(AllocError),
        Err(LexRefusal::BadByte { .. }) => Ok(None),
        Err(LexRefusal::OpenComment { .. }) => Ok(None),
        Err(LexRefusal::OpenText { .. }) => Ok(None),
        Err(LexRefusal::NumberTooLarge { .. }) => Ok(None),
    }
}

// The tree of a source, if it has one.
fn program_in(
    alloc: Global,
    source: &[u8],
    tokens: &[Token],
) -> Result<Option<Program>, OutOfMemory>
    requires few { length source.now + 2 < 2 ^ 32 }
    requires lexed { Lexes source.now (Ok tokens.now) }
    ensures some { IfOk result (λ o. IfSome o (λ p. Reads source.now (program_of p))) }
    ensures none { IfOk result (λ o. IfNone o ((p : ProgramTree) → Reads source.now p → ⊥)) }
{
    match read_lexed(alloc, source, tokens) {
        Ok(program) => Ok(Some(program)),
        Err(SourceRefusal::OutOfMemory) => Err(AllocError),
        Err(SourceRefusal::Lex(_)) => Ok(None),
        Err(SourceRefusal::Syntax { .. }) => Ok(None),
        Err(SourceRefusal::TooDeep { .. }) => Ok(None),
    }
}

// The kernels and constants of a program, if its names and types are right.
fn types_of(alloc: Global, program: &Program) -> Result<Option<Resolved>, OutOfMemory>
    ensures some { IfOk result (λ o. IfSome o (λ types. Resolves (program_of program.now) (Ok (resolved_of types)))) }
    ensures resolved { IfOk result (λ o. IfSome o IsResolvedProgram) }
    ensures none { IfOk result (λ o. IfNone o ((types : Kernels) → Resolves (program_of program.now) (Ok (resolved_of types)) → ⊥)) }
{
    match resolve(alloc, program) {
        Ok(types) => Ok(Some(types)),
        Err(TypeRefusal::OutOfMemory) => Err(AllocError),
        Err(_) => Ok(None),
    }
}

// A source of which the tokens and the tree are known, or none where its names and types are refused.
fn source_with(
    alloc: Global,
    source: &[u8],
    tokens: Vec<Token>,
    program: Program,
) -> Result<Option<Source>, OutOfMemory>
    requires lexed { Lexes source.now (Ok tokens.items) }
    requires read { Reads source.now (program_of program) }
    ensures some { IfOk result (λ o. IfSome o (λ s. IsReadAs source.now s.tokens.items (program_of s.program) s.types)) }
    ensures resolved { IfOk result (λ o. IfSome o (λ s. IsResolvedProgram s.types)) }
    ensures none { IfOk result (λ o. IfNone o
        ((lexed : List LexedToken) (p : ProgramTree) (types : Kernels) → IsReadAs source.now lexed p types → ⊥)) }
{
    c_reader::one_tree();
    match types_of(alloc, &program)? {
        Some(types) => Ok(Some(Source {
            tokens,
            program,
            types,
        })),
        None => Ok(None),
    }
}

// A source of which the tokens are known, or none where it is refused for its tree or for its names and types.
fn source_by(
    alloc: Global,
    source: &[u8],
    tokens: Vec<Token>,
) -> Result<Option<Source>, OutOfMemory>
    requires few { length source.now + 2 < 2 ^ 32 }
    requires lexed { Lexes source.now (Ok tokens.items) }
    ensures some { IfOk result (λ o. IfSome o (λ s. IsReadAs source.now s.tokens.items (program_of s.program) s.types)) }
    ensures resolved { IfOk result (λ o. IfSome o (λ s. IsResolvedProgram s.types)) }
    ensures none { IfOk result (λ o. IfNone o
        ((lexed : List LexedToken) (p : ProgramTree) (types : Kernels) → IsReadAs source.now lexed p types → ⊥)) }
{
    match program_in(alloc, source, &tokens)? {
        Some(program) => source_with(alloc, source, tokens, program),
        None => Ok(None),
    }
}

/// A source with its tokens, its tree and its kernels, or none where it is refused for one of them. An error is want of
/// memory.
pub fn source_of(alloc: Global, source: &[u8]) -> Result<Option<Source>, OutOfMemory>
    requires { length source.now + 2 < 2 ^ 32 }
    ensures some { IfOk result (λ o. IfSome o (λ s. IsReadAs source.now s.tokens.items (program_of s.program) s.types)) }
    ensures resolved { IfOk result (λ o. IfSome o (λ s. IsResolvedProgram s.types)) }
    ensures none { IfOk result (λ o. IfNone o
        ((tokens : List LexedToken) (p : ProgramTree) (types : Kernels) → IsReadAs source.now tokens p types → ⊥)) }
{
    match tokens_of(alloc, source)? {
        Some(tokens) => source_by(alloc, source, tokens),
        None => Ok(None),
    }
}
