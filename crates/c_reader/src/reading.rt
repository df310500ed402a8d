// The tree of a source.

ghost use Rattle.std.specs.Prelude.{◌≡◌, ◌+◌, ◌<◌, ◌^◌, length, List, ℕ, Ok, Err, IfOk, IfErr};
ghost use Rattle.c_tree.specs.declared.lexer.refusals.LexRefusal.{LexRefusal as LexRefused};
ghost use Rattle.c_tree.specs.declared.lexer.tokens.Token.{Token as LexedToken};
ghost use Rattle.c_tree.specs.Lexed.{Lexes};
ghost use Rattle.c_tree.specs.Tree.{ProgramTree};
ghost use Rattle.c_tree.specs.View.{main_of, program_of};
ghost use Rattle.c_tree.specs.Reads.{Reads, Deep, shown};
ghost use Rattle.c_reader.specs.Answered.{IsTree, IsRefusal, not_lexed, refusal_of};
ghost use Rattle.c_tree.specs.Refused.{places, place_at, IsFar, CanRefuse};
ghost use Rattle.c_tree.specs.declared.refusals.SourceRefusal.TheVariants.{Lex, TooDeep};
ghost use Rattle.c_reader.specs.Descent.{Gives};
ghost use Rattle.c_reader.specs.Rows.{seen_by};
ghost use Rattle.c_reader.specs.Whole.{argv_at, return_at, main_at, whole};
ghost use Rattle.c_reader.specs.Kinds.{kinds};

use crate::cursor::{after_sign, after_word, is_sign, is_word, number};
use crate::faults::{Fault, ReadError};
use crate::hosts::{Closing, read_hosts};
use crate::tops::read_tops;
use c_tree::lexer::one_outcome;
use c_tree::{
    LexRefusal, Main, NumberLiteral, Pos, Program, Sign, SourceRefusal, Token, Word, end_place, lex,
};
use std::alloc::{AllocError, Global};

/// The one tree of the bytes of a source, where it has at most 64 levels. They are to be fewer than 2 ^ 32 - 2, since a
/// place is a `u32`. `OutOfMemory` comes only where memory runs out.
pub fn read_program(alloc: Global, bytes: &[u8]) -> Result<Program, SourceRefusal>
    requires { length bytes.now + 2 < 2 ^ 32 }
    // A tree that is given is that of the bytes,
    ensures found { IfOk result (λ x. Reads bytes.now (program_of x)) }
    // and it is the only one.
    ensures only { (p : ProgramTree) → Reads bytes.now p → IsTree p result }
    // A deeper tree is refused at its first token beyond level 64,
    ensures deep { (p : ProgramTree) (n : ℕ) → Deep bytes.now p n → IsRefusal (TooDeep (place_at p.places bytes.now n)) result }
    // bytes that have no tokens with the lexer's refusal,
    ensures lexed { (r : LexRefused) → Lexes bytes.now (Err r) → IsRefusal (Lex r) result }
    // and no refusal comes without its reason.
    ensures refused { IfErr result (CanRefuse bytes.now) }
{
    let tokens = match lex(alloc, bytes) {
        Ok(tokens) => tokens,
        Err(refusal) => return Err(unlexed(refusal)),
    };
    read_lexed(alloc, bytes, &tokens)
}

/// The one tree of the bytes of a source whose tokens these are, where it has at most 64 levels. They are to be fewer
/// than 2 ^ 32 - 2. `Lex` doesn't come, and `OutOfMemory` only where memory runs out.
pub fn read_lexed(alloc: Global, bytes: &[u8], tokens: &[Token]) -> Result<Program, SourceRefusal>
    requires size { length bytes.now + 2 < 2 ^ 32 }
    requires lexed { Lexes bytes.now (Ok tokens.now) }
    // The tree and the refusals are those of `read_program`.
    ensures found { IfOk result (λ x. Reads bytes.now (program_of x)) }
    ensures only { (p : ProgramTree) → Reads bytes.now p → IsTree p result }
    ensures deep { (p : ProgramTree) (n : ℕ) → Deep bytes.now p n → IsRefusal (TooDeep (place_at p.places bytes.now n)) result }
    ensures refused { IfErr result (CanRefuse bytes.now) }
{
    one_outcome();
    match read_tokens(alloc, tokens) {
        Ok(program) => Ok(program),
        Err(ReadError::Memory) => Err(SourceRefusal::OutOfMemory),
        Err(ReadError::Fault(fault)) => Err(refused(tokens, bytes, fault)),
    }
}

/// The bytes have at most one tree.
pub fn one_tree()
    ensures { (bytes : List ℕ) (a b : ProgramTree) → Reads bytes a → Reads bytes b → a ≡ b }
{
    one_outcome();
}

/// A law: what `show` gives for the tree of a source are the kinds of the tokens of its bytes.
pub fn shows_its_tokens()
    ensures { (bytes : List ℕ) (p : ProgramTree) (tokens : List LexedToken) → Reads bytes p → Lexes bytes (Ok tokens)
        → shown p ≡ kinds tokens }
{
    one_outcome();
}

/// The bytes have no tree of at most 64 levels beside a deeper one, and deeper ones have one first token beyond level
/// 64.
pub fn one_depth()
    ensures both { (bytes : List ℕ) (a b : ProgramTree) (n : ℕ) → Reads bytes a → Deep bytes b n → ⊥ }
    ensures same { (bytes : List ℕ) (a b : ProgramTree) (n m : ℕ) → Deep bytes a n → Deep bytes b m → n ≡ m }
{
    one_outcome();
}

/// A law: the first token beyond level 64 of a tree stands behind at least 64 others.
pub fn deep_is_far()
    ensures { (bytes : List ℕ) (p : ProgramTree) (n : ℕ) → Deep bytes p n → IsFar bytes (place_at p.places bytes n) }
{
    one_outcome();
}

// The refusal of bytes that the lexer refuses.
fn unlexed(refusal: LexRefusal) -> SourceRefusal
    ensures { result ≡ not_lexed refusal }
{
    match refusal {
        LexRefusal::OutOfMemory => SourceRefusal::OutOfMemory,
        LexRefusal::BadByte { at } => SourceRefusal::Lex(LexRefusal::BadByte { at }),
        LexRefusal::OpenComment { at } => SourceRefusal::Lex(LexRefusal::OpenComment { at }),
        LexRefusal::OpenText { at } => SourceRefusal::Lex(LexRefusal::OpenText { at }),
        LexRefusal::NumberTooLarge { at } => SourceRefusal::Lex(LexRefusal::NumberTooLarge { at }),
    }
}

// The refusal of a fault, at its place. Past the last token nothing is too deep: the source ends too early there.
fn refused(tokens: &[Token], bytes: &[u8], fault: Fault) -> SourceRefusal
    requires { length bytes.now + 2 < 2 ^ 32 }
    ensures { result ≡ refusal_of (places tokens.now) bytes.now fault }
{
    match fault {
        Fault::Syntax(at) => SourceRefusal::Syntax {
            at: place_of(tokens, bytes, at),
        },
        Fault::TooDeep(at) => match tokens.get(at) {
            Some(token) => SourceRefusal::TooDeep { at: token.at },
            None => SourceRefusal::Syntax {
                at: end_place(bytes),
            },
        },
    }
}

// The place of the token of this number, or the place just past the last byte.
fn place_of(tokens: &[Token], bytes: &[u8], at: usize) -> Pos
    requires { length bytes.now + 2 < 2 ^ 32 }
    ensures { result ≡ place_at (places tokens.now) bytes.now at }
{
    match tokens.get(at) {
        Some(token) => token.at,
        None => end_place(bytes),
    }
}

// The tree of the tokens.
#[tactic(auto, unfolding(crate::specs::Whole::whole))]
fn read_tokens(alloc: Global, tokens: &[Token]) -> Result<Program, ReadError>
    ensures { Gives program_of result (whole (kinds tokens.now) (places tokens.now)) }
{
    let (tops, next) = read_tops(alloc, tokens, 0)?;
    let (main, next) = read_main(alloc, tokens, next)?;
    if next == tokens.len() {
        let places = places_of(alloc, tokens)?;
        Ok(Program { tops, main, places })
    } else {
        Err(ReadError::Fault(Fault::Syntax(next)))
    }
}

// `main`, and the place after its `}`.
#[tactic(auto, unfolding(crate::specs::Whole::main_at))]
fn read_main(alloc: Global, tokens: &[Token], at: usize) -> Result<(Main, usize), ReadError>
    ensures { Gives (seen_by main_of) result (main_at (kinds tokens.now) at) }
{
    let at = after_word(tokens, Word::Int, at)?;
    let next = after_word(tokens, Word::Main, at)?;
    let next = after_sign(tokens, Sign::LeftParen, next)?;
    let next = after_word(tokens, Word::Int, next)?;
    let next = after_word(tokens, Word::Argc, next)?;
    let next = after_sign(tokens, Sign::Comma, next)?;
    let next = after_word(tokens, Word::Char, next)?;
    let (argv_has_brackets, next) = read_argv(tokens, next)?;
    let next = after_sign(tokens, Sign::RightParen, next)?;
    let next = after_sign(tokens, Sign::LeftBrace, next)?;
    let (body, exit_at) = read_hosts(alloc, tokens, 64, Closing::Exit, next)?;
    let next = after_word(tokens, Word::OpExit, exit_at)?;
    let next = after_sign(tokens, Sign::LeftParen, next)?;
    let next = after_sign(tokens, Sign::RightParen, next)?;
    let next = after_sign(tokens, Sign::Semicolon, next)?;
    let (returned, next) = read_return(tokens, next)?;
    let next = after_sign(tokens, Sign::RightBrace, next)?;
    Ok((
        Main {
            at,
            argv_has_brackets,
            body,
            exit_at,
            returned,
        },
        next,
    ))
}

// `**argv` or `*argv[]`: whether it has brackets, and the place after it.
#[tactic(auto, unfolding(crate::specs::Whole::argv_at))]
fn read_argv(tokens: &[Token], at: usize) -> Result<(bool, usize), ReadError>
    ensures { Gives (λ x. x) result (argv_at (kinds tokens.now) at) }
{
    let next = after_sign(tokens, Sign::Star, at)?;
    if is_sign(tokens, Sign::Star, next) {
        let next = after_word(tokens, Word::Argv, next + 1)?;
        Ok((false, next))
    } else {
        let next = after_word(tokens, Word::Argv, next)?;
        let next = after_sign(tokens, Sign::LeftBracket, next)?;
        let next = after_sign(tokens, Sign::RightBracket, next)?;
        Ok((true, next))
    }
}

// `return` and its number, where they stand there, and the place after them.
#[tactic(auto, unfolding(crate::specs::Whole::return_at))]
fn read_return(tokens: &[Token], at: usize) -> Result<(Option<NumberLiteral>, usize), ReadError>
    ensures { Gives (λ x. x) result (return_at (kinds tokens.now) at) }
{
    if is_word(tokens, Word::Return, at) {
        let (returned, next) = number(tokens, at + 1)?;
        let next = after_sign(tokens, Sign::Semicolon, next)?;
        Ok((Some(returned), next))
    } else {
        Ok((None, at))
    }
}

// The places of the tokens.
fn places_of(alloc: Global, tokens: &[Token]) -> Result<Vec<Pos>, AllocError>
    ensures { IfOk result (λ v. v.items ≡ places tokens.now) }
{
    let mut places = Vec::with_capacity(alloc, tokens.len())?;
    for token in tokens {
        places.push(token.at)?;
    }
    Ok(places)
}
