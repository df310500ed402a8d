// The arguments of a loop.

ghost use Rattle.std.specs.Prelude.{◌≡◌};
ghost use Rattle.c_reader.specs.Descent.{Gives};
ghost use Rattle.c_reader.specs.Rows.{items_seen};
ghost use Rattle.c_reader.specs.Arguments.{global_at, index_at, via_at, access_at, dat_arg, global_arg, arg_at, args_at};
ghost use Rattle.c_reader.specs.Kinds.{kinds};

use crate::cursor::{after_sign, after_word, ident, is_sign, is_word, number, text};
use crate::faults::{Fault, ReadError};
use crate::leads::access;
use c_tree::{AccessWord, ArgIndex, ArgVia, GlobalName, Kind, LoopArg, Sign, Token, Word};
use std::alloc::Global;

/// A variable, behind `&` or not, and the place after it.
#[tactic(auto, unfolding(crate::specs::Arguments::global_at))]
pub fn read_global(
    alloc: Global,
    tokens: &[Token],
    at: usize,
) -> Result<(GlobalName, usize), ReadError>
    ensures { Gives (λ x. x) result (global_at (kinds tokens.now) at) }
{
    if is_sign(tokens, Sign::And, at) {
        let (name, next) = ident(alloc, tokens, at + 1)?;
        let ampersand = Some(at);
        Ok((GlobalName { ampersand, name }, next))
    } else {
        let (name, next) = ident(alloc, tokens, at)?;
        let ampersand = None;
        Ok((GlobalName { ampersand, name }, next))
    }
}

// The index of an argument, and the place after it.
#[tactic(auto, unfolding(crate::specs::Arguments::index_at))]
fn read_index(tokens: &[Token], at: usize) -> Result<(ArgIndex, usize), ReadError>
    ensures { Gives (λ x. x) result (index_at (kinds tokens.now) at) }
{
    if is_sign(tokens, Sign::Minus, at) {
        let (found, next) = number(tokens, at + 1)?;
        let value = found.value;
        Ok((
            ArgIndex {
                is_negative: true,
                at,
                value,
            },
            next,
        ))
    } else {
        let (found, next) = number(tokens, at)?;
        let value = found.value;
        Ok((
            ArgIndex {
                is_negative: false,
                at,
                value,
            },
            next,
        ))
    }
}

// What an argument's index goes through, and the place after it.
#[tactic(auto, unfolding(crate::specs::Arguments::via_at))]
fn read_via(alloc: Global, tokens: &[Token], at: usize) -> Result<(ArgVia, usize), ReadError>
    ensures { Gives (λ x. x) result (via_at (kinds tokens.now) at) }
{
    if is_word(tokens, Word::OpId, at) {
        Ok((ArgVia::Identity(at), at + 1))
    } else {
        let (map, next) = ident(alloc, tokens, at)?;
        Ok((ArgVia::Map(map), next))
    }
}

// The access there, and the place after it.
#[tactic(auto, unfolding(crate::specs::Arguments::access_at))]
fn read_access(tokens: &[Token], at: usize) -> Result<(AccessWord, usize), ReadError>
    ensures { Gives (λ x. x) result (access_at (kinds tokens.now) at) }
{
    match tokens.get(at) {
        Some(token) => match &token.kind {
            Kind::Word(word) => match access(*word) {
                Some(access) => Ok((access, at + 1)),
                None => Err(ReadError::Fault(Fault::Syntax(at))),
            },
            _ => Err(ReadError::Fault(Fault::Syntax(at))),
        },
        None => Err(ReadError::Fault(Fault::Syntax(at))),
    }
}

// `op_arg_dat(..)`, and the place after it.
fn read_dat_arg(alloc: Global, tokens: &[Token], at: usize) -> Result<(LoopArg, usize), ReadError>
    ensures { Gives (λ x. x) result (dat_arg (kinds tokens.now) at) }
{
    let next = after_word(tokens, Word::OpArgDat, at)?;
    let next = after_sign(tokens, Sign::LeftParen, next)?;
    let (dat, next) = ident(alloc, tokens, next)?;
    let next = after_sign(tokens, Sign::Comma, next)?;
    let (index, next) = read_index(tokens, next)?;
    let next = after_sign(tokens, Sign::Comma, next)?;
    let (via, next) = read_via(alloc, tokens, next)?;
    let next = after_sign(tokens, Sign::Comma, next)?;
    let (dim, next) = number(tokens, next)?;
    let next = after_sign(tokens, Sign::Comma, next)?;
    let (type_text, next) = text(alloc, tokens, next)?;
    let access_at = after_sign(tokens, Sign::Comma, next)?;
    let (access, next) = read_access(tokens, access_at)?;
    let next = after_sign(tokens, Sign::RightParen, next)?;
    Ok((
        LoopArg::Dat {
            at,
            dat,
            index,
            via,
            dim,
            type_text,
            access,
            access_at,
        },
        next,
    ))
}

// `op_arg_gbl(..)`, and the place after it.
fn read_global_arg(
    alloc: Global,
    tokens: &[Token],
    at: usize,
) -> Result<(LoopArg, usize), ReadError>
    ensures { Gives (λ x. x) result (global_arg (kinds tokens.now) at) }
{
    let next = after_word(tokens, Word::OpArgGbl, at)?;
    let next = after_sign(tokens, Sign::LeftParen, next)?;
    let (global, next) = read_global(alloc, tokens, next)?;
    let next = after_sign(tokens, Sign::Comma, next)?;
    let (dim, next) = number(tokens, next)?;
    let next = after_sign(tokens, Sign::Comma, next)?;
    let (type_text, next) = text(alloc, tokens, next)?;
    let access_at = after_sign(tokens, Sign::Comma, next)?;
    let (access, next) = read_access(tokens, access_at)?;
    let next = after_sign(tokens, Sign::RightParen, next)?;
    Ok((
        LoopArg::Global {
            at,
            global,
            dim,
            type_text,
            access,
            access_at,
        },
        next,
    ))
}

// An argument, and the place after it.
#[tactic(auto, unfolding(crate::specs::Arguments::arg_at))]
fn read_arg(alloc: Global, tokens: &[Token], at: usize) -> Result<(LoopArg, usize), ReadError>
    ensures { Gives (λ x. x) result (arg_at (kinds tokens.now) at) }
{
    if is_word(tokens, Word::OpArgGbl, at) {
        read_global_arg(alloc, tokens, at)
    } else {
        read_dat_arg(alloc, tokens, at)
    }
}

/// The arguments, each behind a comma, and the place after them.
pub fn read_args(
    alloc: Global,
    tokens: &[Token],
    at: usize,
) -> Result<(Vec<LoopArg>, usize), ReadError>
    ensures { Gives (items_seen (λ x. x)) result (args_at (kinds tokens.now) at) }
{
    let mut all = Vec::new(alloc);
    let mut next = at;
    for count in 0..tokens.len() {
        if !is_sign(tokens, Sign::Comma, next) {
            return Ok((all, next));
        }
        let (one, after) = read_arg(alloc, tokens, next + 1)?;
        all.push(one)?;
        next = after;
    }
    Err(ReadError::Fault(Fault::Syntax(next)))
}
