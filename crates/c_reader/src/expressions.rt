// Expressions, by descent. `depth` is how many levels of nesting are left.

ghost use Rattle.std.specs.Prelude.{◌≡◌, ◌+◌, ◌<◌, suc, slice_get, length, OnOk};
ghost use Rattle.c_tree.specs.View.{expr_of};
ghost use Rattle.c_reader.specs.Descent.{Gives, seen, front, led_by, worded_by, name_at, name_in, chain, choice, read as read_at};
ghost use Rattle.c_reader.specs.Leads.{lead_of, word_lead_of};
ghost use Rattle.c_reader.specs.Kinds.{kinds};

use crate::cursor::{after_sign, is_sign, operator};
use crate::faults::{Fault, ReadError};
use crate::leads::{Lead, WordLead, begun_by, begun_by_word, level};
use c_tree::{Expr, Ident, Kind, Name, NumberLiteral, Sign, Token, Word};
use std::alloc::Global;

/// How many operators may follow one another, each on the left of the next.
pub const LONGEST_CHAIN: usize = 128;

/// An expression of at least the level `min`, and the place after it.
#[cycle(expressions)]
#[tactic(auto, unfolding(crate::specs::Descent::read))]
pub fn read(
    alloc: Global,
    tokens: &[Token],
    depth: usize,
    min: usize,
    at: usize,
) -> Result<(Expr, usize), ReadError>
    ensures { Gives seen result (read_at (kinds tokens.now) depth min at) }
{
    if depth == 0 {
        return Err(ReadError::Fault(Fault::TooDeep(at)));
    }
    read_below(alloc, tokens, depth - 1, min, at)
}

#[cycle(expressions)]
#[tactic(auto, unfolding(crate::specs::Descent::read))]
fn read_below(
    alloc: Global,
    tokens: &[Token],
    depth: usize,
    min: usize,
    at: usize,
) -> Result<(Expr, usize), ReadError>
    ensures { Gives seen result (read_at (kinds tokens.now) (suc depth) min at) }
{
    let (first, next) = read_front(alloc, tokens, depth, at)?;
    let (left, next) = read_chain(alloc, tokens, depth, min, first, next)?;
    read_choice(alloc, tokens, depth, min, left, next)
}

// An expression up to its first binary operator or `?`.
#[cycle(expressions)]
#[tactic(auto, unfolding(crate::specs::Descent::front))]
fn read_front(
    alloc: Global,
    tokens: &[Token],
    depth: usize,
    at: usize,
) -> Result<(Expr, usize), ReadError>
    ensures { Gives seen result (front (kinds tokens.now) (read_at (kinds tokens.now) depth) at) }
{
    match tokens.get(at) {
        Some(token) => match &token.kind {
            Kind::Number(value) => Ok((Expr::Number(NumberLiteral { value: *value, at }), at + 1)),
            Kind::Name(name) => read_name(alloc, tokens, depth, name, at),
            Kind::Sign(sign) => read_led(alloc, tokens, depth, *sign, at),
            Kind::Word(word) => read_worded(alloc, tokens, depth, *word, at),
            Kind::Text(_) => Err(ReadError::Fault(Fault::Syntax(at))),
        },
        None => Err(ReadError::Fault(Fault::Syntax(at))),
    }
}

// A name, or a name with an index.
#[cycle(expressions)]
#[tactic(auto, unfolding(crate::specs::Descent::name_at))]
fn read_name(
    alloc: Global,
    tokens: &[Token],
    depth: usize,
    name: &Name,
    at: usize,
) -> Result<(Expr, usize), ReadError>
    requires { at < length tokens.now }
    ensures { Gives seen result (name_at (kinds tokens.now) (read_at (kinds tokens.now) depth) name.now at) }
{
    let name = name.clone()?;
    if is_sign(tokens, Sign::LeftBracket, at + 1) {
        let (index, next) = read(alloc, tokens, depth, 0, at + 2)?;
        let next = after_sign(tokens, Sign::RightBracket, next)?;
        let index = Box::new(alloc, index)?;
        let name = Ident { name, at };
        Ok((Expr::Index { name, index }, next))
    } else {
        Ok((Expr::Name(Ident { name, at }), at + 1))
    }
}

// What begins with a sign.
#[cycle(expressions)]
fn read_led(
    alloc: Global,
    tokens: &[Token],
    depth: usize,
    sign: Sign,
    at: usize,
) -> Result<(Expr, usize), ReadError>
    requires { at < length tokens.now }
    ensures { Gives seen result (led_by (kinds tokens.now) (read_at (kinds tokens.now) depth) (lead_of sign) at) }
{
    match begun_by(sign) {
        Lead::Paren => {
            let (inner, next) = read(alloc, tokens, depth, 0, at + 1)?;
            let next = after_sign(tokens, Sign::RightParen, next)?;
            let inner = Box::new(alloc, inner)?;
            Ok((Expr::Paren { at, inner }, next))
        }
        Lead::Deref => {
            let name = name_there(alloc, tokens, at + 1)?;
            Ok((
                Expr::Deref {
                    at,
                    name: Ident { name, at: at + 1 },
                },
                at + 2,
            ))
        }
        Lead::Unary(op) => {
            let (operand, next) = read(alloc, tokens, depth, 11, at + 1)?;
            let operand = Box::new(alloc, operand)?;
            Ok((Expr::Unary { op, at, operand }, next))
        }
        Lead::Nothing => Err(ReadError::Fault(Fault::Syntax(at))),
    }
}

// The name there.
fn name_there(alloc: Global, tokens: &[Token], at: usize) -> Result<Name, ReadError>
    ensures name { Gives (λ x. x) result (name_in (slice_get (kinds tokens.now) at) at) }
    ensures within { OnOk result (at < length tokens.now) }
{
    match tokens.get(at) {
        Some(token) => match &token.kind {
            Kind::Name(name) => Ok(name.clone()?),
            _ => Err(ReadError::Fault(Fault::Syntax(at))),
        },
        None => Err(ReadError::Fault(Fault::Syntax(at))),
    }
}

// What begins with a word.
#[cycle(expressions)]
fn read_worded(
    alloc: Global,
    tokens: &[Token],
    depth: usize,
    word: Word,
    at: usize,
) -> Result<(Expr, usize), ReadError>
    requires { at < length tokens.now }
    ensures { Gives seen result (worded_by (kinds tokens.now) (read_at (kinds tokens.now) depth) (word_lead_of word) at) }
{
    match begun_by_word(word) {
        WordLead::Extremum(which) => {
            let next = after_sign(tokens, Sign::LeftParen, at + 1)?;
            let (first, next) = read(alloc, tokens, depth, 0, next)?;
            let next = after_sign(tokens, Sign::Comma, next)?;
            let (second, next) = read(alloc, tokens, depth, 0, next)?;
            let next = after_sign(tokens, Sign::RightParen, next)?;
            let first = Box::new(alloc, first)?;
            let second = Box::new(alloc, second)?;
            Ok((
                Expr::Extremum {
                    which,
                    at,
                    first,
                    second,
                },
                next,
            ))
        }
        WordLead::Absolute => {
            let next = after_sign(tokens, Sign::LeftParen, at + 1)?;
            let (operand, next) = read(alloc, tokens, depth, 0, next)?;
            let next = after_sign(tokens, Sign::RightParen, next)?;
            let operand = Box::new(alloc, operand)?;
            Ok((Expr::Absolute { at, operand }, next))
        }
        WordLead::Nothing => Err(ReadError::Fault(Fault::Syntax(at))),
    }
}

// The operators of at least the level `min` behind a tree.
#[cycle(expressions)]
fn read_chain(
    alloc: Global,
    tokens: &[Token],
    depth: usize,
    min: usize,
    first: Expr,
    at: usize,
) -> Result<(Expr, usize), ReadError>
    ensures { Gives seen result (chain (kinds tokens.now) (read_at (kinds tokens.now) depth) LONGEST_CHAIN min (expr_of first) at) }
{
    let mut left = first;
    let mut next = at;
    for count in 0..LONGEST_CHAIN {
        let op = match operator(tokens, min, next) {
            Some(op) => op,
            None => return Ok((left, next)),
        };
        let (right, after) = read(alloc, tokens, depth, level(op) + 1, next + 1)?;
        left = Expr::Binary {
            op,
            at: next,
            left: Box::new(alloc, left)?,
            right: Box::new(alloc, right)?,
        };
        next = after;
    }
    match operator(tokens, min, next) {
        Some(_) => Err(ReadError::Fault(Fault::TooDeep(next))),
        None => Ok((left, next)),
    }
}

// The rest of a choice, where one may stand.
#[cycle(expressions)]
#[tactic(auto, unfolding(crate::specs::Descent::choice))]
fn read_choice(
    alloc: Global,
    tokens: &[Token],
    depth: usize,
    min: usize,
    condition: Expr,
    at: usize,
) -> Result<(Expr, usize), ReadError>
    ensures { Gives seen result (choice (kinds tokens.now) (read_at (kinds tokens.now) depth) min (expr_of condition) at) }
{
    if min != 0 || !is_sign(tokens, Sign::Question, at) {
        return Ok((condition, at));
    }
    let (if_true, next) = read(alloc, tokens, depth, 0, at + 1)?;
    let next = after_sign(tokens, Sign::Colon, next)?;
    let (if_false, next) = read(alloc, tokens, depth, 0, next)?;
    let condition = Box::new(alloc, condition)?;
    let if_true = Box::new(alloc, if_true)?;
    let if_false = Box::new(alloc, if_false)?;
    Ok((
        Expr::Choice {
            at,
            condition,
            if_true,
            if_false,
        },
        next,
    ))
}
