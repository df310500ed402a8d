// What stands at a place among the tokens.

ghost use Rattle.std.specs.Prelude.{◌≡◌, ◌<◌, slice_get, IsTrue, OnSome, length};
ghost use Rattle.c_reader.specs.Descent.{Gives, sign_is, sign_at, operator_at};
ghost use Rattle.c_reader.specs.Rows.{word_is, word_at, ident as ident_at, number as number_at, text as text_at};
ghost use Rattle.c_reader.specs.Kinds.{kinds};

use crate::faults::{Fault, ReadError};
use crate::leads::{binary, level};
use c_tree::{BinaryOp, Ident, Kind, NumberLiteral, Sign, TextLiteral, Token, Word};
use std::alloc::Global;

/// Whether this sign stands there.
pub fn is_sign(tokens: &[Token], sign: Sign, at: usize) -> bool
    ensures is { result ≡ sign_is sign (slice_get (kinds tokens.now) at) }
    ensures within { IsTrue result → at < length tokens.now }
{
    match tokens.get(at) {
        Some(token) => match &token.kind {
            Kind::Sign(found) => *found == sign,
            _ => false,
        },
        None => false,
    }
}

/// Whether this word stands there.
pub fn is_word(tokens: &[Token], word: Word, at: usize) -> bool
    ensures is { result ≡ word_is word (slice_get (kinds tokens.now) at) }
    ensures within { IsTrue result → at < length tokens.now }
{
    match tokens.get(at) {
        Some(token) => match &token.kind {
            Kind::Word(found) => *found == word,
            _ => false,
        },
        None => false,
    }
}

/// The place after this sign.
#[tactic(auto, unfolding(crate::specs::Descent::sign_at))]
pub fn after_sign(tokens: &[Token], sign: Sign, at: usize) -> Result<usize, ReadError>
    ensures { Gives (λ x. x) result (sign_at (kinds tokens.now) sign at) }
{
    if is_sign(tokens, sign, at) {
        Ok(at + 1)
    } else {
        Err(ReadError::Fault(Fault::Syntax(at)))
    }
}

/// The place after this word.
#[tactic(auto, unfolding(crate::specs::Rows::word_at))]
pub fn after_word(tokens: &[Token], word: Word, at: usize) -> Result<usize, ReadError>
    ensures { Gives (λ x. x) result (word_at (kinds tokens.now) word at) }
{
    if is_word(tokens, word, at) {
        Ok(at + 1)
    } else {
        Err(ReadError::Fault(Fault::Syntax(at)))
    }
}

/// The name there, and the place after it.
#[tactic(auto, unfolding(crate::specs::Rows::ident))]
pub fn ident(alloc: Global, tokens: &[Token], at: usize) -> Result<(Ident, usize), ReadError>
    ensures { Gives (λ x. x) result (ident_at (kinds tokens.now) at) }
{
    match tokens.get(at) {
        Some(token) => match &token.kind {
            Kind::Name(name) => {
                let name = name.clone()?;
                Ok((Ident { name, at }, at + 1))
            }
            _ => Err(ReadError::Fault(Fault::Syntax(at))),
        },
        None => Err(ReadError::Fault(Fault::Syntax(at))),
    }
}

/// The number there, and the place after it.
#[tactic(auto, unfolding(crate::specs::Rows::number))]
pub fn number(tokens: &[Token], at: usize) -> Result<(NumberLiteral, usize), ReadError>
    ensures { Gives (λ x. x) result (number_at (kinds tokens.now) at) }
{
    match tokens.get(at) {
        Some(token) => match &token.kind {
            Kind::Number(value) => Ok((NumberLiteral { value: *value, at }, at + 1)),
            _ => Err(ReadError::Fault(Fault::Syntax(at))),
        },
        None => Err(ReadError::Fault(Fault::Syntax(at))),
    }
}

/// The text there, and the place after it.
#[tactic(auto, unfolding(crate::specs::Rows::text))]
pub fn text(alloc: Global, tokens: &[Token], at: usize) -> Result<(TextLiteral, usize), ReadError>
    ensures { Gives (λ x. x) result (text_at (kinds tokens.now) at) }
{
    match tokens.get(at) {
        Some(token) => match &token.kind {
            Kind::Text(text) => {
                let text = text.clone()?;
                Ok((TextLiteral { text, at }, at + 1))
            }
            _ => Err(ReadError::Fault(Fault::Syntax(at))),
        },
        None => Err(ReadError::Fault(Fault::Syntax(at))),
    }
}

/// The binary operator there, if it is of at least this level.
#[tactic(auto, unfolding(crate::specs::Descent::operator_at))]
pub fn operator(tokens: &[Token], min: usize, at: usize) -> Option<BinaryOp>
    ensures is { result ≡ operator_at (kinds tokens.now) min at }
    ensures within { OnSome result (at < length tokens.now) }
{
    match tokens.get(at) {
        Some(token) => match &token.kind {
            Kind::Sign(sign) => match binary(*sign) {
                Some(op) => { if min <= level(op) { Some(op) } else { None } }
                None => None,
            },
            _ => None,
        },
        None => None,
    }
}
