// Declarations of variables. `depth` is how many levels are left for their expressions.

ghost use Rattle.std.specs.Prelude.{◌≡◌, length};
ghost use Rattle.c_tree.specs.View.{declr_of, declaration_of};
ghost use Rattle.c_reader.specs.Descent.{Gives};
ghost use Rattle.c_reader.specs.Rows.{seen_by, items_seen, separated};
ghost use Rattle.c_reader.specs.Declarations.{unset, declr_at, declaration_behind, declaration_at};
ghost use Rattle.c_reader.specs.Kinds.{kinds};
ghost use Rattle.c_tree.specs.declared.lexer.tokens.Sign.TheVariants as the_sign;

use crate::cursor::{after_sign, after_word, ident, is_sign, is_word, number};
use crate::expressions;
use crate::faults::{Fault, ReadError};
use c_tree::{Declaration, Declr, Ident, Sign, Token, Word};
use std::alloc::Global;

/// A declaration, behind `const` or not, and the place after its `;`.
#[tactic(auto, unfolding(crate::specs::Declarations::declaration_at))]
pub fn read_declaration(
    alloc: Global,
    tokens: &[Token],
    depth: usize,
    at: usize,
) -> Result<(Declaration, usize), ReadError>
    ensures { Gives (seen_by declaration_of) result (declaration_at (kinds tokens.now) depth at) }
{
    if is_word(tokens, Word::Const, at) {
        read_behind_const(alloc, tokens, depth, true, at + 1)
    } else {
        read_behind_const(alloc, tokens, depth, false, at)
    }
}

// A declaration from its `int` on.
#[tactic(auto, unfolding(crate::specs::Declarations::declaration_behind))]
fn read_behind_const(
    alloc: Global,
    tokens: &[Token],
    depth: usize,
    is_const: bool,
    at: usize,
) -> Result<(Declaration, usize), ReadError>
    ensures { Gives (seen_by declaration_of) result (declaration_behind (kinds tokens.now) depth is_const at) }
{
    let next = after_word(tokens, Word::Int, at)?;
    let (declrs, next) = read_declrs(alloc, tokens, depth, is_const, next)?;
    Ok((
        Declaration {
            is_const,
            at,
            declrs,
        },
        next,
    ))
}

// The declared variables, up to the `;`.
fn read_declrs(
    alloc: Global,
    tokens: &[Token],
    depth: usize,
    is_const: bool,
    at: usize,
) -> Result<(Vec<Declr>, usize), ReadError>
    ensures { Gives (items_seen declr_of) result
        (separated (kinds tokens.now) (declr_at (kinds tokens.now) depth is_const) the_sign.Semicolon (length (kinds tokens.now)) at) }
{
    let mut all = Vec::new(alloc);
    let mut next = at;
    for count in 0..tokens.len() {
        let (one, after) = read_declr(alloc, tokens, depth, is_const, next)?;
        all.push(one)?;
        if !is_sign(tokens, Sign::Comma, after) {
            let next = after_sign(tokens, Sign::Semicolon, after)?;
            return Ok((all, next));
        }
        next = after + 1;
    }
    Err(ReadError::Fault(Fault::Syntax(next)))
}

// One declared variable, with its value where it is `const`.
#[tactic(auto, unfolding(crate::specs::Declarations::declr_at))]
fn read_declr(
    alloc: Global,
    tokens: &[Token],
    depth: usize,
    is_const: bool,
    at: usize,
) -> Result<(Declr, usize), ReadError>
    ensures { Gives (seen_by declr_of) result (declr_at (kinds tokens.now) depth is_const at) }
{
    let (name, next) = ident(alloc, tokens, at)?;
    if is_sign(tokens, Sign::Assign, next) {
        let (value, next) = expressions::read(alloc, tokens, depth, 0, next + 1)?;
        Ok((Declr::Init { name, value }, next))
    } else {
        read_unset(tokens, is_const, name, next)
    }
}

// One declared variable without a value.
fn read_unset(
    tokens: &[Token],
    is_const: bool,
    name: Ident,
    at: usize,
) -> Result<(Declr, usize), ReadError>
    ensures { Gives (seen_by declr_of) result (unset (kinds tokens.now) is_const name at) }
{
    if is_const {
        Err(ReadError::Fault(Fault::Syntax(at)))
    } else if is_sign(tokens, Sign::LeftBracket, at) {
        let (length, next) = number(tokens, at + 1)?;
        let next = after_sign(tokens, Sign::RightBracket, next)?;
        Ok((Declr::Array { name, length }, next))
    } else {
        Ok((Declr::Plain(name), at))
    }
}
