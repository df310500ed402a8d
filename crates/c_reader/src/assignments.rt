// Assignments. `depth` is how many levels are left for their expressions.

ghost use Rattle.std.specs.Prelude.{◌≡◌};
ghost use Rattle.c_tree.specs.View.{place_of, assignment_of};
ghost use Rattle.c_reader.specs.Descent.{Gives};
ghost use Rattle.c_reader.specs.Rows.{seen_by};
ghost use Rattle.c_reader.specs.Declarations.{place_at, assign_at, assignment_at};
ghost use Rattle.c_reader.specs.Kinds.{kinds};

use crate::cursor::{after_sign, ident, is_sign};
use crate::expressions;
use crate::faults::{Fault, ReadError};
use crate::leads::assign;
use c_tree::{AssignOp, Assignment, Kind, Place, Sign, Token};
use std::alloc::Global;

/// An assignment, and the place after its `;`.
#[tactic(auto, unfolding(crate::specs::Declarations::assignment_at))]
pub fn read_assignment(
    alloc: Global,
    tokens: &[Token],
    depth: usize,
    at: usize,
) -> Result<(Assignment, usize), ReadError>
    ensures { Gives (seen_by assignment_of) result (assignment_at (kinds tokens.now) depth at) }
{
    let (place, op_at) = read_place(alloc, tokens, depth, at)?;
    let (op, next) = assign_op(tokens, op_at)?;
    let (value, next) = expressions::read(alloc, tokens, depth, 0, next)?;
    let next = after_sign(tokens, Sign::Semicolon, next)?;
    Ok((
        Assignment {
            place,
            op,
            at: op_at,
            value,
        },
        next,
    ))
}

// A target, and the place after it.
#[tactic(auto, unfolding(crate::specs::Declarations::place_at))]
fn read_place(
    alloc: Global,
    tokens: &[Token],
    depth: usize,
    at: usize,
) -> Result<(Place, usize), ReadError>
    ensures { Gives (seen_by place_of) result (place_at (kinds tokens.now) depth at) }
{
    if is_sign(tokens, Sign::Star, at) {
        let (name, next) = ident(alloc, tokens, at + 1)?;
        return Ok((Place::Deref { at, name }, next));
    }
    let (name, next) = ident(alloc, tokens, at)?;
    if is_sign(tokens, Sign::LeftBracket, next) {
        let (index, next) = expressions::read(alloc, tokens, depth, 0, next + 1)?;
        let next = after_sign(tokens, Sign::RightBracket, next)?;
        Ok((Place::Index { name, index }, next))
    } else {
        Ok((Place::Name(name), next))
    }
}

// The sign of assignment there, and the place after it.
#[tactic(auto, unfolding(crate::specs::Declarations::assign_at))]
fn assign_op(tokens: &[Token], at: usize) -> Result<(AssignOp, usize), ReadError>
    ensures { Gives (λ x. x) result (assign_at (kinds tokens.now) at) }
{
    match tokens.get(at) {
        Some(token) => match &token.kind {
            Kind::Sign(sign) => match assign(*sign) {
                Some(op) => Ok((op, at + 1)),
                None => Err(ReadError::Fault(Fault::Syntax(at))),
            },
            _ => Err(ReadError::Fault(Fault::Syntax(at))),
        },
        None => Err(ReadError::Fault(Fault::Syntax(at))),
    }
}
