// Statements of kernels, by descent. `depth` is how many levels of nesting are left.

ghost use Rattle.std.specs.Prelude.{◌≡◌, slice_get};
ghost use Rattle.c_tree.specs.View.{expr_of, stmt_of};
ghost use Rattle.c_reader.specs.Descent.{Gives};
ghost use Rattle.c_reader.specs.Rows.{seen_by, items_seen};
ghost use Rattle.c_reader.specs.Statements.{condition_at, same_ident as same_at, for_header_at, lead_in, body_at, stmts_in, if_at};
ghost use Rattle.c_reader.specs.Statements.{stmt_led, stmt_at};
ghost use Rattle.c_reader.specs.Kinds.{kinds};
ghost use Rattle.c_reader.specs.declared.leads.StmtLead.TheVariants as led;

use crate::assignments::read_assignment;
use crate::cursor::{after_sign, after_word, ident, is_sign, is_word, number};
use crate::declarations::read_declaration;
use crate::expressions;
use crate::faults::{Fault, ReadError};
use crate::leads::{StmtLead, stmt_begun_by};
use c_tree::{Expr, ForHeader, Ident, Sign, Stmt, Token, Word};
use std::alloc::Global;

/// The head of an `if`, and the place after its `)`.
pub fn read_condition(
    alloc: Global,
    tokens: &[Token],
    depth: usize,
    at: usize,
) -> Result<(Expr, usize), ReadError>
    ensures { Gives (seen_by expr_of) result (condition_at (kinds tokens.now) depth at) }
{
    let next = after_word(tokens, Word::If, at)?;
    let next = after_sign(tokens, Sign::LeftParen, next)?;
    let (condition, next) = expressions::read(alloc, tokens, depth, 0, next)?;
    let next = after_sign(tokens, Sign::RightParen, next)?;
    Ok((condition, next))
}

/// The name there, which is to be the same as `name`, and the place after it.
#[tactic(auto, unfolding(crate::specs::Statements::same_ident))]
pub fn same_ident(
    alloc: Global,
    tokens: &[Token],
    name: &Ident,
    at: usize,
) -> Result<(Ident, usize), ReadError>
    ensures { Gives (λ x. x) result (same_at (kinds tokens.now) name.now at) }
{
    let (found, next) = ident(alloc, tokens, at)?;
    if found.name == name.name {
        Ok((found, next))
    } else {
        Err(ReadError::Fault(Fault::Syntax(at)))
    }
}

// The head of a `for`, and the place after its `)`.
#[tactic(auto, unfolding(crate::specs::Statements::for_header_at))]
fn read_for_header(
    alloc: Global,
    tokens: &[Token],
    at: usize,
) -> Result<(ForHeader, usize), ReadError>
    ensures { Gives (λ x. x) result (for_header_at (kinds tokens.now) at) }
{
    let next = after_word(tokens, Word::For, at)?;
    let next = after_sign(tokens, Sign::LeftParen, next)?;
    let next = after_word(tokens, Word::Int, next)?;
    let (name, next) = ident(alloc, tokens, next)?;
    let next = after_sign(tokens, Sign::Assign, next)?;
    let (from, next) = number(tokens, next)?;
    let next = after_sign(tokens, Sign::Semicolon, next)?;
    let (tested, next) = same_ident(alloc, tokens, &name, next)?;
    let next = after_sign(tokens, Sign::Less, next)?;
    let (to, next) = number(tokens, next)?;
    let next = after_sign(tokens, Sign::Semicolon, next)?;
    let (stepped, next) = same_ident(alloc, tokens, &name, next)?;
    let next = after_sign(tokens, Sign::PlusPlus, next)?;
    let next = after_sign(tokens, Sign::RightParen, next)?;
    Ok((
        ForHeader {
            at,
            name,
            from,
            tested,
            to,
            stepped,
        },
        next,
    ))
}

/// A statement, and the place after it.
#[cycle(statements)]
#[tactic(auto, unfolding(crate::specs::Statements::stmt_at))]
pub fn read_stmt(
    alloc: Global,
    tokens: &[Token],
    depth: usize,
    at: usize,
) -> Result<(Stmt, usize), ReadError>
    ensures { Gives (seen_by stmt_of) result (stmt_at (kinds tokens.now) depth at) }
{
    if depth == 0 {
        return Err(ReadError::Fault(Fault::TooDeep(at)));
    }
    read_led(alloc, tokens, depth - 1, at)
}

// A statement, by its first token.
#[cycle(statements)]
fn read_led(
    alloc: Global,
    tokens: &[Token],
    depth: usize,
    at: usize,
) -> Result<(Stmt, usize), ReadError>
    ensures { Gives (seen_by stmt_of) result
        (stmt_led (kinds tokens.now) depth (stmt_at (kinds tokens.now) depth) (lead_in (slice_get (kinds tokens.now) at)) at) }
{
    match stmt_lead(tokens, at) {
        StmtLead::Declaration => {
            let (declaration, next) = read_declaration(alloc, tokens, depth, at)?;
            Ok((Stmt::Declaration(declaration), next))
        }
        StmtLead::Block => read_block(alloc, tokens, depth, at),
        StmtLead::Empty => {
            let next = after_sign(tokens, Sign::Semicolon, at)?;
            Ok((Stmt::Empty(at), next))
        }
        StmtLead::Assignment => {
            let (assignment, next) = read_assignment(alloc, tokens, depth, at)?;
            Ok((Stmt::Assign(assignment), next))
        }
        StmtLead::If => read_if(alloc, tokens, depth, at),
        StmtLead::For => read_for(alloc, tokens, depth, at),
        StmtLead::Nothing => Err(ReadError::Fault(Fault::Syntax(at))),
    }
}

// A block.
#[cycle(statements)]
fn read_block(
    alloc: Global,
    tokens: &[Token],
    depth: usize,
    at: usize,
) -> Result<(Stmt, usize), ReadError>
    ensures { Gives (seen_by stmt_of) result (stmt_led (kinds tokens.now) depth (stmt_at (kinds tokens.now) depth) led.Block at) }
{
    let next = after_sign(tokens, Sign::LeftBrace, at)?;
    let (body, next) = read_stmts(alloc, tokens, depth, next)?;
    let next = after_sign(tokens, Sign::RightBrace, next)?;
    Ok((Stmt::Block { at, body }, next))
}

// A `for`.
#[cycle(statements)]
fn read_for(
    alloc: Global,
    tokens: &[Token],
    depth: usize,
    at: usize,
) -> Result<(Stmt, usize), ReadError>
    ensures { Gives (seen_by stmt_of) result (stmt_led (kinds tokens.now) depth (stmt_at (kinds tokens.now) depth) led.For at) }
{
    let (header, next) = read_for_header(alloc, tokens, at)?;
    let (body, next) = read_body(alloc, tokens, depth, next)?;
    Ok((Stmt::For { header, body }, next))
}

// What the token there begins.
fn stmt_lead(tokens: &[Token], at: usize) -> StmtLead
    ensures { result ≡ lead_in (slice_get (kinds tokens.now) at) }
{
    match tokens.get(at) {
        Some(token) => stmt_begun_by(&token.kind),
        None => StmtLead::Nothing,
    }
}

// An `if`, with the `else` that stands directly behind its first branch.
#[cycle(statements)]
#[tactic(auto, unfolding(crate::specs::Statements::if_at))]
fn read_if(
    alloc: Global,
    tokens: &[Token],
    depth: usize,
    at: usize,
) -> Result<(Stmt, usize), ReadError>
    ensures { Gives (seen_by stmt_of) result (if_at (kinds tokens.now) depth (stmt_at (kinds tokens.now) depth) at) }
{
    let (condition, next) = read_condition(alloc, tokens, depth, at)?;
    let (then, next) = read_body(alloc, tokens, depth, next)?;
    if is_word(tokens, Word::Else, next) {
        let (otherwise, next) = read_body(alloc, tokens, depth, next + 1)?;
        Ok((
            Stmt::IfElse {
                at,
                condition,
                then,
                otherwise,
            },
            next,
        ))
    } else {
        Ok((
            Stmt::If {
                at,
                condition,
                then,
            },
            next,
        ))
    }
}

// The whole body of an `if` or a `for`, which is no declaration, in a box.
#[cycle(statements)]
fn read_body(
    alloc: Global,
    tokens: &[Token],
    depth: usize,
    at: usize,
) -> Result<(Box<Stmt>, usize), ReadError>
    ensures { Gives (seen_by (λ b. stmt_of b.value)) result (body_at (kinds tokens.now) (stmt_at (kinds tokens.now) depth) at) }
{
    if is_word(tokens, Word::Int, at) {
        return Err(ReadError::Fault(Fault::Syntax(at)));
    }
    let (body, next) = read_stmt(alloc, tokens, depth, at)?;
    Ok((Box::new(alloc, body)?, next))
}

/// The statements before the `}` that closes them, and its place.
#[cycle(statements)]
pub fn read_stmts(
    alloc: Global,
    tokens: &[Token],
    depth: usize,
    at: usize,
) -> Result<(Vec<Stmt>, usize), ReadError>
    ensures { Gives (items_seen stmt_of) result (stmts_in (kinds tokens.now) (stmt_at (kinds tokens.now) depth) at) }
{
    let mut all = Vec::new(alloc);
    let mut next = at;
    for count in 0..tokens.len() {
        if is_sign(tokens, Sign::RightBrace, next) {
            return Ok((all, next));
        }
        let (one, after) = read_stmt(alloc, tokens, depth, next)?;
        all.push(one)?;
        next = after;
    }
    Err(ReadError::Fault(Fault::Syntax(next)))
}
