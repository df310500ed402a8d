// Statements of `main`, by descent. `depth` is how many levels of nesting are left.

ghost use Rattle.std.specs.Prelude.{◌≡◌, slice_get};
ghost use Rattle.c_tree.specs.View.{host_of, host_for_header_of};
ghost use Rattle.c_reader.specs.Descent.{Gives};
ghost use Rattle.c_reader.specs.Rows.{seen_by, items_seen};
ghost use Rattle.c_reader.specs.Hosts.{for_header_at, lead_in, declares as declares_at, body_at, is_closed as is_closed_at, hosts_in};
ghost use Rattle.c_reader.specs.Hosts.{if_at, host_led, host_at};
ghost use Rattle.c_reader.specs.Kinds.{kinds};
ghost use Rattle.c_reader.specs.declared.leads.HostLead.TheVariants as led;

use crate::assignments::read_assignment;
use crate::calls::read_call;
use crate::cursor::{after_sign, after_word, ident, is_sign, is_word};
use crate::declarations::read_declaration;
use crate::expressions;
use crate::faults::{Fault, ReadError};
use crate::leads::{HostLead, host_begun_by};
use crate::statements::{read_condition, same_ident};
use c_tree::{Host, HostForHeader, Sign, Token, Word};
use std::alloc::Global;

/// What the statements of a block end with.
#[derive(Clone, Copy)]
pub enum Closing {
    Brace,
    Exit,
}

// The head of a `for`, and the place after its `)`.
#[tactic(auto, unfolding(crate::specs::Hosts::for_header_at))]
fn read_for_header(
    alloc: Global,
    tokens: &[Token],
    depth: usize,
    at: usize,
) -> Result<(HostForHeader, usize), ReadError>
    ensures { Gives (seen_by host_for_header_of) result (for_header_at (kinds tokens.now) depth at) }
{
    let next = after_word(tokens, Word::For, at)?;
    let next = after_sign(tokens, Sign::LeftParen, next)?;
    let next = after_word(tokens, Word::Int, next)?;
    let (name, next) = ident(alloc, tokens, next)?;
    let next = after_sign(tokens, Sign::Assign, next)?;
    let (from, next) = expressions::read(alloc, tokens, depth, 0, next)?;
    let next = after_sign(tokens, Sign::Semicolon, next)?;
    let (tested, next) = same_ident(alloc, tokens, &name, next)?;
    let next = after_sign(tokens, Sign::Less, next)?;
    let (to, next) = expressions::read(alloc, tokens, depth, 0, next)?;
    let next = after_sign(tokens, Sign::Semicolon, next)?;
    let (stepped, next) = same_ident(alloc, tokens, &name, next)?;
    let next = after_sign(tokens, Sign::PlusPlus, next)?;
    let next = after_sign(tokens, Sign::RightParen, next)?;
    Ok((
        HostForHeader {
            at,
            name,
            from,
            tested,
            to,
            stepped,
        },
        next,
    ))
}

/// A statement, and the place after it.
#[cycle(hosts)]
#[tactic(auto, unfolding(crate::specs::Hosts::host_at))]
pub fn read_host(
    alloc: Global,
    tokens: &[Token],
    depth: usize,
    at: usize,
) -> Result<(Host, usize), ReadError>
    ensures { Gives (seen_by host_of) result (host_at (kinds tokens.now) depth at) }
{
    if depth == 0 {
        return Err(ReadError::Fault(Fault::TooDeep(at)));
    }
    read_led(alloc, tokens, depth - 1, at)
}

// A statement, by its first token.
#[cycle(hosts)]
fn read_led(
    alloc: Global,
    tokens: &[Token],
    depth: usize,
    at: usize,
) -> Result<(Host, usize), ReadError>
    ensures { Gives (seen_by host_of) result
        (host_led (kinds tokens.now) depth (host_at (kinds tokens.now) depth) (lead_in (slice_get (kinds tokens.now) at)) at) }
{
    match host_lead(tokens, at) {
        HostLead::Declaration => {
            let (declaration, next) = read_declaration(alloc, tokens, depth, at)?;
            Ok((Host::Declaration(declaration), next))
        }
        HostLead::Block => read_block(alloc, tokens, depth, at),
        HostLead::Empty => {
            let next = after_sign(tokens, Sign::Semicolon, at)?;
            Ok((Host::Empty(at), next))
        }
        HostLead::Assignment => {
            let (assignment, next) = read_assignment(alloc, tokens, depth, at)?;
            Ok((Host::Assign(assignment), next))
        }
        HostLead::If => read_if(alloc, tokens, depth, at),
        HostLead::For => read_for(alloc, tokens, depth, at),
        HostLead::Call(lead) => {
            let (call, next) = read_call(alloc, tokens, depth, lead, at)?;
            Ok((Host::Call(call), next))
        }
        HostLead::Nothing => Err(ReadError::Fault(Fault::Syntax(at))),
    }
}

// A block.
#[cycle(hosts)]
fn read_block(
    alloc: Global,
    tokens: &[Token],
    depth: usize,
    at: usize,
) -> Result<(Host, usize), ReadError>
    ensures { Gives (seen_by host_of) result (host_led (kinds tokens.now) depth (host_at (kinds tokens.now) depth) led.Block at) }
{
    let next = after_sign(tokens, Sign::LeftBrace, at)?;
    let (body, next) = read_hosts(alloc, tokens, depth, Closing::Brace, next)?;
    let next = after_sign(tokens, Sign::RightBrace, next)?;
    Ok((Host::Block { at, body }, next))
}

// A `for`.
#[cycle(hosts)]
fn read_for(
    alloc: Global,
    tokens: &[Token],
    depth: usize,
    at: usize,
) -> Result<(Host, usize), ReadError>
    ensures { Gives (seen_by host_of) result (host_led (kinds tokens.now) depth (host_at (kinds tokens.now) depth) led.For at) }
{
    let (header, next) = read_for_header(alloc, tokens, depth, at)?;
    let (body, next) = read_body(alloc, tokens, depth, next)?;
    Ok((Host::For { header, body }, next))
}

// What the token there begins.
fn host_lead(tokens: &[Token], at: usize) -> HostLead
    ensures { result ≡ lead_in (slice_get (kinds tokens.now) at) }
{
    match tokens.get(at) {
        Some(token) => host_begun_by(&token.kind),
        None => HostLead::Nothing,
    }
}

// An `if`, with the `else` that stands directly behind its first branch.
#[cycle(hosts)]
#[tactic(auto, unfolding(crate::specs::Hosts::if_at))]
fn read_if(
    alloc: Global,
    tokens: &[Token],
    depth: usize,
    at: usize,
) -> Result<(Host, usize), ReadError>
    ensures { Gives (seen_by host_of) result (if_at (kinds tokens.now) depth (host_at (kinds tokens.now) depth) at) }
{
    let (condition, next) = read_condition(alloc, tokens, depth, at)?;
    let (then, next) = read_body(alloc, tokens, depth, next)?;
    if is_word(tokens, Word::Else, next) {
        let (otherwise, next) = read_body(alloc, tokens, depth, next + 1)?;
        Ok((
            Host::IfElse {
                at,
                condition,
                then,
                otherwise,
            },
            next,
        ))
    } else {
        Ok((
            Host::If {
                at,
                condition,
                then,
            },
            next,
        ))
    }
}

// The whole body of an `if` or a `for`, which is no declaration, in a box.
#[cycle(hosts)]
fn read_body(
    alloc: Global,
    tokens: &[Token],
    depth: usize,
    at: usize,
) -> Result<(Box<Host>, usize), ReadError>
    ensures { Gives (seen_by (λ b. host_of b.value)) result (body_at (kinds tokens.now) (host_at (kinds tokens.now) depth) at) }
{
    if declares(tokens, at) {
        return Err(ReadError::Fault(Fault::Syntax(at)));
    }
    let (body, next) = read_host(alloc, tokens, depth, at)?;
    Ok((Box::new(alloc, body)?, next))
}

// Whether a declaration begins there.
fn declares(tokens: &[Token], at: usize) -> bool
    ensures { result ≡ declares_at (slice_get (kinds tokens.now) at) }
{
    is_word(tokens, Word::Int, at) || is_word(tokens, Word::Const, at)
}

/// The statements before the token that closes them, and its place.
#[cycle(hosts)]
pub fn read_hosts(
    alloc: Global,
    tokens: &[Token],
    depth: usize,
    closing: Closing,
    at: usize,
) -> Result<(Vec<Host>, usize), ReadError>
    ensures { Gives (items_seen host_of) result (hosts_in (kinds tokens.now) closing (host_at (kinds tokens.now) depth) at) }
{
    let mut all = Vec::new(alloc);
    let mut next = at;
    for count in 0..tokens.len() {
        if is_closed(tokens, closing, next) {
            return Ok((all, next));
        }
        let (one, after) = read_host(alloc, tokens, depth, next)?;
        all.push(one)?;
        next = after;
    }
    Err(ReadError::Fault(Fault::Syntax(next)))
}

// Whether what closes the statements stands there.
fn is_closed(tokens: &[Token], closing: Closing, at: usize) -> bool
    ensures { result ≡ is_closed_at (kinds tokens.now) closing at }
{
    match closing {
        Closing::Brace => is_sign(tokens, Sign::RightBrace, at),
        Closing::Exit => is_word(tokens, Word::OpExit, at),
    }
}
