// Calls of the library in `main`. `depth` is how many levels are left for their expressions.

ghost use Rattle.std.specs.Prelude.{◌≡◌};
ghost use Rattle.c_tree.specs.View.{expr_of, call_of};
ghost use Rattle.c_reader.specs.declared.leads.CallLead.TheVariants as call_lead;
ghost use Rattle.c_reader.specs.Descent.{Gives};
ghost use Rattle.c_reader.specs.Rows.{seen_by, items_seen};
ghost use Rattle.c_reader.specs.Calls.{close, call_at, values_at};
ghost use Rattle.c_reader.specs.Kinds.{kinds};

use crate::cursor::{after_sign, after_word, ident, is_sign, number, text};
use crate::expressions;
use crate::faults::{Fault, ReadError};
use crate::leads::CallLead;
use crate::loop_args::{read_args, read_global};
use c_tree::{Expr, OpCall, Sign, Token, Word};
use std::alloc::Global;

/// The call that its first token begins, and the place after its `;`.
pub fn read_call(
    alloc: Global,
    tokens: &[Token],
    depth: usize,
    lead: CallLead,
    at: usize,
) -> Result<(OpCall, usize), ReadError>
    ensures { Gives (seen_by call_of) result (call_at (kinds tokens.now) depth lead at) }
{
    match lead {
        CallLead::Init => read_init(tokens, at),
        CallLead::DeclSet => read_decl_set(alloc, tokens, depth, at),
        CallLead::DeclMap => read_decl_map(alloc, tokens, at),
        CallLead::DeclDat => read_decl_dat(alloc, tokens, at),
        CallLead::DeclConst => read_decl_const(alloc, tokens, at),
        CallLead::ParLoop => read_par_loop(alloc, tokens, at),
        CallLead::Printf => read_printf(alloc, tokens, depth, at),
        CallLead::PrintDat => read_print_dat(alloc, tokens, at),
    }
}

// The place after the `)` and the `;` that end a call.
fn after_close(tokens: &[Token], at: usize) -> Result<usize, ReadError>
    ensures { Gives (λ x. ((tt, tt), x)) result (close (kinds tokens.now) at) }
{
    let next = after_sign(tokens, Sign::RightParen, at)?;
    after_sign(tokens, Sign::Semicolon, next)
}

fn read_init(tokens: &[Token], at: usize) -> Result<(OpCall, usize), ReadError>
    ensures { Gives (seen_by call_of) result (call_at (kinds tokens.now) 0 call_lead.Init at) }
{
    let next = after_word(tokens, Word::OpInit, at)?;
    let next = after_sign(tokens, Sign::LeftParen, next)?;
    let next = after_word(tokens, Word::Argc, next)?;
    let next = after_sign(tokens, Sign::Comma, next)?;
    let next = after_word(tokens, Word::Argv, next)?;
    let next = after_sign(tokens, Sign::Comma, next)?;
    let (level, next) = number(tokens, next)?;
    let next = after_close(tokens, next)?;
    Ok((OpCall::Init { at, level }, next))
}

fn read_decl_set(
    alloc: Global,
    tokens: &[Token],
    depth: usize,
    at: usize,
) -> Result<(OpCall, usize), ReadError>
    ensures { Gives (seen_by call_of) result (call_at (kinds tokens.now) depth call_lead.DeclSet at) }
{
    let next = after_word(tokens, Word::OpSet, at)?;
    let (name, next) = ident(alloc, tokens, next)?;
    let at = after_sign(tokens, Sign::Assign, next)?;
    let next = after_word(tokens, Word::OpDeclSet, at)?;
    let next = after_sign(tokens, Sign::LeftParen, next)?;
    let (size, next) = expressions::read(alloc, tokens, depth, 0, next)?;
    let next = after_sign(tokens, Sign::Comma, next)?;
    let (label, next) = text(alloc, tokens, next)?;
    let next = after_close(tokens, next)?;
    Ok((
        OpCall::DeclSet {
            at,
            name,
            size,
            label,
        },
        next,
    ))
}

fn read_decl_map(alloc: Global, tokens: &[Token], at: usize) -> Result<(OpCall, usize), ReadError>
    ensures { Gives (seen_by call_of) result (call_at (kinds tokens.now) 0 call_lead.DeclMap at) }
{
    let next = after_word(tokens, Word::OpMap, at)?;
    let (name, next) = ident(alloc, tokens, next)?;
    let at = after_sign(tokens, Sign::Assign, next)?;
    let next = after_word(tokens, Word::OpDeclMap, at)?;
    let next = after_sign(tokens, Sign::LeftParen, next)?;
    let (from, next) = ident(alloc, tokens, next)?;
    let next = after_sign(tokens, Sign::Comma, next)?;
    let (to, next) = ident(alloc, tokens, next)?;
    let next = after_sign(tokens, Sign::Comma, next)?;
    let (dim, next) = number(tokens, next)?;
    let next = after_sign(tokens, Sign::Comma, next)?;
    let (values, next) = ident(alloc, tokens, next)?;
    let next = after_sign(tokens, Sign::Comma, next)?;
    let (label, next) = text(alloc, tokens, next)?;
    let next = after_close(tokens, next)?;
    Ok((
        OpCall::DeclMap {
            at,
            name,
            from,
            to,
            dim,
            values,
            label,
        },
        next,
    ))
}

fn read_decl_dat(alloc: Global, tokens: &[Token], at: usize) -> Result<(OpCall, usize), ReadError>
    ensures { Gives (seen_by call_of) result (call_at (kinds tokens.now) 0 call_lead.DeclDat at) }
{
    let next = after_word(tokens, Word::OpDat, at)?;
    let (name, next) = ident(alloc, tokens, next)?;
    let at = after_sign(tokens, Sign::Assign, next)?;
    let next = after_word(tokens, Word::OpDeclDat, at)?;
    let next = after_sign(tokens, Sign::LeftParen, next)?;
    let (set, next) = ident(alloc, tokens, next)?;
    let next = after_sign(tokens, Sign::Comma, next)?;
    let (dim, next) = number(tokens, next)?;
    let next = after_sign(tokens, Sign::Comma, next)?;
    let (type_text, next) = text(alloc, tokens, next)?;
    let next = after_sign(tokens, Sign::Comma, next)?;
    let (values, next) = ident(alloc, tokens, next)?;
    let next = after_sign(tokens, Sign::Comma, next)?;
    let (label, next) = text(alloc, tokens, next)?;
    let next = after_close(tokens, next)?;
    Ok((
        OpCall::DeclDat {
            at,
            name,
            set,
            dim,
            type_text,
            values,
            label,
        },
        next,
    ))
}

fn read_decl_const(alloc: Global, tokens: &[Token], at: usize) -> Result<(OpCall, usize), ReadError>
    ensures { Gives (seen_by call_of) result (call_at (kinds tokens.now) 0 call_lead.DeclConst at) }
{
    let next = after_word(tokens, Word::OpDeclConst, at)?;
    let next = after_sign(tokens, Sign::LeftParen, next)?;
    let (dim, next) = number(tokens, next)?;
    let next = after_sign(tokens, Sign::Comma, next)?;
    let (type_text, next) = text(alloc, tokens, next)?;
    let next = after_sign(tokens, Sign::Comma, next)?;
    let (variable, next) = read_global(alloc, tokens, next)?;
    let next = after_close(tokens, next)?;
    Ok((
        OpCall::DeclConst {
            at,
            dim,
            type_text,
            variable,
        },
        next,
    ))
}

fn read_par_loop(alloc: Global, tokens: &[Token], at: usize) -> Result<(OpCall, usize), ReadError>
    ensures { Gives (seen_by call_of) result (call_at (kinds tokens.now) 0 call_lead.ParLoop at) }
{
    let next = after_word(tokens, Word::OpParLoop, at)?;
    let next = after_sign(tokens, Sign::LeftParen, next)?;
    let (kernel, next) = ident(alloc, tokens, next)?;
    let next = after_sign(tokens, Sign::Comma, next)?;
    let (label, next) = text(alloc, tokens, next)?;
    let next = after_sign(tokens, Sign::Comma, next)?;
    let (set, next) = ident(alloc, tokens, next)?;
    let (args, next) = read_args(alloc, tokens, next)?;
    let next = after_close(tokens, next)?;
    Ok((
        OpCall::ParLoop {
            at,
            kernel,
            label,
            set,
            args,
        },
        next,
    ))
}

fn read_printf(
    alloc: Global,
    tokens: &[Token],
    depth: usize,
    at: usize,
) -> Result<(OpCall, usize), ReadError>
    ensures { Gives (seen_by call_of) result (call_at (kinds tokens.now) depth call_lead.Printf at) }
{
    let next = after_word(tokens, Word::OpPrintf, at)?;
    let next = after_sign(tokens, Sign::LeftParen, next)?;
    let (text, next) = text(alloc, tokens, next)?;
    let (values, next) = read_values(alloc, tokens, depth, next)?;
    let next = after_close(tokens, next)?;
    Ok((OpCall::Printf { at, text, values }, next))
}

// The expressions, each behind a comma, and the place after them.
fn read_values(
    alloc: Global,
    tokens: &[Token],
    depth: usize,
    at: usize,
) -> Result<(Vec<Expr>, usize), ReadError>
    ensures { Gives (items_seen expr_of) result (values_at (kinds tokens.now) depth at) }
{
    let mut all = Vec::new(alloc);
    let mut next = at;
    for count in 0..tokens.len() {
        if !is_sign(tokens, Sign::Comma, next) {
            return Ok((all, next));
        }
        let (one, after) = expressions::read(alloc, tokens, depth, 0, next + 1)?;
        all.push(one)?;
        next = after;
    }
    Err(ReadError::Fault(Fault::Syntax(next)))
}

fn read_print_dat(alloc: Global, tokens: &[Token], at: usize) -> Result<(OpCall, usize), ReadError>
    ensures { Gives (seen_by call_of) result (call_at (kinds tokens.now) 0 call_lead.PrintDat at) }
{
    let next = after_word(tokens, Word::OpPrintDatToTxtfile, at)?;
    let next = after_sign(tokens, Sign::LeftParen, next)?;
    let (dat, next) = ident(alloc, tokens, next)?;
    let next = after_sign(tokens, Sign::Comma, next)?;
    let (file, next) = text(alloc, tokens, next)?;
    let next = after_close(tokens, next)?;
    Ok((OpCall::PrintDat { at, dat, file }, next))
}
