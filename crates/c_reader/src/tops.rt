// What stands at the level of the file: externs, declarations and kernels.

ghost use Rattle.std.specs.Prelude.{◌≡◌, slice_get};
ghost use Rattle.c_tree.specs.View.{top_of, kernel_of};
ghost use Rattle.c_reader.specs.Descent.{Gives};
ghost use Rattle.c_reader.specs.Rows.{seen_by, items_seen};
ghost use Rattle.c_reader.specs.Whole.{extern_at, skipped, param_at, params_at, kernel_at, lead_in, top_at, begins_main as begins_main_at};
ghost use Rattle.c_reader.specs.Whole.{tops_at};
ghost use Rattle.c_reader.specs.Kinds.{kinds};

use crate::cursor::{after_sign, after_word, ident, is_sign, is_word};
use crate::declarations::read_declaration;
use crate::faults::{Fault, ReadError};
use crate::leads::{TopLead, top_begun_by};
use crate::statements::read_stmts;
use c_tree::{Kernel, Param, Sign, Token, Top, Word};
use std::alloc::Global;

/// The parts of the file before `int main`, and the place of that `int`.
pub fn read_tops(alloc: Global, tokens: &[Token], at: usize) -> Result<(Vec<Top>, usize), ReadError>
    ensures { Gives (items_seen top_of) result (tops_at (kinds tokens.now) at) }
{
    let mut all = Vec::new(alloc);
    let mut next = at;
    for count in 0..tokens.len() {
        if begins_main(tokens, next) {
            return Ok((all, next));
        }
        let (one, after) = read_top(alloc, tokens, next)?;
        all.push(one)?;
        next = after;
    }
    Err(ReadError::Fault(Fault::Syntax(next)))
}

// Whether `int main` stands there.
fn begins_main(tokens: &[Token], at: usize) -> bool
    ensures { result ≡ begins_main_at (kinds tokens.now) at }
{
    if is_word(tokens, Word::Int, at) {
        is_word(tokens, Word::Main, at + 1)
    } else {
        false
    }
}

// A part of the file, and the place after it.
#[tactic(auto, unfolding(crate::specs::Whole::top_at))]
fn read_top(alloc: Global, tokens: &[Token], at: usize) -> Result<(Top, usize), ReadError>
    ensures { Gives (seen_by top_of) result (top_at (kinds tokens.now) at) }
{
    match top_lead(tokens, at) {
        TopLead::Extern => read_extern(alloc, tokens, at),
        TopLead::Declaration => {
            let (declaration, next) = read_declaration(alloc, tokens, 63, at)?;
            Ok((Top::Declaration(declaration), next))
        }
        TopLead::Kernel => {
            let (kernel, next) = read_kernel(alloc, tokens, at)?;
            Ok((Top::Kernel(kernel), next))
        }
        TopLead::Nothing => Err(ReadError::Fault(Fault::Syntax(at))),
    }
}

// What the token there begins.
fn top_lead(tokens: &[Token], at: usize) -> TopLead
    ensures { result ≡ lead_in (slice_get (kinds tokens.now) at) }
{
    match tokens.get(at) {
        Some(token) => top_begun_by(&token.kind),
        None => TopLead::Nothing,
    }
}

// An extern, and the place after its `;`.
#[tactic(auto, unfolding(crate::specs::Whole::extern_at))]
fn read_extern(alloc: Global, tokens: &[Token], at: usize) -> Result<(Top, usize), ReadError>
    ensures { Gives (seen_by top_of) result (extern_at (kinds tokens.now) at) }
{
    let next = after_word(tokens, Word::Extern, at)?;
    let next = after_word(tokens, Word::Int, next)?;
    let (name, next) = ident(alloc, tokens, next)?;
    if is_sign(tokens, Sign::LeftBracket, next) {
        let next = after_sign(tokens, Sign::RightBracket, next + 1)?;
        let next = after_sign(tokens, Sign::Semicolon, next)?;
        Ok((Top::ExternArray(name), next))
    } else {
        let next = after_sign(tokens, Sign::Semicolon, next)?;
        Ok((Top::Extern(name), next))
    }
}

// The place after the word, if it stands there.
fn skip_word(tokens: &[Token], word: Word, at: usize) -> (bool, usize)
    ensures { result ≡ skipped (kinds tokens.now) word at }
{
    if is_word(tokens, word, at) {
        (true, at + 1)
    } else {
        (false, at)
    }
}

// A kernel, and the place after its `}`.
#[tactic(auto, unfolding(crate::specs::Whole::kernel_at))]
fn read_kernel(alloc: Global, tokens: &[Token], at: usize) -> Result<(Kernel, usize), ReadError>
    ensures { Gives (seen_by kernel_of) result (kernel_at (kinds tokens.now) at) }
{
    let (is_static, next) = skip_word(tokens, Word::Static, at);
    let (is_inline, next) = skip_word(tokens, Word::Inline, next);
    let next = after_word(tokens, Word::Void, next)?;
    let (name, next) = ident(alloc, tokens, next)?;
    let next = after_sign(tokens, Sign::LeftParen, next)?;
    let (params, next) = read_params(alloc, tokens, next)?;
    let next = after_sign(tokens, Sign::LeftBrace, next)?;
    let (body, next) = read_stmts(alloc, tokens, 64, next)?;
    let next = after_sign(tokens, Sign::RightBrace, next)?;
    Ok((
        Kernel {
            is_static,
            is_inline,
            name,
            params,
            body,
        },
        next,
    ))
}

// The parameters, and the place after their `)`.
fn read_params(alloc: Global, tokens: &[Token], at: usize) -> Result<(Vec<Param>, usize), ReadError>
    ensures { Gives (items_seen (λ x. x)) result (params_at (kinds tokens.now) at) }
{
    let mut all = Vec::new(alloc);
    let mut next = at;
    for count in 0..tokens.len() {
        let (one, after) = read_param(alloc, tokens, next)?;
        all.push(one)?;
        if !is_sign(tokens, Sign::Comma, after) {
            let next = after_sign(tokens, Sign::RightParen, after)?;
            return Ok((all, next));
        }
        next = after + 1;
    }
    Err(ReadError::Fault(Fault::Syntax(next)))
}

// A parameter, and the place after it.
#[tactic(auto, unfolding(crate::specs::Whole::param_at))]
fn read_param(alloc: Global, tokens: &[Token], at: usize) -> Result<(Param, usize), ReadError>
    ensures { Gives (λ x. x) result (param_at (kinds tokens.now) at) }
{
    let (is_const, next) = skip_word(tokens, Word::Const, at);
    let next = after_word(tokens, Word::Int, next)?;
    let next = after_sign(tokens, Sign::Star, next)?;
    let (name, next) = ident(alloc, tokens, next)?;
    Ok((Param { is_const, name }, next))
}
