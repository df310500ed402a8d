// What kernels and the other parts of the file print, put into a list that is made from its end.

ghost use Rattle.std.specs.Prelude.{◌≡◌, IfOk, reverse, map};
ghost use Rattle.c_tree.specs.View.{kernel_of, top_of};
ghost use Rattle.c_show.specs.Ahead.{param_first, params_first, more_params_first, kernel_first, top_first, tops_first};

use crate::put_statements::{put_declaration, put_stmts, put_word_if};
use crate::put_tokens::{put_name, put_sign, put_word};
use c_tree::lexer::{Kind, Sign, Word};
use c_tree::{Kernel, Param, Top};
use op_num::OutOfMemory;

// Puts a parameter.
fn put_param(out: &mut Vec<Kind>, param: &Param) -> Result<(), OutOfMemory>
    ensures { IfOk result (λ _. reverse out.new.items ≡ param_first param.now (reverse out.old.items)) }
{
    put_name(out, &param.name)?;
    put_sign(out, Sign::Star)?;
    put_word(out, Word::Int)?;
    put_word_if(out, param.is_const, Word::Const)
}

// Puts parameters, each behind a comma.
fn put_more_params(out: &mut Vec<Kind>, params: &[Param]) -> Result<(), OutOfMemory>
    ensures { IfOk result (λ _. reverse out.new.items ≡ more_params_first params.now (reverse out.old.items)) }
{
    for i in (0..params.len()).rev() {
        put_param(out, &params[i])?;
        put_sign(out, Sign::Comma)?;
    }
    Ok(())
}

// Puts parameters with a comma between each two.
fn put_params(out: &mut Vec<Kind>, params: &[Param]) -> Result<(), OutOfMemory>
    ensures { IfOk result (λ _. reverse out.new.items ≡ params_first params.now (reverse out.old.items)) }
{
    match params {
        [first, more @ ..] => {
            put_more_params(out, more)?;
            put_param(out, first)
        }
        [] => Ok(()),
    }
}

// Puts a kernel.
fn put_kernel(out: &mut Vec<Kind>, kernel: &Kernel) -> Result<(), OutOfMemory>
    ensures { IfOk result (λ _. reverse out.new.items ≡ kernel_first (kernel_of kernel.now) (reverse out.old.items)) }
{
    put_sign(out, Sign::RightBrace)?;
    put_stmts(out, &kernel.body)?;
    put_sign(out, Sign::LeftBrace)?;
    put_sign(out, Sign::RightParen)?;
    put_params(out, &kernel.params)?;
    put_sign(out, Sign::LeftParen)?;
    put_name(out, &kernel.name)?;
    put_word(out, Word::Void)?;
    put_word_if(out, kernel.is_inline, Word::Inline)?;
    put_word_if(out, kernel.is_static, Word::Static)
}

// Puts a part of the file before `main`.
fn put_top(out: &mut Vec<Kind>, top: &Top) -> Result<(), OutOfMemory>
    ensures { IfOk result (λ _. reverse out.new.items ≡ top_first (top_of top.now) (reverse out.old.items)) }
{
    match top {
        Top::Extern(name) => {
            put_sign(out, Sign::Semicolon)?;
            put_name(out, name)?;
            put_word(out, Word::Int)?;
            put_word(out, Word::Extern)
        }
        Top::ExternArray(name) => {
            put_sign(out, Sign::Semicolon)?;
            put_sign(out, Sign::RightBracket)?;
            put_sign(out, Sign::LeftBracket)?;
            put_name(out, name)?;
            put_word(out, Word::Int)?;
            put_word(out, Word::Extern)
        }
        Top::Declaration(declaration) => put_declaration(out, declaration),
        Top::Kernel(kernel) => put_kernel(out, kernel),
    }
}

/// Puts the parts of the file before `main`.
pub fn put_tops(out: &mut Vec<Kind>, tops: &[Top]) -> Result<(), OutOfMemory>
    ensures { IfOk result (λ _. reverse out.new.items ≡ tops_first (map top_of tops.now) (reverse out.old.items)) }
{
    for i in (0..tops.len()).rev() {
        put_top(out, &tops[i])?;
    }
    Ok(())
}
