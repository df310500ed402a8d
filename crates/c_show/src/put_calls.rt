// What the calls of the OP2 library print, put into a list that is made from its end.

ghost use Rattle.std.specs.Prelude.{◌≡◌, IfOk, reverse, map};
ghost use Rattle.c_tree.specs.Signs.{access_word_of};
ghost use Rattle.c_tree.specs.View.{expr_of, call_of};
ghost use Rattle.c_tree.specs.declared.lexer.tokens.Sign.TheVariants.{LeftParen, Comma};
ghost use Rattle.c_show.specs.Ahead.{sign_first, word_first, name_first, number_first, text_first};
ghost use Rattle.c_show.specs.Ahead.{global_first, index_first, via_first, arg_end_first, arg_first, args_first, values_first, close_first};
ghost use Rattle.c_show.specs.Ahead.{label_first, decl_front, call_first};

use crate::put_expressions::put_expr;
use crate::put_tokens::{put_name, put_number, put_sign, put_text, put_word};
use c_tree::lexer::{Kind, Sign, Word};
use c_tree::{
    AccessWord, ArgIndex, ArgVia, Expr, GlobalName, Ident, LoopArg, NumberLiteral, OpCall,
    TextLiteral,
};
use op_num::OutOfMemory;

// The word of an access.
fn access_word(access: AccessWord) -> Word
    ensures { result ≡ access_word_of access }
{
    match access {
        AccessWord::Read => Word::OpRead,
        AccessWord::Write => Word::OpWrite,
        AccessWord::Rw => Word::OpRw,
        AccessWord::Inc => Word::OpInc,
        AccessWord::Min => Word::OpMin,
        AccessWord::Max => Word::OpMax,
    }
}

// Puts `x` or `&x`.
fn put_global(out: &mut Vec<Kind>, global: &GlobalName) -> Result<(), OutOfMemory>
    ensures { IfOk result (λ _. reverse out.new.items ≡ global_first global.now (reverse out.old.items)) }
{
    put_name(out, &global.name)?;
    match global.ampersand {
        Some(_) => put_sign(out, Sign::And),
        None => Ok(()),
    }
}

// Puts the index of an argument.
fn put_index(out: &mut Vec<Kind>, index: ArgIndex) -> Result<(), OutOfMemory>
    ensures { IfOk result (λ _. reverse out.new.items ≡ index_first index (reverse out.old.items)) }
{
    let number = NumberLiteral {
        value: index.value,
        at: index.at,
    };
    put_number(out, number)?;
    if index.is_negative {
        put_sign(out, Sign::Minus)
    } else {
        Ok(())
    }
}

// Puts what an argument's index goes through.
fn put_via(out: &mut Vec<Kind>, via: &ArgVia) -> Result<(), OutOfMemory>
    ensures { IfOk result (λ _. reverse out.new.items ≡ via_first via.now (reverse out.old.items)) }
{
    match via {
        ArgVia::Map(name) => put_name(out, name),
        ArgVia::Identity(_) => put_word(out, Word::OpId),
    }
}

// Puts `x,`.
fn put_name_item(out: &mut Vec<Kind>, name: &Ident) -> Result<(), OutOfMemory>
    ensures { IfOk result (λ _. reverse out.new.items ≡ name_first name.now (sign_first Comma (reverse out.old.items))) }
{
    put_sign(out, Sign::Comma)?;
    put_name(out, name)
}

// Puts `5,`.
fn put_number_item(out: &mut Vec<Kind>, number: NumberLiteral) -> Result<(), OutOfMemory>
    ensures { IfOk result (λ _. reverse out.new.items ≡ number_first number (sign_first Comma (reverse out.old.items))) }
{
    put_sign(out, Sign::Comma)?;
    put_number(out, number)
}

// Puts `"text",`.
fn put_text_item(out: &mut Vec<Kind>, text: &TextLiteral) -> Result<(), OutOfMemory>
    ensures { IfOk result (λ _. reverse out.new.items ≡ text_first text.now (sign_first Comma (reverse out.old.items))) }
{
    put_sign(out, Sign::Comma)?;
    put_text(out, text)
}

// Puts `word (`.
fn put_opened(out: &mut Vec<Kind>, word: Word) -> Result<(), OutOfMemory>
    ensures { IfOk result (λ _. reverse out.new.items ≡ word_first word (sign_first LeftParen (reverse out.old.items))) }
{
    put_sign(out, Sign::LeftParen)?;
    put_word(out, word)
}

// Puts `, dim, "type", access)`.
fn put_arg_end(
    out: &mut Vec<Kind>,
    dim: NumberLiteral,
    type_text: &TextLiteral,
    access: AccessWord,
) -> Result<(), OutOfMemory>
    ensures { IfOk result (λ _. reverse out.new.items ≡ arg_end_first dim type_text.now (access_word_of access) (reverse out.old.items)) }
{
    put_sign(out, Sign::RightParen)?;
    put_word(out, access_word(access))?;
    put_text_item(out, type_text)?;
    put_number_item(out, dim)?;
    put_sign(out, Sign::Comma)
}

// Puts an argument of a loop.
fn put_arg(out: &mut Vec<Kind>, arg: &LoopArg) -> Result<(), OutOfMemory>
    ensures { IfOk result (λ _. reverse out.new.items ≡ arg_first arg.now (reverse out.old.items)) }
{
    match arg {
        LoopArg::Dat {
            dat,
            index,
            via,
            dim,
            type_text,
            access,
            ..
        } => {
            put_arg_end(out, *dim, type_text, *access)?;
            put_via(out, via)?;
            put_sign(out, Sign::Comma)?;
            put_index(out, *index)?;
            put_name_item(out, dat)?;
            put_opened(out, Word::OpArgDat)
        }
        LoopArg::Global {
            global,
            dim,
            type_text,
            access,
            ..
        } => {
            put_arg_end(out, *dim, type_text, *access)?;
            put_global(out, global)?;
            put_opened(out, Word::OpArgGbl)
        }
    }
}

// Puts arguments, each behind a comma.
fn put_args(out: &mut Vec<Kind>, args: &[LoopArg]) -> Result<(), OutOfMemory>
    ensures { IfOk result (λ _. reverse out.new.items ≡ args_first args.now (reverse out.old.items)) }
{
    for i in (0..args.len()).rev() {
        put_arg(out, &args[i])?;
        put_sign(out, Sign::Comma)?;
    }
    Ok(())
}

// Puts values, each behind a comma.
fn put_values(out: &mut Vec<Kind>, values: &[Expr]) -> Result<(), OutOfMemory>
    ensures { IfOk result (λ _. reverse out.new.items ≡ values_first (map expr_of values.now) (reverse out.old.items)) }
{
    for i in (0..values.len()).rev() {
        put_expr(out, &values[i])?;
        put_sign(out, Sign::Comma)?;
    }
    Ok(())
}

// Puts `);`.
fn put_close(out: &mut Vec<Kind>) -> Result<(), OutOfMemory>
    ensures { IfOk result (λ _. reverse out.new.items ≡ close_first (reverse out.old.items)) }
{
    put_sign(out, Sign::Semicolon)?;
    put_sign(out, Sign::RightParen)
}

// Puts `, "label");`.
fn put_label(out: &mut Vec<Kind>, label: &TextLiteral) -> Result<(), OutOfMemory>
    ensures { IfOk result (λ _. reverse out.new.items ≡ label_first label.now (reverse out.old.items)) }
{
    put_close(out)?;
    put_text(out, label)?;
    put_sign(out, Sign::Comma)
}

// Puts `type name = call (`.
fn put_decl_front(
    out: &mut Vec<Kind>,
    type_word: Word,
    name: &Ident,
    call_word: Word,
) -> Result<(), OutOfMemory>
    ensures { IfOk result (λ _. reverse out.new.items ≡ decl_front type_word name.now call_word (reverse out.old.items)) }
{
    put_opened(out, call_word)?;
    put_sign(out, Sign::Assign)?;
    put_name(out, name)?;
    put_word(out, type_word)
}

/// Puts a call of the library.
pub fn put_call(out: &mut Vec<Kind>, call: &OpCall) -> Result<(), OutOfMemory>
    ensures { IfOk result (λ _. reverse out.new.items ≡ call_first (call_of call.now) (reverse out.old.items)) }
{
    match call {
        OpCall::Init { level, .. } => {
            put_close(out)?;
            put_number(out, *level)?;
            put_sign(out, Sign::Comma)?;
            put_word(out, Word::Argv)?;
            put_sign(out, Sign::Comma)?;
            put_word(out, Word::Argc)?;
            put_opened(out, Word::OpInit)
        }
        OpCall::DeclSet {
            name,
            size,
            label,
            ..
        } => {
            put_label(out, label)?;
            put_expr(out, size)?;
            put_decl_front(out, Word::OpSet, name, Word::OpDeclSet)
        }
        OpCall::DeclMap {
            name,
            from,
            to,
            dim,
            values,
            label,
            ..
        } => {
            put_label(out, label)?;
            put_name(out, values)?;
            put_number_item(out, *dim)?;
            put_name_item(out, to)?;
            put_name_item(out, from)?;
            put_decl_front(out, Word::OpMap, name, Word::OpDeclMap)
        }
        OpCall::DeclDat {
            name,
            set,
            dim,
            type_text,
            values,
            label,
            ..
        } => {
            put_label(out, label)?;
            put_name(out, values)?;
            put_text_item(out, type_text)?;
            put_number_item(out, *dim)?;
            put_name_item(out, set)?;
            put_decl_front(out, Word::OpDat, name, Word::OpDeclDat)
        }
        OpCall::DeclConst {
            dim,
            type_text,
            variable,
            ..
        } => {
            put_close(out)?;
            put_global(out, variable)?;
            put_text_item(out, type_text)?;
            put_number_item(out, *dim)?;
            put_opened(out, Word::OpDeclConst)
        }
        OpCall::ParLoop {
            kernel,
            label,
            set,
            args,
            ..
        } => {
            put_close(out)?;
            put_args(out, args)?;
            put_name(out, set)?;
            put_text_item(out, label)?;
            put_name_item(out, kernel)?;
            put_opened(out, Word::OpParLoop)
        }
        OpCall::Printf { text, values, .. } => {
            put_close(out)?;
            put_values(out, values)?;
            put_text(out, text)?;
            put_opened(out, Word::OpPrintf)
        }
        OpCall::PrintDat { dat, file, .. } => {
            put_label(out, file)?;
            put_name(out, dat)?;
            put_opened(out, Word::OpPrintDatToTxtfile)
        }
    }
}
