// Single tokens, put into a list that is made from its end.

ghost use Rattle.std.specs.Prelude.{◌≡◌, IfOk, ◌∷◌, reverse};
ghost use Rattle.c_show.specs.Ahead.{sign_first, word_first, name_first, number_first, text_first};

use c_tree::lexer::{Kind, Sign, Word};
use c_tree::{Ident, NumberLiteral, TextLiteral};
use op_num::OutOfMemory;

// Puts a kind before those that are there.
fn put(out: &mut Vec<Kind>, kind: Kind) -> Result<(), OutOfMemory>
    ensures { IfOk result (λ _. reverse out.new.items ≡ kind ∷ reverse out.old.items) }
{
    out.push(kind)?;
    Ok(())
}

/// Puts a sign before what is there.
pub fn put_sign(out: &mut Vec<Kind>, sign: Sign) -> Result<(), OutOfMemory>
    ensures { IfOk result (λ _. reverse out.new.items ≡ sign_first sign (reverse out.old.items)) }
{
    put(out, Kind::Sign(sign))
}

/// Puts a reserved word before what is there.
pub fn put_word(out: &mut Vec<Kind>, word: Word) -> Result<(), OutOfMemory>
    ensures { IfOk result (λ _. reverse out.new.items ≡ word_first word (reverse out.old.items)) }
{
    put(out, Kind::Word(word))
}

/// Puts a name before what is there.
pub fn put_name(out: &mut Vec<Kind>, ident: &Ident) -> Result<(), OutOfMemory>
    ensures { IfOk result (λ _. reverse out.new.items ≡ name_first ident.now (reverse out.old.items)) }
{
    let name = ident.name.clone()?;
    put(out, Kind::Name(name))
}

/// Puts a number before what is there.
pub fn put_number(out: &mut Vec<Kind>, number: NumberLiteral) -> Result<(), OutOfMemory>
    ensures { IfOk result (λ _. reverse out.new.items ≡ number_first number (reverse out.old.items)) }
{
    put(out, Kind::Number(number.value))
}

/// Puts a text before what is there.
pub fn put_text(out: &mut Vec<Kind>, literal: &TextLiteral) -> Result<(), OutOfMemory>
    ensures { IfOk result (λ _. reverse out.new.items ≡ text_first literal.now (reverse out.old.items)) }
{
    let text = literal.text.clone()?;
    put(out, Kind::Text(text))
}
