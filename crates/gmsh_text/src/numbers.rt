// Tokens that are numbers or words of the format.
ghost use Rattle.std.specs.Prelude.{◌≡◌, ◌<◌, ◌≤◌, ◌^◌, ℕ, Ok, IfOk, is_some};
ghost use Rattle.op_num.specs.Spelling.{number_of, integer_of};
ghost use Rattle.gmsh_text.specs.Decimal.{decimal_of};
ghost use Rattle.op_num.specs.Cut.{Word, first_of, rest_of};
ghost use Rattle.gmsh_text.specs.declared.refusal.TextRefusal.TheVariants as Refusal;
ghost use Rattle.gmsh_text.specs.Parsing.{IsRead, taken};
ghost use Rattle.gmsh_text.specs.Numbers.{number, number_below, integer, integer_within, decimal, decimal_word, tag, word};
ghost use Rattle.gmsh_text.specs.Numbers.{skip_decimals, skip_integers};

use crate::decimals::{DecimalRefusal, read_scaled};
use crate::nodes::Tag;
use crate::refusal::TextRefusal;
use op_num::texts::{Token, Tokens};
use op_num::{NumRefusal, read_i32, read_u64};

// The next token.
pub(crate) fn next_token<'a>(tokens: &mut Tokens<'a>) -> Result<Token<'a>, TextRefusal>
    ensures { IsRead result tokens.new (taken Ok tokens.old) }
{
    match tokens.next() {
        Some(token) => Ok(token),
        None => Err(TextRefusal::Syntax {
            line: tokens.last(),
        }),
    }
}

// A number below `end`.
#[tactic(auto, unfolding(crate::specs::Numbers::number))]
pub(crate) fn read_number(tokens: &mut Tokens<'_>, end: u64) -> Result<u32, TextRefusal>
    requires { end ≤ 2 ^ 32 }
    ensures read { IsRead result tokens.new (number end tokens.old) }
    ensures below { IfOk result (λ n. n < end) }
{
    let token = next_token(tokens)?;
    number_of_token(&token, end)
}

// A tag with its line.
#[tactic(auto, unfolding(crate::specs::Numbers::tag))]
pub(crate) fn read_tag(tokens: &mut Tokens<'_>) -> Result<Tag, TextRefusal>
    ensures { IsRead result tokens.new (tag tokens.old) }
{
    let token = next_token(tokens)?;
    let number = number_of_token(&token, 4294967296)?;
    Ok(Tag {
        line: token.line(),
        number,
    })
}

// The number below `end` that a token spells.
fn number_of_token(token: &Token<'_>, end: u64) -> Result<u32, TextRefusal>
    requires { end ≤ 2 ^ 32 }
    ensures is { result ≡ number_below end token.now.line (number_of token.now.text) }
    ensures below { IfOk result (λ n. n < end) }
{
    match read_u64(token.text()) {
        Ok(number) => {
            if number >= end {
                return Err(TextRefusal::NumberRange { line: token.line() });
            }
            Ok(number as u32)
        }
        Err(NumRefusal::NotDigits) => Err(TextRefusal::Syntax { line: token.line() }),
        Err(NumRefusal::TooLarge) => Err(TextRefusal::NumberRange { line: token.line() }),
    }
}

// An integer of 32 bits.
#[tactic(auto, unfolding(crate::specs::Numbers::integer))]
pub(crate) fn read_integer(tokens: &mut Tokens<'_>) -> Result<i32, TextRefusal>
    ensures { IsRead result tokens.new (integer tokens.old) }
{
    let token = next_token(tokens)?;
    integer_of_token(&token)
}

// The integer that a token spells.
fn integer_of_token(token: &Token<'_>) -> Result<i32, TextRefusal>
    ensures { result ≡ integer_within token.now.line (integer_of token.now.text) }
{
    match read_i32(token.text()) {
        Ok(integer) => Ok(integer),
        Err(NumRefusal::NotDigits) => Err(TextRefusal::Syntax { line: token.line() }),
        Err(NumRefusal::TooLarge) => Err(TextRefusal::NumberRange { line: token.line() }),
    }
}

// A decimal, as it is spelled.
#[tactic(auto, unfolding(crate::specs::Numbers::decimal))]
pub(crate) fn read_decimal<'a>(tokens: &mut Tokens<'a>) -> Result<Token<'a>, TextRefusal>
    ensures { IsRead result tokens.new (decimal tokens.old) }
{
    let token = next_token(tokens)?;
    if !is_decimal(token.text()) {
        return Err(TextRefusal::Syntax { line: token.line() });
    }
    Ok(token)
}

// Whether a token is a decimal.
fn is_decimal(text: &[u8]) -> bool
    ensures { result ≡ is_some (decimal_of text.now) }
{
    !matches!(read_scaled(text, 1), Err(DecimalRefusal::NotDecimal))
}

// This word, which has these bytes.
#[tactic(auto, unfolding(crate::specs::Numbers::word))]
pub(crate) fn read_word<'a>(tokens: &mut Tokens<'a>, text: &[u8]) -> Result<Token<'a>, TextRefusal>
    ensures { IsRead result tokens.new (word text.now tokens.old) }
{
    let token = next_token(tokens)?;
    if token.text() != text {
        return Err(TextRefusal::Syntax { line: token.line() });
    }
    Ok(token)
}

// Passes over that many decimals.
pub(crate) fn pass_decimals(tokens: &mut Tokens<'_>, count: u32) -> Result<(), TextRefusal>
    ensures { IsRead result tokens.new (skip_decimals count tokens.old) }
{
    for _ in 0..count {
        read_decimal(tokens)?;
    }
    Ok(())
}

// Passes over that many integers.
pub(crate) fn pass_integers(tokens: &mut Tokens<'_>, count: u32) -> Result<(), TextRefusal>
    ensures { IsRead result tokens.new (skip_integers count tokens.old) }
{
    for _ in 0..count {
        read_integer(tokens)?;
    }
    Ok(())
}
