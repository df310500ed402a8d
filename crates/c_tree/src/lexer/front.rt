// What stands at the front of the bytes: something to pass over, the longest token, or a refusal.

ghost use Rattle.std.specs.Prelude.{◌≡◌, ◌≤◌, ◌<◌, slice_index, true, length, IfOk, false, nat_eq};
ghost use Rattle.c_tree.specs.Spelling.{blank, letter, digit};
ghost use Rattle.c_tree.specs.Front.{LiesIn, IsFront, front_word, front_figure, front_sign, figure_size};

use crate::lexer::classes::{digits_len, is_blank, is_digit, is_letter, name_len, number};
use crate::lexer::passed::{close_at, line_len, passes_rest_of_line};
use crate::lexer::spelling::{longest_sign, reserved, sign_bytes};
use crate::lexer::texts::text;
use crate::lexer::tokens::Kind;
use op_num::Name;
use std::alloc::{AllocError, Global};

/// What stands at the front.
#[derive(Drop)]
pub enum Front {
    /// so many bytes to pass over
    Passed(usize),
    /// a token of so many bytes
    Token(Kind, usize),
    /// a bad byte, behind so many others
    BadByte(usize),
    /// a comment without its end
    OpenComment,
    /// a text without its closing quote
    OpenText,
    /// a number above 2147483647
    TooLarge,
}

/// What stands at the front; `fresh` is whether only spaces and tabs stand before it on its line.
pub fn at_front(alloc: Global, fresh: bool, bytes: &[u8]) -> Result<Front, AllocError>
    requires { 0 < length bytes.now }
    ensures is { IfOk result (IsFront fresh bytes.now) }
    ensures within { IfOk result (LiesIn (length bytes.now)) }
{
    let first = bytes[0];
    if is_blank(first) {
        Ok(Front::Passed(1))
    } else if is_letter(first) {
        word_or_name(alloc, &bytes[..name_len(bytes)])
    } else if is_digit(first) {
        Ok(figure(bytes))
    } else if first == b'"' {
        text(alloc, bytes)
    } else {
        Ok(passed_or_sign(fresh, bytes))
    }
}

// The reserved word or the name that these bytes are.
#[tactic(auto, unfolding(crate::specs::Front::front_word))]
fn word_or_name(alloc: Global, bytes: &[u8]) -> Result<Front, AllocError>
    requires { 0 < length bytes.now }
    ensures is { IfOk result (λ f. f ≡ front_word bytes.now) }
    ensures within { IfOk result (LiesIn (length bytes.now)) }
{
    match reserved(bytes) {
        Some(word) => Ok(Front::Token(Kind::Word(word), bytes.len())),
        None => Ok(Front::Token(Kind::Name(Name::new(bytes.to_vec(alloc)?)), bytes.len())),
    }
}

// The number at the front.
#[tactic(auto, using(crate::proofs::lexer::Runs::figures))]
fn figure(bytes: &[u8]) -> Front
    requires some { 0 < length bytes.now }
    requires digit { digit (slice_index bytes.now 0) ≡ true }
    ensures { result ≡ front_figure bytes.now }
{
    let len = figure_len(bytes);
    match number(&bytes[..len]) {
        Some(value) => Front::Token(Kind::Number(value), len),
        None => Front::TooLarge,
    }
}

// How many bytes of a number stand at the front.
fn figure_len(bytes: &[u8]) -> usize
    requires { 0 < length bytes.now }
    ensures size { result ≡ figure_size bytes.now }
    ensures within { result ≤ length bytes.now }
{
    if bytes[0] == b'0' {
        1
    } else {
        digits_len(bytes)
    }
}

// A comment, an `#include` line or a sign.
fn passed_or_sign(fresh: bool, bytes: &[u8]) -> Front
    requires some { 0 < length bytes.now }
    requires no_blank { blank (slice_index bytes.now 0) ≡ false }
    requires no_letter { letter (slice_index bytes.now 0) ≡ false }
    requires no_digit { digit (slice_index bytes.now 0) ≡ false }
    requires no_quote { nat_eq (slice_index bytes.now 0) 34 ≡ false }
    ensures is { IsFront fresh bytes.now result }
    ensures within { LiesIn (length bytes.now) result }
{
    if passes_rest_of_line(fresh, bytes) {
        Front::Passed(line_len(bytes))
    } else if bytes.starts_with(b"/*") {
        match close_at(&bytes[2..]) {
            Some(len) => Front::Passed(len + 2),
            None => Front::OpenComment,
        }
    } else {
        sign(bytes)
    }
}

// The longest sign at the front.
#[tactic(auto, unfolding(crate::specs::Front::front_sign))]
fn sign(bytes: &[u8]) -> Front
    ensures { result ≡ front_sign bytes.now }
{
    match longest_sign(bytes) {
        Some(sign) => Front::Token(Kind::Sign(sign), sign_bytes(sign).len()),
        None => Front::BadByte(0),
    }
}
