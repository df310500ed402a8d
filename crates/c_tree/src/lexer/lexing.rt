// The tokens of the bytes.

ghost use Rattle.std.specs.Prelude.{◌≡◌, ◌+◌, ◌≤◌, ◌<◌, ◌^◌, ◌&&◌, length, map, slice_index, List, ℕ};
ghost use Rattle.c_tree.specs.Spelling.{part};
ghost use Rattle.c_tree.specs.Lexed.{Outcome, Lexes, is_number as number_kind};
ghost use Rattle.c_tree.specs.Answered.{Answers};
ghost use Rattle.c_tree.specs.Order.{AreInOrder};

use crate::lexer::classes::is_part;
use crate::lexer::front::{Front, at_front};
use crate::lexer::places::{advanced, is_fresh_after};
use crate::lexer::refusals::LexRefusal;
use crate::lexer::tokens::{Kind, Pos, Token};
use std::alloc::Global;

/// The tokens of the bytes of a source, or the first place where it has none (docs/LANGUAGE.md). The bytes are to be
/// fewer than 2 ^ 32 - 2, since a place is a `u32`. `OutOfMemory` comes only where memory runs out; each other refusal
/// comes exactly where the bytes have it.
pub fn lex(alloc: Global, bytes: &[u8]) -> Result<Vec<Token>, LexRefusal>
    requires { length bytes.now + 2 < 2 ^ 32 }
    // What is answered is what the bytes have,
    ensures found { Answers (Lexes bytes.now) result }
    // and what they have is what is answered, unless memory runs out.
    ensures only { (outcome : Outcome) → Lexes bytes.now outcome → Answers (λ x. x ≡ outcome) result }
{
    scan(alloc, bytes)
}

/// A law: the bytes of a source have one outcome, their tokens or a refusal.
pub fn one_outcome()
    ensures { (bytes : List ℕ) (a b : Outcome) → Lexes bytes a → Lexes bytes b → a ≡ b }
{}

/// A law: the bytes of a source have an outcome, however many they are.
pub fn some_outcome()
    ensures { (bytes : List ℕ) → (o : Outcome) × Lexes bytes o }
{}

/// A law: a source has no more tokens than bytes.
pub fn tokens_are_few()
    ensures { (bytes : List ℕ) (tokens : List Token) → Lexes bytes (Ok tokens) → length tokens ≤ length bytes }
{}

/// A law: of two tokens of a source, the one with the lower number stands at the earlier place.
pub fn tokens_in_order()
    ensures { (bytes : List ℕ) (tokens : List Token) → Lexes bytes (Ok tokens) → AreInOrder (map (λ t. t.at) tokens) }
{}

// What the bytes have.
fn scan(alloc: Global, bytes: &[u8]) -> Result<Vec<Token>, LexRefusal>
    requires { length bytes.now + 2 < 2 ^ 32 }
    ensures { Answers (Lexes bytes.now) result }
{
    let mut tokens = Vec::new(alloc);
    let mut from = 0;
    let mut at = Pos { line: 1, column: 1 };
    let mut is_fresh = true;
    let mut is_after_number = false;
    while from < bytes.len() {
        let rest = &bytes[from..];
        if clashes(is_after_number, rest) {
            return Err(LexRefusal::BadByte { at });
        }
        match at_front(alloc, is_fresh, rest)? {
            Front::Passed(len) => {
                let passed = &rest[..len];
                at = advanced(at, passed);
                is_fresh = is_fresh_after(is_fresh, passed);
                is_after_number = false;
                from += len;
            }
            Front::Token(kind, len) => {
                let next = advanced(at, &rest[..len]);
                let to = from + len;
                is_fresh = false;
                is_after_number = is_number(&kind);
                tokens.push(Token { kind, from, to, at })?;
                at = next;
                from = to;
            }
            Front::BadByte(len) => {
                return Err(LexRefusal::BadByte {
                    at: advanced(at, &rest[..len]),
                })
            }
            Front::OpenComment => return Err(LexRefusal::OpenComment { at }),
            Front::OpenText => return Err(LexRefusal::OpenText { at }),
            Front::TooLarge => return Err(LexRefusal::NumberTooLarge { at }),
        }
    }
    Ok(tokens)
}

// Whether the token is a number.
fn is_number(kind: &Kind) -> bool
    ensures { result ≡ number_kind kind.now }
{
    match kind {
        Kind::Number(_) => true,
        _ => false,
    }
}

// Whether the first byte may not stand directly behind a number that stands there.
fn clashes(is_after_number: bool, bytes: &[u8]) -> bool
    requires { 0 < length bytes.now }
    ensures { result ≡ (is_after_number && part (slice_index bytes.now 0)) }
{
    is_after_number && is_part(bytes[0])
}
