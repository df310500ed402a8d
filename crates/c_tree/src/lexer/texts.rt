// Texts: bytes and escapes between quotes.

ghost use Rattle.std.specs.Prelude.{◌≡◌, ◌∷◌, ◌≤◌, ◌<◌, length, take, drop, slice_index, true, None, IfOk, IfSome};
ghost use Rattle.std.specs.List.{list_all};
ghost use Rattle.c_tree.specs.Spelling.{textual, all_escaped};
ghost use Rattle.c_tree.specs.Lexed.{is_closed as closed_on_line};
ghost use Rattle.c_tree.specs.Front.{LiesIn, IsText, unit_of, plain};

use crate::lexer::front::Front;
use crate::lexer::tokens::Kind;
use op_num::Text;
use std::alloc::{AllocError, Global};

/// The text whose opening quote is at the front, or why there is none.
pub fn text(alloc: Global, bytes: &[u8]) -> Result<Front, AllocError>
    requires some { 0 < length bytes.now }
    requires quote { slice_index bytes.now 0 ≡ 34 }
    ensures is { IfOk result (IsText bytes.now) }
    ensures within { IfOk result (LiesIn (length bytes.now)) }
{
    let mut decoded = Vec::new(alloc);
    let mut next = 1;
    while next < bytes.len() {
        match unit(&bytes[next..]) {
            Some((byte, len)) => {
                decoded.push(byte)?;
                next += len;
            }
            None => return Ok(text_end(decoded, bytes, next)),
        }
    }
    Ok(Front::OpenText)
}

// The byte that the front of a text's bytes stands for, and how many bytes spell it; none at a quote and where no
// text goes on.
fn unit(bytes: &[u8]) -> Option<(u8, usize)>
    ensures is { result ≡ unit_of bytes.now }
    ensures within { IfSome result (λ u. (1 ≤ u.1) × (u.1 ≤ length bytes.now)) }
{
    match bytes {
        [b'\\', escape, ..] => match *escape {
            b'n' => Some((b'\n', 2)),
            b't' => Some((b'\t', 2)),
            b'\\' => Some((b'\\', 2)),
            b'"' => Some((b'"', 2)),
            _ => None,
        },
        [byte, ..] => {
            if stands_for_itself(*byte) {
                Some((*byte, 1))
            } else {
                None
            }
        }
        [] => None,
    }
}

// Whether a text may hold the byte as it is.
fn stands_for_itself(byte: u8) -> bool
    ensures { result ≡ plain byte }
{
    byte >= 32 && byte != 127 && byte != b'"' && byte != b'\\'
}

// A text that goes on no further than `next`.
fn text_end(decoded: Vec<u8>, bytes: &[u8], next: usize) -> Front
    requires some { 0 < next }
    requires in_bytes { next < length bytes.now }
    requires textual { list_all textual decoded.items ≡ true }
    requires so_far { take next bytes.now ≡ 34 ∷ all_escaped decoded.items }
    requires no_unit { unit_of (drop next bytes.now) ≡ None }
    ensures is { IsText bytes.now result }
    ensures within { LiesIn (length bytes.now) result }
{
    if bytes[next] == b'"' {
        Front::Token(Kind::Text(Text::new(decoded)), next + 1)
    } else if is_closed(&bytes[next..]) {
        Front::BadByte(next)
    } else {
        Front::OpenText
    }
}

// Whether a text that goes on with these bytes is closed on its line.
fn is_closed(bytes: &[u8]) -> bool
    ensures { result ≡ closed_on_line bytes.now }
{
    let mut is_escaped = false;
    for byte in bytes {
        if *byte == b'\n' {
            return false;
        }
        if *byte == b'"' && !is_escaped {
            return true;
        }
        is_escaped = *byte == b'\\' && !is_escaped;
    }
    false
}
