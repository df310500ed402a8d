// Places in the source, and whether a line is still fresh.

ghost use Rattle.std.specs.Prelude.{◌≡◌, ◌+◌, ◌<◌, ◌^◌, length};
ghost use Rattle.c_tree.specs.Lexed.{after_byte, advance, fresh_after, start};

use crate::lexer::tokens::Pos;

/// The place after a byte.
pub fn after(pos: Pos, byte: u8) -> Pos
    requires line { pos.line + 1 < 2 ^ 32 }
    requires column { pos.column + 1 < 2 ^ 32 }
    ensures { result ≡ after_byte pos byte }
{
    if byte == b'\n' {
        Pos {
            line: pos.line + 1,
            column: 1,
        }
    } else {
        Pos {
            line: pos.line,
            column: pos.column + 1,
        }
    }
}

/// The place after bytes.
pub fn advanced(pos: Pos, bytes: &[u8]) -> Pos
    requires line { pos.line + length bytes.now < 2 ^ 32 }
    requires column { pos.column + length bytes.now < 2 ^ 32 }
    ensures { result ≡ advance pos bytes.now }
{
    let mut at = pos;
    for byte in bytes {
        at = after(at, *byte);
    }
    at
}

/// Whether only spaces and tabs stand on the line after these bytes, `fresh` being whether only they stood there
/// before.
pub fn is_fresh_after(fresh: bool, bytes: &[u8]) -> bool
    ensures { result ≡ fresh_after fresh bytes.now }
{
    let mut is_fresh = fresh;
    for byte in bytes {
        is_fresh = *byte == b'\n' || ((*byte == b' ' || *byte == b'\t') && is_fresh);
    }
    is_fresh
}

/// The place just past the last of the bytes, which are to be fewer than 2 ^ 32 - 2.
pub fn end_place(bytes: &[u8]) -> Pos
    requires { length bytes.now + 2 < 2 ^ 32 }
    ensures { result ≡ advance start bytes.now }
{
    advanced(Pos { line: 1, column: 1 }, bytes)
}
