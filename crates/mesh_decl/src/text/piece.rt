// A token where values are awaited.
ghost use Rattle.std.specs.Prelude.{◌≡◌, ◌<◌, ◌≤◌, ◌^◌, length, IfSome, Some, Ok};
ghost use Rattle.op_num.specs.Spelling.{number_of, integer_of, i32_judged};
ghost use Rattle.std.specs.List.{prefix_len};
ghost use Rattle.mesh_decl.specs.Piece.{piece_of, value_piece, run_piece, times_piece, no_star};

use crate::text::entry::Form;
use op_num::{NumRefusal, read_i32, read_u64};

/// What a token says where values are awaited: one value that stands a number of times, or why it is none.
#[derive(Clone, Copy, Debug, PartialEq, Eq)]
pub enum Piece {
    Values { times: u64, value: i32 },
    NoPiece,
    OutOfRange,
    NoTimes,
}

/// What a token says where values are awaited, in this version of the format.
pub fn read_piece(form: Form, text: &[u8]) -> Piece
    ensures { result ≡ piece_of form text.now }
{
    match form {
        Form::One => read_value(text),
        Form::Two => {
            let star = before_star(text);
            if star == text.len() {
                return read_value(text);
            }
            let (digits, rest) = text.split_at(star);
            read_run(digits, rest.split_at(1).1)
        }
    }
}

fn read_value(text: &[u8]) -> Piece
    ensures { result ≡ value_piece text.now }
{
    match short_value(text) {
        Some(value) => Piece::Values { times: 1, value },
        None => read_long_value(text),
    }
}

// The value that a text spells, where its digits are so few.
fn short_value(text: &[u8]) -> Option<i32>
    ensures { IfSome result (λ z. i32_judged (integer_of text.now) ≡ Ok z) }
{
    match text {
        [b'-', digits @ ..] => Some(-(short_number(digits)? as i32)),
        _ => Some(short_number(text)? as i32),
    }
}

// The same of any digits.
fn read_long_value(text: &[u8]) -> Piece
    ensures { result ≡ value_piece text.now }
{
    match read_i32(text) {
        Ok(value) => Piece::Values { times: 1, value },
        Err(NumRefusal::TooLarge) => Piece::OutOfRange,
        Err(NumRefusal::NotDigits) => Piece::NoPiece,
    }
}

// The number that digits spell, where those before the last spell at most 214748363.
fn short_number(text: &[u8]) -> Option<u32>
    ensures { IfSome result (λ n. (number_of text.now ≡ Some n) × (n < 2 ^ 31)) }
{
    if text.is_empty() {
        return None;
    }
    let mut value = 0;
    for byte in text {
        if !byte.is_ascii_digit() || value > 214_748_363 {
            return None;
        }
        value = value * 10 + u32::from(*byte - b'0');
    }
    Some(value)
}

// A run of a number of values.
fn read_run(times: &[u8], value: &[u8]) -> Piece
    ensures { result ≡ run_piece times.now value.now }
{
    match (read_u64(times), read_i32(value)) {
        (Err(NumRefusal::NotDigits), _) => Piece::NoPiece,
        (_, Err(NumRefusal::NotDigits)) => Piece::NoPiece,
        (Ok(times), Ok(value)) => times_value(times, value),
        _ => Piece::OutOfRange,
    }
}

fn times_value(times: u64, value: i32) -> Piece
    ensures { result ≡ times_piece times value }
{
    if times > 2147483647 {
        Piece::OutOfRange
    } else if times == 0 {
        Piece::NoTimes
    } else {
        Piece::Values { times, value }
    }
}

// How many bytes stand before the first `*`.
fn before_star(text: &[u8]) -> usize
    ensures size { result ≡ prefix_len no_star text.now }
    ensures within { result ≤ length text.now }
{
    text.iter().take_while(|b| **b != b'*').count()
}
