// Signs and exponents.
ghost use Rattle.std.specs.Prelude.{◌≡◌};
ghost use Rattle.op_num.specs.Spelling.{number_of};
ghost use Rattle.gmsh_text.specs.Bounded.{IsShift, IsCut};
ghost use Rattle.gmsh_text.specs.Decimal.{is_minus, unsigned, power_of};

use op_num::{NumRefusal, read_u64};

// Which way the point of a decimal moves, and how many places, cut at the greatest number of 64 bits.
#[derive(Clone, Copy, Debug)]
pub(crate) enum Shift {
    Left(u64),
    Right(u64),
}

// Whether `-` comes first, and what stands behind the sign.
pub(crate) fn split_sign(text: &[u8]) -> (bool, &[u8])
    ensures minus { result.0 ≡ is_minus text.now }
    ensures rest { result.1.now ≡ unsigned text.now }
{
    match text {
        [b'-', rest @ ..] => (true, rest),
        [b'+', rest @ ..] => (false, rest),
        _ => (false, text),
    }
}

// How an exponent moves the point, where the text is one.
pub(crate) fn read_shift(text: &[u8]) -> Option<Shift>
    ensures { IsShift result (power_of text.now) }
{
    match text {
        [] => Some(Shift::Right(0)),
        [b'e' | b'E', exponent @ ..] => {
            let (minus, digits) = split_sign(exponent);
            let by = read_places(digits)?;
            if minus {
                Some(Shift::Left(by))
            } else {
                Some(Shift::Right(by))
            }
        }
        _ => None,
    }
}

// The number that digits spell, cut at the greatest of 64 bits.
fn read_places(digits: &[u8]) -> Option<u64>
    ensures { IsCut result (number_of digits.now) }
{
    match read_u64(digits) {
        Ok(by) => Some(by),
        Err(NumRefusal::TooLarge) => Some(u64::MAX),
        Err(NumRefusal::NotDigits) => None,
    }
}
