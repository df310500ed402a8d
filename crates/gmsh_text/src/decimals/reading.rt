// Reading a decimal times a scale.
ghost use Rattle.std.specs.Char.{is_ascii_digit};
ghost use Rattle.std.specs.Prelude.{◌≡◌, ◌<◌, ◌^◌, ℕ, true, length};
ghost use Rattle.std.specs.List.{All};
ghost use Rattle.gmsh_text.specs.Decimal.{decimal_of, fraction, behind_fraction};
ghost use Rattle.gmsh_text.specs.Nearest.{IsNearest, nearest, signed, fitted, judged, rounded_from};

use crate::decimals::digits::split_digits;
use crate::decimals::exponent::{Shift, read_shift, split_sign};
use crate::decimals::shifting::product;
use thiserror::Error;

/// Why a text times a scale is no integer.
#[derive(Clone, Copy, Debug, PartialEq, Eq, Error)]
pub enum DecimalRefusal {
    #[error("not a decimal number")]
    NotDecimal,
    #[error("number too large")]
    TooLarge,
}

/// The integer nearest to the decimal number that `text` spells times `scale`, which is not 0; a tie goes away from
/// zero. A decimal is what ISO C 7.22.1.3 reads as one, of any length: a sign or none, digits with or without a point,
/// at least one, and an exponent or none, as in `-1.5e-07`; no blanks, and neither hexadecimal digits, `inf` nor `nan`.
/// `NotDecimal` exactly where the text is something else, `TooLarge` exactly where the integer is outside -2147483648
/// to 2147483647.
pub fn read_scaled(text: &[u8], scale: u32) -> Result<i32, DecimalRefusal>
    requires { 0 < scale }
    ensures { result ≡ judged (decimal_of text.now) scale }
{
    let (minus, unsigned) = split_sign(text);
    let (whole, rest) = split_digits(unsigned);
    let (fraction, rest) = split_fraction(rest);
    if whole.is_empty() && fraction.is_empty() {
        return Err(DecimalRefusal::NotDecimal);
    }
    let Some(shift) = read_shift(rest) else {
        return Err(DecimalRefusal::NotDecimal);
    };
    rounded(scale, minus, whole, fraction, shift)
}

// The scale times a decimal, from its sign, its digits before and behind the point and the point's move, rounded.
fn rounded(
    scale: u32,
    minus: bool,
    whole: &[u8],
    fraction: &[u8],
    shift: Shift,
) -> Result<i32, DecimalRefusal>
    requires scale { 0 < scale }
    requires whole { All (λ c. is_ascii_digit c ≡ true) whole.now }
    requires fraction { All (λ c. is_ascii_digit c ≡ true) fraction.now }
    ensures { result ≡ rounded_from scale minus whole.now fraction.now shift }
{
    match product(u64::from(scale) * 2, whole, fraction, shift) {
        Some(twice) => with_sign(minus, twice.div_ceil(2)),
        None => Err(DecimalRefusal::TooLarge),
    }
}

// The digits behind a point that comes first, and what stands behind them.
fn split_fraction(text: &[u8]) -> (&[u8], &[u8])
    ensures fraction { result.0.now ≡ fraction text.now }
    ensures behind { result.1.now ≡ behind_fraction text.now }
    ensures digits { All (λ c. is_ascii_digit c ≡ true) result.0.now }
    ensures few { length result.0.now < 2 ^ 63 }
{
    match text {
        [b'.', rest @ ..] => split_digits(rest),
        _ => text.split_at(0),
    }
}

// A number with its sign, where it fits 32 bits.
fn with_sign(minus: bool, magnitude: u64) -> Result<i32, DecimalRefusal>
    ensures { result ≡ fitted (signed minus magnitude) }
{
    if minus {
        if magnitude > 1 << 31 {
            return Err(DecimalRefusal::TooLarge);
        }
        return Ok((-(magnitude as i64)) as i32);
    }
    if magnitude >= 1 << 31 {
        return Err(DecimalRefusal::TooLarge);
    }
    Ok(magnitude as i32)
}

/// A law: what the definition of scaled decimals rounds a fraction to is the number that is nearest, and no other is;
/// of two that are as near it is the greater.
pub fn nearest_is_one()
    ensures near { (n d : ℕ) → 0 < d → IsNearest n d (nearest n d) }
    ensures one { (n d q : ℕ) → 0 < d → IsNearest n d q → q ≡ nearest n d }
{}
