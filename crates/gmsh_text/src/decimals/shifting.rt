// Decimals times a scale, rounded down.
ghost use Rattle.std.specs.Char.{is_ascii_digit};
ghost use Rattle.std.specs.Prelude.{◌≡◌, ◌+◌, ◌++◌, ◌*◌, ◌/◌, ◌^◌, ◌<◌, ◌≤◌, ℕ, true, length};
ghost use Rattle.std.specs.List.{All};
ghost use Rattle.gmsh_text.specs.Bounded.{bounded, product_from};
ghost use Rattle.gmsh_text.specs.Decimal.{number_from};

use crate::decimals::digits::{grown, lowered};
use crate::decimals::exponent::Shift;

// The scale times the digits before and behind a point, which is then moved; rounded down, while it fits 64 bits.
pub(crate) fn product(scale: u64, whole: &[u8], fraction: &[u8], shift: Shift) -> Option<u64>
    requires scale { (0 < scale) × (scale < 2 ^ 33) }
    requires whole { All (λ c. is_ascii_digit c ≡ true) whole.now }
    requires fraction { All (λ c. is_ascii_digit c ≡ true) fraction.now }
    ensures { result ≡ product_from scale whole.now fraction.now shift }
{
    match shift {
        Shift::Left(by) => moved_left(scale, whole, fraction, by),
        Shift::Right(by) => moved_right(scale, whole, fraction, by),
    }
}

// The product for a point that is moved to the left.
fn moved_left(scale: u64, whole: &[u8], fraction: &[u8], by: u64) -> Option<u64>
    requires scale { (0 < scale) × (scale < 2 ^ 33) }
    requires whole { All (λ c. is_ascii_digit c ≡ true) whole.now }
    requires fraction { All (λ c. is_ascii_digit c ≡ true) fraction.now }
    ensures { result ≡ bounded (scale * number_from 0 (whole.now ++ fraction.now) / 10 ^ (by + length fraction.now)) }
{
    let carry = lowered(scale, 0, fraction);
    let places = whole.len() as u64;
    if by >= places {
        let low = lowered(scale, carry, whole);
        return Some(quotient(low, by - places));
    }
    let (high, low) = whole.split_at((places - by) as usize);
    joined(scale, grown(Some(0), high), lowered(scale, carry, low))
}

// The product for a point that is moved to the right.
fn moved_right(scale: u64, whole: &[u8], fraction: &[u8], by: u64) -> Option<u64>
    requires scale { (0 < scale) × (scale < 2 ^ 33) }
    requires whole { All (λ c. is_ascii_digit c ≡ true) whole.now }
    requires fraction { All (λ c. is_ascii_digit c ≡ true) fraction.now }
    ensures { result ≡ bounded (scale * number_from 0 (whole.now ++ fraction.now) * 10 ^ by / 10 ^ length fraction.now) }
{
    let places = fraction.len() as u64;
    let high = grown(Some(0), whole);
    if by >= places {
        let all = grown(high, fraction);
        return joined(scale, raised(all, by - places), 0);
    }
    let (part, low) = fraction.split_at(by as usize);
    joined(scale, grown(high, part), lowered(scale, 0, low))
}

// `scale * high + low`, while it fits 64 bits.
fn joined(scale: u64, high: Option<u64>, low: u64) -> Option<u64>
    requires { 0 < scale }
    ensures { (n : ℕ) → high ≡ bounded n → result ≡ bounded (scale * n + low) }
{
    scale.checked_mul(high?)?.checked_add(low)
}

// The number times a power of ten, while it fits 64 bits.
fn raised(value: Option<u64>, by: u64) -> Option<u64>
    ensures { (n : ℕ) → value ≡ bounded n → result ≡ bounded (n * 10 ^ by) }
{
    let value = value?;
    if value == 0 {
        return Some(0);
    }
    value.checked_mul(power(by)?)
}

// The quotient of a number by a power of ten, rounded down.
fn quotient(value: u64, by: u64) -> u64
    ensures { result ≡ value / 10 ^ by }
{
    match power(by) {
        Some(power) => value / power,
        None => 0,
    }
}

// A power of ten, where it fits 64 bits.
fn power(by: u64) -> Option<u64>
    ensures { result ≡ bounded (10 ^ by) }
{
    if by > 19 {
        return None;
    }
    Some(10u64.pow(by as u32))
}
