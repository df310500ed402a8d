// Decimal spellings.
ghost use Rattle.std.specs.Int.{w32};
ghost use Rattle.std.specs.Prelude.{ℤ, FitsSigned, ℕ, Some, ◌^◌, ◌≡◌, ◌++◌, ◌<◌, OnOk, OnErr};
ghost use Rattle.std.specs.Fmt.{decimal, signed_decimal};
ghost use Rattle.op_num.specs.Spelling.{number_of, integer_of, u64_judged, i32_judged, more_digit};

use crate::{NumRefusal, OutOfMemory};
use itoa::Buffer;

/// The number that `text` spells: one or more decimal digits and nothing else, leading zeros allowed.
/// `NotDigits` exactly where the text is something else, `TooLarge` exactly where the value is above
/// 18446744073709551615.
pub fn read_u64(text: &[u8]) -> Result<u64, NumRefusal>
    ensures { result ≡ u64_judged (number_of text.now) }
{
    if text.is_empty() {
        return Err(NumRefusal::NotDigits);
    }
    let mut value = Some(0u64);
    for byte in text {
        if !byte.is_ascii_digit() {
            return Err(NumRefusal::NotDigits);
        }
        let digit = u64::from(*byte - b'0');
        value = with_digit(value, digit);
    }
    value.ok_or(NumRefusal::TooLarge)
}

/// The number that `text` spells: one or more decimal digits, behind one `-` or not, leading zeros
/// allowed. `NotDigits` exactly where the text is something else, `TooLarge` exactly where the value
/// is outside -2147483648 to 2147483647.
pub fn read_i32(text: &[u8]) -> Result<i32, NumRefusal>
    ensures { result ≡ i32_judged (integer_of text.now) }
{
    match text {
        [b'-', digits @ ..] => {
            let value = read_u64(digits)?;
            if value > 1 << 31 {
                return Err(NumRefusal::TooLarge);
            }
            Ok((-(value as i64)) as i32)
        }
        _ => {
            let value = read_u64(text)?;
            if value >= 1 << 31 {
                return Err(NumRefusal::TooLarge);
            }
            Ok(value as i32)
        }
    }
}

// The number with one more digit at its end, where there is one and it fits.
fn with_digit(value: Option<u64>, digit: u64) -> Option<u64>
    requires { digit < 10 }
    ensures { result ≡ more_digit value digit }
{
    value?.checked_mul(10)?.checked_add(digit)
}

/// Appends the shortest decimal spelling of `value`. On want of memory `out` holds what it held.
pub fn put_i32(out: &mut Vec<u8>, value: i32) -> Result<(), OutOfMemory>
    ensures ok { OnOk result (out.new.items ≡ out.old.items ++ signed_decimal value) }
    ensures err { OnErr result (out.new.items ≡ out.old.items) }
{
    let mut buffer = Buffer::new();
    out.extend_from_slice(buffer.format(value).as_bytes())
}

/// A law: `read_i32` reads what `put_i32` wrote.
pub fn printed_is_read()
    ensures { (z : ℤ) → FitsSigned w32 z → i32_judged (integer_of (signed_decimal z)) ≡ Ok z }
{}

/// Appends the shortest decimal spelling of `value`. On want of memory `out` holds what it held.
pub fn put_u64(out: &mut Vec<u8>, value: u64) -> Result<(), OutOfMemory>
    ensures ok { OnOk result (out.new.items ≡ out.old.items ++ decimal value) }
    ensures err { OnErr result (out.new.items ≡ out.old.items) }
{
    let mut digits = Buffer::new();
    out.extend_from_slice(digits.format(value).as_bytes())
}

/// A law: `read_u64` reads what `put_u64` wrote.
pub fn number_is_read()
    ensures { (n : ℕ) → n < 2 ^ 64 → number_of (decimal n) ≡ Some n }
{}
