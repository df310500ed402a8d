// Numbers of few bytes at the front of a text.
ghost use Rattle.std.specs.Prelude.{◌≡◌, ◌+◌, ◌<◌, ◌≤◌, ◌^◌, ◌&&◌, ◌∷◌, length, nat_lt, Some, None, IfSome, if◌then◌else◌};
ghost use Rattle.op_num.specs.Cut.{blank};
ghost use Rattle.op_num.specs.Short.{front_number, front_integer};

use crate::texts::cutter::is_blank;

// The integer that the bytes up to the first blank spell, where they are at most nine, and how many they are.
pub fn short_integer(bytes: &[u8]) -> Option<(i32, usize)>
    ensures is { result ≡ front_integer bytes.now }
    ensures within { IfSome result (λ r. r.1 ≤ length bytes.now) }
{
    match bytes {
        [b'-', digits @ ..] => short_negative(digits),
        _ => {
            let (number, len) = short_number(bytes, 9)?;
            Some((number as i32, len))
        }
    }
}

// The same behind a sign.
fn short_negative(digits: &[u8]) -> Option<(i32, usize)>
    ensures is { result ≡ front_integer (45 ∷ digits.now) }
    ensures within { IfSome result (λ r. r.1 ≤ length digits.now + 1) }
{
    let (number, len) = short_number(digits, 8)?;
    Some((-(number as i32), len + 1))
}

// The number that the bytes up to the first blank spell, where they are at most so many, and how many they are.
fn short_number(bytes: &[u8], most: usize) -> Option<(u32, usize)>
    requires { most ≤ 9 }
    ensures is { result ≡ front_number most bytes.now }
    ensures small { IfSome result (λ r. r.0 < 2 ^ 31) }
    ensures within { IfSome result (λ r. r.1 ≤ length bytes.now) }
{
    let mut number = 0;
    for (len, byte) in bytes.iter().enumerate() {
        if !byte.is_ascii_digit() {
            return ended(number, len, *byte);
        }
        if len == most {
            return None;
        }
        number = number * 10 + u32::from(*byte - b'0');
    }
    // The end counts as a blank.
    ended(number, bytes.len(), b'\n')
}

// A number of so many digits, where there are some and a blank stands behind them.
fn ended(number: u32, len: usize, behind: u8) -> Option<(u32, usize)>
    ensures { result ≡ if nat_lt 0 len && blank behind then Some (number, len) else None }
{
    (len > 0 && is_blank(behind)).then_some((number, len))
}
