// The classes of bytes, and how far names and numbers reach.

ghost use Rattle.std.specs.Prelude.{◌≡◌, ◌≤◌, ◌<◌, length, pos, true, IfSome, IfNone};
ghost use Rattle.std.specs.List.{prefix_len, list_all};
ghost use Rattle.c_tree.specs.Spelling.{blank, letter, digit, part, value_of};

/// Whether the byte is a space, a tab, CR or LF.
pub fn is_blank(b: u8) -> bool
    ensures { result ≡ blank b }
{
    b == b' ' || b == b'\t' || b == b'\r' || b == b'\n'
}

/// Whether the byte is a letter or `_`.
pub fn is_letter(b: u8) -> bool
    ensures { result ≡ letter b }
{
    (b'a' <= b && b <= b'z') || (b'A' <= b && b <= b'Z') || b == b'_'
}

/// Whether the byte is a decimal digit.
pub fn is_digit(b: u8) -> bool
    ensures { result ≡ digit b }
{
    b'0' <= b && b <= b'9'
}

/// Whether the byte can go on with a name.
pub fn is_part(b: u8) -> bool
    ensures { result ≡ part b }
{
    is_letter(b) || is_digit(b)
}

/// How many letters, digits and `_` stand at the front.
pub fn name_len(bytes: &[u8]) -> usize
    ensures size { result ≡ prefix_len part bytes.now }
    ensures within { result ≤ length bytes.now }
{
    bytes.iter().take_while(|b| is_part(**b)).count()
}

/// How many digits stand at the front.
pub fn digits_len(bytes: &[u8]) -> usize
    ensures size { result ≡ prefix_len digit bytes.now }
    ensures within { result ≤ length bytes.now }
{
    bytes.iter().take_while(|b| is_digit(**b)).count()
}

/// The number that digits spell, or none where it is above 2147483647.
pub fn number(digits: &[u8]) -> Option<i32>
    requires { list_all digit digits.now ≡ true }
    ensures some { IfSome result (λ z. (z ≡ pos (value_of digits.now)) × (value_of digits.now < 2147483648)) }
    ensures none { IfNone result (2147483648 ≤ value_of digits.now) }
{
    let mut value: u32 = 0;
    for digit in digits {
        if value > 214748364 {
            return None;
        }
        value = 10 * value + u32::from(*digit - b'0');
        if value > 2147483647 {
            return None;
        }
    }
    Some(value as i32)
}
