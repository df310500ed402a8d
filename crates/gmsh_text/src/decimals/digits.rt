// Numbers of digits, from the left and from the right.
ghost use Rattle.std.specs.Char.{is_ascii_digit};
ghost use Rattle.std.specs.Prelude.{◌≡◌, ◌+◌, ◌*◌, ◌/◌, ◌^◌, ◌<◌, ◌≤◌, ℕ, true, length};
ghost use Rattle.std.specs.List.{All, prefix_len};
ghost use Rattle.gmsh_text.specs.Bounded.{bounded};
ghost use Rattle.gmsh_text.specs.Decimal.{front, behind, number_from};

// The digits that come first, and what stands behind them.
pub(crate) fn split_digits(text: &[u8]) -> (&[u8], &[u8])
    ensures front { result.0.now ≡ front text.now }
    ensures behind { result.1.now ≡ behind text.now }
    ensures digits { All (λ c. is_ascii_digit c ≡ true) result.0.now }
    ensures few { length result.0.now < 2 ^ 63 }
{
    text.split_at(digits_len(text))
}

// How many digits come first.
fn digits_len(text: &[u8]) -> usize
    ensures size { result ≡ prefix_len is_ascii_digit text.now }
    ensures within { result ≤ length text.now }
    ensures few { result < 2 ^ 63 }
{
    text.iter().take_while(|c| c.is_ascii_digit()).count()
}

// The number that the digits spell after those of `value`, while it fits 64 bits.
pub(crate) fn grown(value: Option<u64>, digits: &[u8]) -> Option<u64>
    requires { All (λ c. is_ascii_digit c ≡ true) digits.now }
    ensures { (n : ℕ) → value ≡ bounded n → result ≡ bounded (number_from n digits.now) }
{
    let mut value = value;
    for digit in digits {
        value = with_digit(value, u64::from(*digit - b'0'));
    }
    value
}

// The number with one more digit at its end, while it fits 64 bits.
fn with_digit(value: Option<u64>, digit: u64) -> Option<u64>
    ensures { (n : ℕ) → value ≡ bounded n → result ≡ bounded (n * 10 + digit) }
{
    value?.checked_mul(10)?.checked_add(digit)
}

// The whole part of `scale` times the fraction of these digits, where `carry` is what the digits behind them give.
pub(crate) fn lowered(scale: u64, carry: u64, digits: &[u8]) -> u64
    requires digits { All (λ c. is_ascii_digit c ≡ true) digits.now }
    requires scale { scale < 2 ^ 33 }
    requires carry { carry ≤ scale }
    ensures value { result ≡ (scale * number_from 0 digits.now + carry) / 10 ^ length digits.now }
    ensures low { result ≤ scale }
{
    let mut low = carry;
    for i in (0..digits.len()).rev() {
        low = (scale * u64::from(digits[i] - b'0') + low) / 10;
    }
    low
}
