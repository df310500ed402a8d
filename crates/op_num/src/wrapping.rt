// Arithmetic on `i32` in two's complement (ISO C 6.5.3 to 6.5.7), each result reduced modulo 2 ^ 32
// into the range of `i32`; C leaves the overflows undefined, and this profile makes them wrap.
ghost use Rattle.std.specs.Prelude.{◌≡◌, ◌<◌, ◌≤◌, ◌↔◌, ◌⊎◌, ℤ, pos, neg_ℤ, ◌+ℤ◌, ◌-ℤ◌, ◌*ℤ◌, ◌<ℤ◌, ◌≤ℤ◌, int_div, unsigned_abs, IfOk};
ghost use Rattle.std.specs.Prelude.{IfErr, IsErrOf};
ghost use Rattle.op_num.specs.Wrapping.{IsReduced, wrapped, absolute, remainder, doubled, halved};

use crate::Fault;

/// `a + b`, reduced modulo 2 ^ 32 into the range of `i32`.
pub fn wrap_add(a: i32, b: i32) -> i32
    ensures { result ≡ wrapped (a +ℤ b) }
{
    a.wrapping_add(b)
}

/// `a - b`, reduced modulo 2 ^ 32 into the range of `i32`.
pub fn wrap_sub(a: i32, b: i32) -> i32
    ensures { result ≡ wrapped (a -ℤ b) }
{
    a.wrapping_sub(b)
}

/// `a * b`, reduced modulo 2 ^ 32 into the range of `i32`.
pub fn wrap_mul(a: i32, b: i32) -> i32
    ensures { result ≡ wrapped (a *ℤ b) }
{
    a.wrapping_mul(b)
}

/// `-a`, reduced likewise: of -2147483648 it is -2147483648.
pub fn wrap_neg(a: i32) -> i32
    ensures { result ≡ wrapped (neg_ℤ a) }
{
    a.wrapping_neg()
}

/// The absolute value of `a`, reduced likewise: of -2147483648 it is -2147483648.
pub fn abs(a: i32) -> i32
    ensures { result ≡ wrapped (absolute a) }
{
    a.wrapping_abs()
}

/// The quotient `a / b`, truncated towards zero (ISO C 6.5.5) and reduced: of -2147483648 by -1 it
/// is -2147483648. `DivZero` exactly where `b` is 0.
pub fn div(a: i32, b: i32) -> Result<i32, Fault>
    ensures value { IfOk result (λ q. q ≡ wrapped (int_div a b)) }
    ensures fault { IsErrOf result Fault.DivZero ↔ (b ≡ pos 0) }
    ensures only { IfErr result (λ e. e ≡ Fault.DivZero) }
{
    if b == 0 {
        return Err(Fault::DivZero);
    }
    Ok(a.wrapping_div(b))
}

/// The remainder `a - (a / b) * b` (ISO C 6.5.5), with the sign of `a`; of -2147483648 by -1 it is
/// 0. `DivZero` exactly where `b` is 0.
pub fn rem(a: i32, b: i32) -> Result<i32, Fault>
    ensures value { IfOk result (λ r. r ≡ remainder a b) }
    ensures fault { IsErrOf result Fault.DivZero ↔ (b ≡ pos 0) }
    ensures only { IfErr result (λ e. e ≡ Fault.DivZero) }
{
    if b == 0 {
        return Err(Fault::DivZero);
    }
    Ok(a.wrapping_rem(b))
}

/// `a << n`: `a` times two to the power `n`, reduced (ISO C 6.5.7, bits beyond the 32nd dropped).
/// `ShiftCount` exactly where `n` is outside 0 to 31.
pub fn shl(a: i32, n: i32) -> Result<i32, Fault>
    ensures value { IfOk result (λ r. r ≡ wrapped (doubled a (unsigned_abs n))) }
    ensures fault { IsErrOf result Fault.ShiftCount ↔ ((n <ℤ pos 0) ⊎ (pos 31 <ℤ n)) }
    ensures only { IfErr result (λ e. e ≡ Fault.ShiftCount) }
{
    if n < 0 || n > 31 {
        return Err(Fault::ShiftCount);
    }
    Ok(a << n as u32)
}

/// `a >> n`: `a` by two to the power `n`, rounded down, so that the sign is kept (ISO C 6.5.7).
/// `ShiftCount` exactly where `n` is outside 0 to 31.
pub fn shr(a: i32, n: i32) -> Result<i32, Fault>
    ensures value { IfOk result (λ r. r ≡ halved a (unsigned_abs n)) }
    ensures fault { IsErrOf result Fault.ShiftCount ↔ ((n <ℤ pos 0) ⊎ (pos 31 <ℤ n)) }
    ensures only { IfErr result (λ e. e ≡ Fault.ShiftCount) }
{
    if n < 0 || n > 31 {
        return Err(Fault::ShiftCount);
    }
    Ok(a >> n as u32)
}

/// A law: each reduced integer is in the range of `i32` and differs from what it was by a multiple of 2 ^ 32.
pub fn reduced_by_turns()
    ensures { (z : ℤ) → IsReduced z (wrapped z) }
{}
