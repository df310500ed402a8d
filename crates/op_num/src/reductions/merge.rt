// Sums, minima and maxima of `i32` (OP_INC, OP_MIN and OP_MAX of the OP2 manual).
ghost use Rattle.std.specs.Prelude.{◌≡◌, ℤ};
ghost use Rattle.op_num.specs.Reduction.{Reduction, Add, Min, Max, IsCommuting, unit_of, merged};

/// An operation that merges amounts into a cell, in any order and any grouping.
pub trait Merge {
    ghost kind: { Reduction };

    /// The amount that changes nothing.
    fn unit() -> i32
        ensures { result ≡ unit_of kind };

    /// `a` with the amount `b` merged into it.
    fn merge(a: i32, b: i32) -> i32
        ensures { result ≡ merged kind a b };
}

/// The sum modulo 2 ^ 32, in the range of `i32` (OP_INC).
pub struct Sum;

/// The minimum (OP_MIN).
pub struct Least;

/// The maximum (OP_MAX).
pub struct Greatest;

impl Merge for Sum {
    ghost kind = { Add };

    fn unit() -> i32 {
        0
    }

    fn merge(a: i32, b: i32) -> i32 {
        a.wrapping_add(b)
    }
}

impl Merge for Least {
    ghost kind = { Min };

    fn unit() -> i32 {
        i32::MAX
    }

    fn merge(a: i32, b: i32) -> i32 {
        a.min(b)
    }
}

impl Merge for Greatest {
    ghost kind = { Max };

    fn unit() -> i32 {
        i32::MIN
    }

    fn merge(a: i32, b: i32) -> i32 {
        a.max(b)
    }
}

/// A law: each operation is commutative and associative, its unit changes no `i32`, and no merge
/// leaves the range of `i32`.
pub fn reductions_commute()
    ensures { (r : Reduction) → IsCommuting (unit_of r) (merged r) }
{}
