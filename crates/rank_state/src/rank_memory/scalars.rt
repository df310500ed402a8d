// The cells of variables in an element's windows: their first values, and the amounts that they leave.

ghost use Rattle.std.specs.Prelude.{◌≡◌, ℕ, ◌+◌, ◌^◌, ◌<◌, ◌≤◌, ◌++◌, length, take};
ghost use Rattle.op_num.specs.Reduction.{unit_of, merged};
ghost use Rattle.rank_state.specs.Windows.{operation, index, first, firsts, amount as put_one, amounts, Reads, InSlots, Merges};

use crate::{Operation, Scalar};
use op_num::reductions::{Greatest, Least, Merge, Sum};

/// The amount that changes nothing.
pub fn unit(how: Operation) -> i32
    ensures { result ≡ unit_of (operation how) }
{
    match how {
        Operation::Sum => Sum::unit(),
        Operation::Least => Least::unit(),
        Operation::Greatest => Greatest::unit(),
    }
}

/// Two amounts merged.
pub fn merge(how: Operation, a: i32, b: i32) -> i32
    ensures { result ≡ merged (operation how) a b }
{
    match how {
        Operation::Sum => Sum::merge(a, b),
        Operation::Least => Least::merge(a, b),
        Operation::Greatest => Greatest::merge(a, b),
    }
}

// What a scalar's window begins with.
fn first_value(variables: &[i32], scalar: Scalar) -> i32
    requires { index scalar < length variables.now }
    ensures { result ≡ first variables.now scalar }
{
    match scalar {
        Scalar::Value { at } => variables[at],
        Scalar::Amount { how, .. } => unit(how),
    }
}

/// Puts the scalars' first values into the frame, from a place on.
pub fn fill(variables: &[i32], scalars: &[Scalar], from: usize, frame: &mut [i32])
    requires inside { Reads (length variables.now) scalars.now }
    requires room { from + length scalars.now ≤ length frame.old }
    ensures { take (from + length scalars.now) frame.new ≡ take from frame.old ++ firsts variables.now scalars.now }
{
    for (i, scalar) in scalars.iter().enumerate() {
        frame[from + i] = first_value(variables, *scalar);
    }
}

/// Merges a frame's amounts, one for each scalar from its front on, into the partials.
pub fn merge_amounts(partials: &mut [i32], scalars: &[Scalar], windows: &[i32])
    requires inside { Merges (length partials.old) scalars.now }
    requires room { length scalars.now ≤ length windows.now }
    ensures { partials.new ≡ amounts scalars.now windows.now partials.old }
{
    for (i, scalar) in scalars.iter().enumerate() {
        put_amount(partials, *scalar, windows[i]);
    }
}

// Merges one amount into its partial.
fn put_amount(partials: &mut [i32], scalar: Scalar, amount: i32)
    requires { InSlots (length partials.old) scalar }
    ensures { partials.new ≡ put_one scalar amount partials.old }
{
    if let Scalar::Amount { slot, how, .. } = scalar {
        partials[slot] = merge(how, partials[slot], amount);
    }
}
