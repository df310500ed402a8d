// Why an operation has no value, and why a text spells no number.

use std::alloc::AllocError;
use thiserror::Error;

/// Want of memory: the one answer that no contract ties to a cause.
pub type OutOfMemory = AllocError;

/// Why an operation of a kernel or of `main` has no value; ISO C leaves these undefined.
#[derive(Clone, Copy, Debug, PartialEq, Eq, Error)]
pub enum Fault {
    #[error("division by zero")]
    DivZero,
    #[error("shift count outside 0 to 31")]
    ShiftCount,
    #[error("index out of range")]
    Index,
}

/// Why a text spells no number.
#[derive(Clone, Copy, Debug, PartialEq, Eq, Error)]
pub enum NumRefusal {
    #[error("not decimal digits")]
    NotDigits,
    #[error("number too large")]
    TooLarge,
}
