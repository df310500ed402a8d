// Why reading tokens stops.

use std::alloc::{AllocError, AllocFailed};

/// Where reading stops, by the number of a token, and why.
#[derive(Clone, Copy, PartialEq, Eq, Debug)]
pub enum Fault {
    Syntax(usize),
    TooDeep(usize),
}

/// A fault of the tokens, or want of memory.
#[derive(Clone, Copy, Debug)]
pub enum ReadError {
    Memory,
    Fault(Fault),
}

impl From<AllocError> for ReadError {
    ghost use Rattle.std.specs.Prelude.{◌≡◌};
    ghost use Rattle.c_reader.specs.declared.faults.ReadError.TheVariants.{Memory};

    ghost from_gives = { λ _ e. e ≡ Memory };

    fn from(_: AllocError) -> ReadError {
        ReadError::Memory
    }
}

impl<T: Drop> From<AllocFailed<T>> for ReadError {
    ghost use Rattle.std.specs.Prelude.{◌≡◌};
    ghost use Rattle.c_reader.specs.declared.faults.ReadError.TheVariants.{Memory};

    ghost from_gives = { λ _ e. e ≡ Memory };

    fn from(_: AllocFailed<T>) -> ReadError {
        ReadError::Memory
    }
}
