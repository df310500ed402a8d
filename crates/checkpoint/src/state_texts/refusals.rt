// Why a file tells no state of a program.
use std::alloc::{AllocError, AllocFailed};
use thiserror::Error;

/// Why a file tells no state of a program. `line` is the number of the first line that isn't the one awaited, from 1 in
/// the file; a line that is missing has the number that it would have.
#[derive(Clone, Copy, Debug, PartialEq, Eq, Error)]
pub enum StateRefusal {
    /// No line `op2state 1` stands behind another line; `line` is 1.
    #[error("line {line}: no state begins")]
    Header { line: u64 },
    /// The line behind the last such line isn't `item` and the number of an item before which the program is cut.
    #[error("line {line}: no item of a cut")]
    Item { line: u64 },
    /// A line `var` or `dat:` isn't that of the next variable or dat of the program.
    #[error("line {line}: another variable or dat")]
    Shape { line: u64 },
    /// A line of values isn't so many numbers of 32 bits between single spaces.
    #[error("line {line}: other values")]
    Value { line: u64 },
    /// The rest isn't the line `done`.
    #[error("line {line}: no end")]
    End { line: u64 },
    /// Want of memory.
    #[error("out of memory")]
    OutOfMemory,
}

impl From<AllocError> for StateRefusal {
    ghost use Rattle.std.specs.Prelude.{◌≡◌};
    ghost use Rattle.checkpoint.specs.declared.state_texts.refusals.StateRefusal.TheVariants.{OutOfMemory};

    ghost from_gives = { λ _ e. e ≡ OutOfMemory };

    fn from(_: AllocError) -> StateRefusal {
        StateRefusal::OutOfMemory
    }
}

impl<T: Drop> From<AllocFailed<T>> for StateRefusal {
    ghost use Rattle.std.specs.Prelude.{◌≡◌};
    ghost use Rattle.checkpoint.specs.declared.state_texts.refusals.StateRefusal.TheVariants.{OutOfMemory};

    ghost from_gives = { λ _ e. e ≡ OutOfMemory };

    fn from(_: AllocFailed<T>) -> StateRefusal {
        StateRefusal::OutOfMemory
    }
}
