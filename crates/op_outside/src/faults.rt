// What can fail outside of the program: a read, a write, and getting memory.

ghost use Rattle.std.specs.Prelude.{◌≡◌};
ghost use Rattle.op_outside.specs.declared.faults.ReadRefusal.TheVariants.{OutOfMemory as WantOfMemory};

use std::alloc::AllocError;
use thiserror::Error;

/// Want of memory: the one answer that no contract ties to a cause.
pub type OutOfMemory = AllocError;

/// A write that failed: the count of the sink rose.
#[derive(Clone, Copy, Debug, PartialEq, Eq, Error)]
#[error("cannot write")]
pub struct Failed;

/// Why a read gave nothing.
#[derive(Clone, Copy, Debug, PartialEq, Eq, Error)]
pub enum ShelfFault {
    /// The count of the shelf rose.
    #[error("cannot read")]
    Failed,
    /// The shelf tells its files and holds none under the name.
    #[error("no such file")]
    Missing,
}

/// Why a file was not read whole.
#[derive(Clone, Copy, Debug, PartialEq, Eq, Error)]
pub enum ReadRefusal {
    /// The count of the shelf rose.
    #[error("cannot read")]
    Failed,
    /// The shelf tells its files and holds none under the name.
    #[error("no such file")]
    Missing,
    /// The file has more bytes than the limit.
    #[error("file too large")]
    TooLarge,
    /// Want of memory.
    #[error("out of memory")]
    OutOfMemory,
}

impl From<AllocError> for ReadRefusal {
    ghost from_gives = { λ _ e. e ≡ WantOfMemory };

    fn from(_: AllocError) -> Self {
        ReadRefusal::OutOfMemory
    }
}
