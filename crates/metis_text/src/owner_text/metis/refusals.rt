// Why a text gives no owners.

use std::alloc::{AllocError, AllocFailed};
use thiserror::Error;

/// Why a text has no owners of a set: the first line that isn't as awaited. Lines are counted from 1.
#[derive(Clone, Copy, Debug, PartialEq, Eq, Error)]
pub enum MetisRefusal {
    /// This line has no rank: it is empty, or begins with what isn't of digits or isn't below the number of ranks.
    #[error("line {line}: no rank")]
    NoRank { line: u32 },
    /// This line has more than a rank, or stands behind that of the last element and isn't empty.
    #[error("line {line}: more than one rank for each element")]
    Many { line: u32 },
    /// The text ends before this line, which is an element's.
    #[error("line {line}: fewer ranks than elements")]
    Few { line: u32 },
    /// Want of memory.
    #[error("out of memory")]
    OutOfMemory,
}

impl From<AllocError> for MetisRefusal {
    ghost use Rattle.std.specs.Prelude.{◌≡◌};
    ghost use Rattle.metis_text.specs.declared.owner_text.metis.refusals.MetisRefusal.TheVariants.{OutOfMemory};

    ghost from_gives = { λ _ e. e ≡ OutOfMemory };

    fn from(_: AllocError) -> MetisRefusal {
        MetisRefusal::OutOfMemory
    }
}

impl<T: Drop> From<AllocFailed<T>> for MetisRefusal {
    ghost use Rattle.std.specs.Prelude.{◌≡◌};
    ghost use Rattle.metis_text.specs.declared.owner_text.metis.refusals.MetisRefusal.TheVariants.{OutOfMemory};

    ghost from_gives = { λ _ e. e ≡ OutOfMemory };

    fn from(_: AllocFailed<T>) -> MetisRefusal {
        MetisRefusal::OutOfMemory
    }
}
