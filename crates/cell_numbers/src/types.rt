// What is shown, and why there are no numbers.
use std::alloc::{AllocError, AllocFailed};
use thiserror::Error;

/// What the numbers of the elements of a set say.
#[derive(Clone, Copy, Debug, PartialEq, Eq)]
pub enum Shown {
    /// The rank that owns each.
    Owners,
    /// What the rank of that number has of each: 0 where it owns it, 1 and 2 where it imports it to execute and to
    /// read, else 3.
    Halos { rank: u32 },
    /// The colour of the block of each one's place on its owner, in the loop of that number, which runs over the set as
    /// a Free one.
    Colours { site: u32 },
}

/// Why there are no numbers. The first cause that is so counts, in this order.
#[derive(Clone, Copy, Debug, PartialEq, Eq, Error)]
pub enum ShownRefusal {
    /// There is no rank of that number.
    #[error("there is no such rank")]
    NoRank,
    /// There is no loop of that number that runs as a Free one.
    #[error("no Free loop of that number runs")]
    NoLoop,
    /// The loop isn't over the set.
    #[error("the loop is over another set")]
    OtherSet,
    /// Want of memory.
    #[error("out of memory")]
    OutOfMemory,
}

impl From<AllocError> for ShownRefusal {
    ghost use Rattle.std.specs.Prelude.{◌≡◌};
    ghost use Rattle.cell_numbers.specs.declared.types.ShownRefusal.TheVariants.{OutOfMemory};

    ghost from_gives = { λ _ e. e ≡ OutOfMemory };

    fn from(_: AllocError) -> ShownRefusal {
        ShownRefusal::OutOfMemory
    }
}

impl<T: Drop> From<AllocFailed<T>> for ShownRefusal {
    ghost use Rattle.std.specs.Prelude.{◌≡◌};
    ghost use Rattle.cell_numbers.specs.declared.types.ShownRefusal.TheVariants.{OutOfMemory};

    ghost from_gives = { λ _ e. e ≡ OutOfMemory };

    fn from(_: AllocFailed<T>) -> ShownRefusal {
        ShownRefusal::OutOfMemory
    }
}
