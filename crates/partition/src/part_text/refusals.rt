// Why a text gives no owners.
use std::alloc::{AllocError, AllocFailed};
use thiserror::Error;

/// Why a text spells no owners of a mesh. A line is that of the token that is refused, from 1; where a token is missing
/// it is the line of the last token, or 1 where there is none.
#[derive(Clone, Copy, Debug, PartialEq, Eq, Error)]
pub enum PartRefusal {
    /// The first two tokens are not `op2part 1`.
    #[error("line {line}: not the header of a partition text")]
    Header { line: u32 },
    /// A token that is out of place in another way than the others below, a set a second time (at its name), a missing
    /// `done`, or a token behind it.
    #[error("line {line}: not in the form of a partition text")]
    Syntax { line: u32 },
    /// Behind `set` a token that is the name of no set of the mesh.
    #[error("line {line}: no set of the mesh")]
    UnknownSet { line: u32 },
    /// `done` before each set of the mesh has its ranks.
    #[error("line {line}: a set is missing")]
    MissingSet { line: u32 },
    /// A COUNT of digits that is not the size of the set; a token that is not of digits, or the end, before COUNT ranks
    /// are there; or a token of digits where `set` or `done` is awaited.
    #[error("line {line}: not as many ranks as the set has elements")]
    WrongCount { line: u32 },
    /// A rank of digits that is not below the number of ranks.
    #[error("line {line}: a rank out of range")]
    RankRange { line: u32 },
    /// Want of memory.
    #[error("out of memory")]
    OutOfMemory,
}

impl From<AllocError> for PartRefusal {
    ghost use Rattle.std.specs.Prelude.{◌≡◌};
    ghost use Rattle.partition.specs.declared.part_text.refusals.PartRefusal.TheVariants.{OutOfMemory};

    ghost from_gives = { λ _ e. e ≡ OutOfMemory };

    fn from(_: AllocError) -> PartRefusal {
        PartRefusal::OutOfMemory
    }
}

impl<T: Drop> From<AllocFailed<T>> for PartRefusal {
    ghost use Rattle.std.specs.Prelude.{◌≡◌};
    ghost use Rattle.partition.specs.declared.part_text.refusals.PartRefusal.TheVariants.{OutOfMemory};

    ghost from_gives = { λ _ e. e ≡ OutOfMemory };

    fn from(_: AllocFailed<T>) -> PartRefusal {
        PartRefusal::OutOfMemory
    }
}
