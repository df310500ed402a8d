// Why a plan text gives no plan.

use std::alloc::AllocError;
use thiserror::Error;

/// Why a plan text gives no plan. `line` is the number of the first line that isn't as awaited, from 1; a missing line,
/// or one without LF, is refused as the line that is awaited there.
#[derive(Clone, Copy, Debug, PartialEq, Eq, Error)]
pub enum CertRefusal {
    /// The first line isn't `op2plan 1`.
    #[error("line {line}: not the header of a plan text")]
    Header { line: u32 },
    /// The second isn't `ranks N block B` with the number of ranks, and with 1 to 65536 places a block, without leading
    /// zeros.
    #[error("line {line}: not the sizes of the plan")]
    Ranks { line: u32 },
    /// A `halo` line that isn't the program's.
    #[error("line {line}: not the halo awaited here")]
    Halo { line: u32 },
    /// A `site` line of another form, loop, rank or count of places, or without a colour below 4294967296 for each
    /// block and each place. Colours may have leading zeros.
    #[error("line {line}: not the colours awaited here")]
    Site { line: u32 },
    /// An `item` line that isn't the program's.
    #[error("line {line}: not the item awaited here")]
    Item { line: u32 },
    /// Two blocks in conflict have one colour.
    #[error("line {line}: two blocks in conflict have one colour")]
    BlockConflict { line: u32 },
    /// Two places of one block in conflict have one colour.
    #[error("line {line}: two places of a block in conflict have one colour")]
    InnerConflict { line: u32 },
    /// The line behind the items isn't `done`, or bytes follow it.
    #[error("line {line}: not the end of the plan")]
    End { line: u32 },
    /// The text gives a plan, which has `steps` steps, more than the limit `MAX_STEPS`.
    #[error("{steps} steps are too many")]
    TooManySteps { steps: u64 },
    /// Want of memory.
    #[error("out of memory")]
    OutOfMemory,
}

impl From<AllocError> for CertRefusal {
    ghost use Rattle.std.specs.Prelude.{◌≡◌};
    ghost use Rattle.plan_cert.specs.declared.types.CertRefusal.TheVariants.{OutOfMemory};

    ghost from_gives = { λ _ e. e ≡ OutOfMemory };

    fn from(_: AllocError) -> CertRefusal {
        CertRefusal::OutOfMemory
    }
}
