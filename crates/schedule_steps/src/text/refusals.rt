// Why a text gives no steps.
use std::alloc::{AllocError, AllocFailed};
use thiserror::Error;

/// Why a text spells no schedule. A line is that of the token that is refused, from 1; where a token is missing it is
/// the line of the last token, or 1 where there is none.
#[derive(Clone, Copy, Debug, PartialEq, Eq, Error)]
pub enum ScheduleTextRefusal {
    /// The first two tokens are not `op2sched 1`.
    #[error("line {line}: not the header of a schedule text")]
    Header { line: u32 },
    /// A token that is out of place behind the header, a number above 4294967295, a missing `done`, or a token behind
    /// it.
    #[error("line {line}: not in the form of a schedule text")]
    Syntax { line: u32 },
    /// The first word of a step behind [`SCHEDULE_STEPS`](crate::text::SCHEDULE_STEPS) others.
    #[error("too many steps")]
    TooManySteps,
    /// Want of memory.
    #[error("out of memory")]
    OutOfMemory,
}

impl From<AllocError> for ScheduleTextRefusal {
    ghost use Rattle.std.specs.Prelude.{◌≡◌};
    ghost use Rattle.schedule_steps.specs.declared.text.refusals.ScheduleTextRefusal.TheVariants.{OutOfMemory};

    ghost from_gives = { λ _ e. e ≡ OutOfMemory };

    fn from(_: AllocError) -> ScheduleTextRefusal {
        ScheduleTextRefusal::OutOfMemory
    }
}

impl<T: Drop> From<AllocFailed<T>> for ScheduleTextRefusal {
    ghost use Rattle.std.specs.Prelude.{◌≡◌};
    ghost use Rattle.schedule_steps.specs.declared.text.refusals.ScheduleTextRefusal.TheVariants.{OutOfMemory};

    ghost from_gives = { λ _ e. e ≡ OutOfMemory };

    fn from(_: AllocFailed<T>) -> ScheduleTextRefusal {
        ScheduleTextRefusal::OutOfMemory
    }
}
