// Why a step, or the end of a schedule, is refused.

use schedule_steps::Step;
use thiserror::Error;

/// Why a step, or the end of a schedule, is refused.
#[derive(Clone, Copy, PartialEq, Eq, Debug, Error)]
pub enum ScheduleRefusal {
    /// The plan has no such step.
    #[error("no such step")]
    NoSuchStep,
    /// The step was taken before.
    #[error("a step twice")]
    Repeated,
    /// An earlier step is not taken; this is the least of these in standard order.
    #[error("a step too early")]
    TooEarly { missing: Step },
    /// A step is not taken at the end; this is the least of these in standard order.
    #[error("a step is left")]
    Incomplete { missing: Step },
}
