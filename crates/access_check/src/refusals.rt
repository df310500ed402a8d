// Why a kernel is refused.

ghost use Rattle.std.specs.Prelude.{List};
ghost use Rattle.kernel_model.specs.declared.types.kernels.RKernel.{RKernel};
ghost use Rattle.kernel_model.specs.Obeys.{Mode};
ghost use Rattle.kernel_model.specs.Refusals.{IsRefusal};
ghost use Rattle.access_check.specs.Found.{rule_of};
ghost use Rattle.access_check.specs.Refusals.{Refuses};

use crate::found::{Breach, Rule};
use kernel_model::types::Pos;
use thiserror::Error;

/// The access rule that a kernel breaks at the earliest place; of those that it breaks there, the first in this order.
#[derive(Clone, Copy, Debug, PartialEq, Eq, Error)]
pub enum AccessRefusal {
    /// An `OP_READ` argument is a target.
    #[error("an OP_READ argument is assigned at {}:{}", at.line, at.column)]
    WritesRead { at: Pos },
    /// An `OP_INC`, `OP_MIN` or `OP_MAX` argument is read, other than as the target of its allowed form.
    #[error("an OP_INC, OP_MIN or OP_MAX argument is read at {}:{}", at.line, at.column)]
    ReadsInc { at: Pos },
    /// An `OP_INC` argument is the target of another assignment than `+=` and `-=`.
    #[error("an OP_INC argument is assigned other than by += and -= at {}:{}", at.line, at.column)]
    IncNotSum { at: Pos },
    /// A component of an `OP_WRITE` argument is read where it isn't assigned on every path before.
    #[error("a component of an OP_WRITE argument is read before it is assigned at {}:{}", at.line, at.column)]
    ReadsUnwritten { at: Pos },
    /// A component of an `OP_WRITE` argument isn't assigned on every path to the end.
    #[error("a component of the OP_WRITE argument at {}:{} isn't assigned on every path", at.line, at.column)]
    NotAllWritten { at: Pos },
    /// An index on an `OP_WRITE` argument isn't static.
    #[error("an index on an OP_WRITE argument isn't static at {}:{}", at.line, at.column)]
    WriteIndexNotStatic { at: Pos },
    /// A static index takes a value that isn't below the argument's dim.
    #[error("an index is out of range at {}:{}", at.line, at.column)]
    LiteralIndexOut { at: Pos },
    /// An `OP_MIN` argument is the target of another assignment than `P = MIN(P, e)` and `P = MIN(e, P)`, or an
    /// `OP_MAX` argument of another than the same with `MAX`.
    #[error("an OP_MIN or OP_MAX argument is assigned in another form at {}:{}", at.line, at.column)]
    MinMaxForm { at: Pos },
    /// Want of memory.
    #[error("out of memory")]
    OutOfMemory,
}

/// A breach as the refusal of a kernel.
pub fn refusal_of(breach: Breach) -> AccessRefusal
    ensures { (k : RKernel) (modes : List Mode) → IsRefusal k modes (rule_of breach.rule) breach.at → Refuses k modes result }
{
    let at = breach.at;
    match breach.rule {
        Rule::WritesRead => AccessRefusal::WritesRead { at },
        Rule::ReadsInc => AccessRefusal::ReadsInc { at },
        Rule::IncNotSum => AccessRefusal::IncNotSum { at },
        Rule::ReadsUnwritten => AccessRefusal::ReadsUnwritten { at },
        Rule::NotAllWritten => AccessRefusal::NotAllWritten { at },
        Rule::WriteIndexNotStatic => AccessRefusal::WriteIndexNotStatic { at },
        Rule::LiteralIndexOut => AccessRefusal::LiteralIndexOut { at },
        Rule::MinMaxForm => AccessRefusal::MinMaxForm { at },
    }
}
