// Why a source is not resolved.

use kernel_model::types::Pos;
use thiserror::Error;

/// The first rule on names and types that a source breaks, and the place of the name at which it does.
#[derive(Clone, Copy, PartialEq, Eq, Debug, Error)]
pub enum TypeRefusal {
    /// The name isn't known there.
    #[error("unknown name")]
    UnknownName { at: Pos },
    /// The name is declared again.
    #[error("name declared again")]
    DuplicateName { at: Pos },
    /// What is no array is indexed or dereferenced.
    #[error("no array")]
    NotAnArray { at: Pos },
    /// What is no scalar stands as a value or a target.
    #[error("no scalar")]
    NotAScalar { at: Pos },
    /// The counter of a `for` is assigned.
    #[error("assignment to a counter")]
    AssignsCounter { at: Pos },
    /// What is constant is assigned.
    #[error("assignment to a constant")]
    AssignsConst { at: Pos },
    /// A kernel does too much work or has too many cells, or an array has no cell or too many.
    #[error("too much work or too many cells")]
    TooMuchWork { at: Pos },
    /// Memory ran out.
    #[error("out of memory")]
    OutOfMemory,
}
