// Why a program is not bound.

use c_tree::Pos;
use std::alloc::{AllocError, AllocFailed};
use thiserror::Error;

/// A size that has a limit.
#[derive(Clone, Copy, PartialEq, Eq, Debug)]
pub enum Counted {
    Sets,
    Maps,
    Dats,
    SetSize,
    Dim,
    MeshCells,
    Arguments,
    PrintWeight,
}

/// Why a program is not bound; `at` is the place of the token that is refused.
#[derive(Clone, Copy, PartialEq, Eq, Debug, Error)]
pub enum BindRefusal {
    /// A name in a set's place is no set declared before.
    #[error("not a set")]
    UnknownSet {
        at: Pos,
    },
    /// A name in a map's place is no map declared before.
    #[error("not a map")]
    UnknownMap {
        at: Pos,
    },
    /// A name in a dat's place is no dat declared before.
    #[error("not a dat")]
    UnknownDat {
        at: Pos,
    },
    /// A name in a kernel's place is no kernel.
    #[error("not a kernel")]
    UnknownKernel {
        at: Pos,
    },
    /// A loop has not as many arguments as its kernel has parameters, or an `op_printf` not as many values as
    /// conversions.
    #[error("not as many as awaited")]
    ArgCount {
        at: Pos,
    },
    /// A dim of 0, a negative size, a length that is not size times dim, or a dim that is not its dat's or variable's.
    #[error("sizes do not agree")]
    DimMismatch {
        at: Pos,
    },
    /// A type other than `int`, a `&` too many or too few, or a `%` that begins no conversion.
    #[error("types do not agree")]
    TypeMismatch {
        at: Pos,
    },
    /// A dat that its argument does not lead to.
    #[error("sets do not agree")]
    SetMismatch {
        at: Pos,
    },
    /// An index that its map has not.
    #[error("an index out of range")]
    IndexRange {
        at: Pos,
    },
    /// An entry of the map of that number is no element of its set; the first such element and place.
    #[error("element {element} has no target at {place}")]
    MapTarget {
        at: Pos,
        map: u32,
        element: u32,
        place: u32,
    },
    /// A variable twice in one loop, not only read.
    #[error("a global a second time")]
    GlobalTwice {
        at: Pos,
    },
    /// An access that a global, or a constant, may not have.
    #[error("an access that is not allowed here")]
    ReservedAccess {
        at: Pos,
    },
    /// An expression that must be known before the run is not, or its evaluation faults.
    #[error("not known before the run")]
    ControlNotStatic {
        at: Pos,
    },
    /// `main` has more items and turns than its limit.
    #[error("a run too long")]
    TraceTooLong,
    /// A size beyond its limit.
    #[error("{size} are too many")]
    Limit {
        counted: Counted,
        size: u64,
    },
    /// A declaration in a block, `if` or `for`, or behind the first loop.
    #[error("a declaration out of place")]
    DeclarationPlace {
        at: Pos,
    },
    /// A name that stands for no entry of the mesh text of its kind, or for no variable that is asked for here.
    #[error("not known here")]
    UnknownEntry {
        at: Pos,
    },
    /// Want of memory.
    #[error("out of memory")]
    OutOfMemory,
}

impl From<AllocError> for BindRefusal {
    ghost use Rattle.std.specs.Prelude.{◌≡◌};
    ghost use Rattle.bound_program.specs.declared.refusals.refusals.BindRefusal.TheVariants.{OutOfMemory};

    ghost from_gives = { λ _ e. e ≡ OutOfMemory };

    fn from(_: AllocError) -> BindRefusal {
        BindRefusal::OutOfMemory
    }
}

impl<T: Drop> From<AllocFailed<T>> for BindRefusal {
    ghost use Rattle.std.specs.Prelude.{◌≡◌};
    ghost use Rattle.bound_program.specs.declared.refusals.refusals.BindRefusal.TheVariants.{OutOfMemory};

    ghost from_gives = { λ _ e. e ≡ OutOfMemory };

    fn from(_: AllocFailed<T>) -> BindRefusal {
        BindRefusal::OutOfMemory
    }
}
