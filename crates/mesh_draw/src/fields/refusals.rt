// Why there are no fields.
use std::alloc::AllocError;
use thiserror::Error;

/// Why an output gives no fields.
#[derive(Clone, Copy, Debug, PartialEq, Eq, Error)]
pub enum FieldRefusal {
    /// The first line of a dat isn't where the trace says, at the end of this line, from 1.
    #[error("line {line}: not the first line of the dat")]
    NoHeader { line: u64 },
    /// The output ends before this line, from 1, which is one of a dat.
    #[error("line {line}: a row is missing")]
    FewRows { line: u64 },
    /// This line, from 1, hasn't a number for each component of its dat.
    #[error("line {line}: not the numbers of an element")]
    NotNumbers { line: u64 },
    /// Want of memory.
    #[error("out of memory")]
    OutOfMemory,
}

impl From<AllocError> for FieldRefusal {
    ghost use Rattle.std.specs.Prelude.{◌≡◌};
    ghost use Rattle.mesh_draw.specs.declared.fields.refusals.FieldRefusal.TheVariants.{OutOfMemory};

    ghost from_gives = { λ _ e. e ≡ OutOfMemory };

    fn from(_: AllocError) -> FieldRefusal {
        FieldRefusal::OutOfMemory
    }
}
