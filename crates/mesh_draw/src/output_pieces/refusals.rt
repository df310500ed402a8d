// Why there is no piece.
use std::alloc::AllocError;
use thiserror::Error;

/// Why a dat can't be cut out of an output.
#[derive(Clone, Copy, Debug, PartialEq, Eq, Error)]
pub enum PieceRefusal {
    /// The program prints no such dat, or not so often.
    #[error("no such dat is printed")]
    NoPrint,
    /// The first line of the dat isn't where the trace says, at the end of this line, from 1.
    #[error("line {line}: not the first line of the dat")]
    NoHeader { line: u64 },
    /// The output ends before this line, from 1, which is one of the dat.
    #[error("line {line}: a row is missing")]
    FewRows { line: u64 },
    /// Want of memory.
    #[error("out of memory")]
    OutOfMemory,
}

impl From<AllocError> for PieceRefusal {
    ghost use Rattle.std.specs.Prelude.{◌≡◌};
    ghost use Rattle.mesh_draw.specs.declared.output_pieces.refusals.PieceRefusal.TheVariants.{OutOfMemory};

    ghost from_gives = { λ _ e. e ≡ OutOfMemory };

    fn from(_: AllocError) -> PieceRefusal {
        PieceRefusal::OutOfMemory
    }
}
