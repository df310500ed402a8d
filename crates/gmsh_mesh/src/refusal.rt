// Why a file of Gmsh is no mesh here.
ghost use Rattle.std.specs.Prelude.{◌≡◌};
ghost use Rattle.gmsh_mesh.specs.Stages.{line_of};

use gmsh_text::TextRefusal;
use std::alloc::{AllocError, AllocFailed};
use thiserror::Error;

/// Why a file of Gmsh gives no mesh text. A line is that of the token that is refused, of the element's tag, or of the
/// node's tag or coordinate, from 1.
#[derive(Clone, Copy, Debug, PartialEq, Eq, Error)]
pub enum GmshRefusal {
    /// The bytes are no text of Gmsh that is read.
    #[error("{cause}")]
    Text { cause: TextRefusal },
    /// No element is a cell of the dimension: a triangle or a quadrangle, or a tetrahedron or a hexahedron.
    #[error("no cells of this dimension")]
    NoCells,
    /// A cell of another type than the first.
    #[error("line {line}: a cell of another type than the first")]
    TwoTypes { line: u32 },
    /// A node's tag that a node before has.
    #[error("line {line}: a node's tag a second time")]
    DuplicateTag { line: u32 },
    /// A coordinate that is no integer of 32 bits at this scale; `largest` is the largest scale at which it is one.
    #[error("line {line}: a coordinate out of range; the largest scale for it is {largest}")]
    Coordinate { line: u32, largest: u32 },
    /// A third coordinate of a plane mesh that is not 0 at this scale.
    #[error("line {line}: a node outside the plane")]
    NotPlane { line: u32 },
    /// A cell or an element of the boundary that has a node that isn't there.
    #[error("line {line}: a node that is not there")]
    UnknownTag { line: u32 },
    /// A cell with a side that two sides of cells before have.
    #[error("line {line}: a third cell at one face")]
    ThirdCell { line: u32 },
    /// An element of the boundary whose face is in two physical groups.
    #[error("line {line}: a face in two physical groups")]
    TwoGroups { line: u32 },
    /// The mesh has more values than a mesh text, `size` in all.
    #[error("{size} values are too many")]
    Limit { size: u64 },
    /// The mesh text would have more bytes than are read again, `size` in all.
    #[error("{size} bytes are too many")]
    Bytes { size: u64 },
    /// Want of memory.
    #[error("out of memory")]
    OutOfMemory,
}

impl GmshRefusal {
    // The line that is told, or 0.
    pub(crate) fn line(self) -> u32
        ensures { result ≡ line_of self }
    {
        match self {
            GmshRefusal::TwoTypes { line }
            | GmshRefusal::DuplicateTag { line }
            | GmshRefusal::Coordinate { line, .. }
            | GmshRefusal::NotPlane { line }
            | GmshRefusal::UnknownTag { line }
            | GmshRefusal::ThirdCell { line }
            | GmshRefusal::TwoGroups { line } => line,
            _ => 0,
        }
    }
}

impl From<TextRefusal> for GmshRefusal {
    ghost use Rattle.std.specs.Prelude.{◌≡◌};
    ghost use Rattle.gmsh_mesh.specs.Outcome.{of_text};

    ghost from_gives = { λ t e. e ≡ of_text t };

    fn from(cause: TextRefusal) -> GmshRefusal {
        match cause {
            TextRefusal::OutOfMemory => GmshRefusal::OutOfMemory,
            _ => GmshRefusal::Text { cause },
        }
    }
}

impl From<AllocError> for GmshRefusal {
    ghost use Rattle.std.specs.Prelude.{◌≡◌};
    ghost use Rattle.gmsh_mesh.specs.declared.refusal.GmshRefusal.TheVariants.{OutOfMemory};

    ghost from_gives = { λ _ e. e ≡ OutOfMemory };

    fn from(_: AllocError) -> GmshRefusal {
        GmshRefusal::OutOfMemory
    }
}

impl<T: Drop> From<AllocFailed<T>> for GmshRefusal {
    ghost use Rattle.std.specs.Prelude.{◌≡◌};
    ghost use Rattle.gmsh_mesh.specs.declared.refusal.GmshRefusal.TheVariants.{OutOfMemory};

    ghost from_gives = { λ _ e. e ≡ OutOfMemory };

    fn from(_: AllocFailed<T>) -> GmshRefusal {
        GmshRefusal::OutOfMemory
    }
}
