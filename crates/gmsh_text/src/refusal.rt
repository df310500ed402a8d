// Why a text is no mesh of Gmsh.
use std::alloc::{AllocError, AllocFailed};
use thiserror::Error;

/// Why a text is not read. A line is that of the token that is refused, from 1; where a token is missing it is the line
/// of the last token, or 1 where there is none.
#[derive(Clone, Copy, Debug, PartialEq, Eq, Error)]
pub enum TextRefusal {
    /// The first token is not `$MeshFormat`.
    #[error("line {line}: not a mesh of Gmsh")]
    Header { line: u32 },
    /// The version of the format is neither 2.2 nor 4.1.
    #[error("line {line}: neither version 2.2 nor 4.1 of the format")]
    Version { line: u32 },
    /// The file is binary.
    #[error("line {line}: a binary file")]
    Binary { line: u32 },
    /// A token that is missing, or out of place in another way than the others here.
    #[error("line {line}: not in the form of the format")]
    Syntax { line: u32 },
    /// A number that the format has, but beyond its range here: a node's or an element's tag or a count above
    /// 4294967295, another integer outside 32 bits, a dimension above 3, or a mark for parameters above 1.
    #[error("line {line}: a number out of range")]
    NumberRange { line: u32 },
    /// An element that is curved, or is neither a point, a line, a triangle, a quadrangle, a tetrahedron nor a
    /// hexahedron.
    #[error("line {line}: elements of this type are not read")]
    ElementType { line: u32 },
    /// An entity that stands twice.
    #[error("line {line}: an entity a second time")]
    DuplicateEntity { line: u32 },
    /// Want of memory.
    #[error("out of memory")]
    OutOfMemory,
}

impl From<AllocError> for TextRefusal {
    ghost use Rattle.std.specs.Prelude.{◌≡◌};
    ghost use Rattle.gmsh_text.specs.declared.refusal.TextRefusal.TheVariants.{OutOfMemory};

    ghost from_gives = { λ _ e. e ≡ OutOfMemory };

    fn from(_: AllocError) -> TextRefusal {
        TextRefusal::OutOfMemory
    }
}

impl<T: Drop> From<AllocFailed<T>> for TextRefusal {
    ghost use Rattle.std.specs.Prelude.{◌≡◌};
    ghost use Rattle.gmsh_text.specs.declared.refusal.TextRefusal.TheVariants.{OutOfMemory};

    ghost from_gives = { λ _ e. e ≡ OutOfMemory };

    fn from(_: AllocFailed<T>) -> TextRefusal {
        TextRefusal::OutOfMemory
    }
}
