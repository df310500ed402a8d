// Why there is no picture.
use crate::fields::FieldRefusal;
use crate::shapes::ShapeRefusal;
use cell_numbers::ShownRefusal;
use std::alloc::{AllocError, AllocFailed};
use thiserror::Error;

/// Why there is no picture. The first cause that is so counts, in this order.
#[derive(Clone, Copy, Debug, PartialEq, Eq, Error)]
pub enum DrawRefusal {
    /// The names give no shape of cells.
    #[error("{0}")]
    Shape(ShapeRefusal),
    /// The coordinates aren't those of a plane: their dim isn't 2.
    #[error("the mesh isn't plane")]
    NotPlane,
    /// What is to be shown isn't there; or memory ran out.
    #[error("{0}")]
    Shown(ShownRefusal),
    /// A block of the loop has a colour of number 64 or more.
    #[error("the loop has more than 64 block colours")]
    ManyColours,
    /// The output of a run doesn't tell the dats on the cells and the nodes; it is never `OutOfMemory`.
    #[error("{0}")]
    Fields(FieldRefusal),
}

impl From<AllocError> for DrawRefusal {
    ghost use Rattle.std.specs.Prelude.{◌≡◌};
    ghost use Rattle.cell_numbers.specs.declared.types.ShownRefusal.TheVariants.{OutOfMemory};
    ghost use Rattle.mesh_draw.specs.declared.types.DrawRefusal.TheVariants.{Shown};

    ghost from_gives = { λ _ e. e ≡ Shown OutOfMemory };

    fn from(_: AllocError) -> DrawRefusal {
        DrawRefusal::Shown(ShownRefusal::OutOfMemory)
    }
}

impl<T: Drop> From<AllocFailed<T>> for DrawRefusal {
    ghost use Rattle.std.specs.Prelude.{◌≡◌};
    ghost use Rattle.cell_numbers.specs.declared.types.ShownRefusal.TheVariants.{OutOfMemory};
    ghost use Rattle.mesh_draw.specs.declared.types.DrawRefusal.TheVariants.{Shown};

    ghost from_gives = { λ _ e. e ≡ Shown OutOfMemory };

    fn from(_: AllocFailed<T>) -> DrawRefusal {
        DrawRefusal::Shown(ShownRefusal::OutOfMemory)
    }
}

impl From<ShapeRefusal> for DrawRefusal {
    ghost use Rattle.std.specs.Prelude.{◌≡◌};
    ghost use Rattle.mesh_draw.specs.declared.types.DrawRefusal.TheVariants.{Shape};

    ghost from_gives = { λ r e. e ≡ Shape r };

    fn from(refusal: ShapeRefusal) -> DrawRefusal {
        DrawRefusal::Shape(refusal)
    }
}

impl From<ShownRefusal> for DrawRefusal {
    ghost use Rattle.std.specs.Prelude.{◌≡◌};
    ghost use Rattle.mesh_draw.specs.declared.types.DrawRefusal.TheVariants.{Shown};

    ghost from_gives = { λ r e. e ≡ Shown r };

    fn from(refusal: ShownRefusal) -> DrawRefusal {
        DrawRefusal::Shown(refusal)
    }
}

impl From<FieldRefusal> for DrawRefusal {
    ghost use Rattle.std.specs.Prelude.{◌≡◌};
    ghost use Rattle.mesh_draw.specs.Drawn.{by_fields};

    ghost from_gives = { λ r e. e ≡ by_fields r };

    fn from(refusal: FieldRefusal) -> DrawRefusal {
        match refusal {
            FieldRefusal::OutOfMemory => DrawRefusal::Shown(ShownRefusal::OutOfMemory),
            _ => DrawRefusal::Fields(refusal),
        }
    }
}
