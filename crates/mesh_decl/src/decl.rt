// What a mesh holds.
use crate::text::Values;
use op_num::Name;
use std::alloc::AllocFailed;
use thiserror::Error;

/// A set: its name, and how many elements it has. They are numbered from 0.
#[derive(Debug, Drop)]
pub struct SetDecl {
    pub name: Name,
    pub size: u32,
}

/// A map: for each element of the set numbered `from`, `dim` elements of the set numbered `to`.
#[derive(Debug, Drop)]
pub struct MapDecl {
    pub name: Name,
    pub from: u32,
    pub to: u32,
    pub dim: u32,
    /// The targets of element 0, then those of element 1, and so on.
    pub targets: Values,
}

/// A dat: for each element of the set numbered `set`, `dim` values.
#[derive(Debug, Drop)]
pub struct DatDecl {
    pub name: Name,
    pub set: u32,
    pub dim: u32,
    /// The values of element 0, then those of element 1, and so on.
    pub values: Values,
}

/// Why a map is refused.
#[derive(Clone, Copy, Debug, PartialEq, Eq, Error)]
pub enum MapRefusal {
    /// The target at `place`, from 0, of this element is no element of the set that the map leads to; it is the first
    /// such target, in order of elements and places.
    #[error("target {place} of element {element} is no element")]
    Target { element: u32, place: u32 },
    /// Want of memory.
    #[error("out of memory")]
    OutOfMemory,
}

impl<T: Drop> From<AllocFailed<T>> for MapRefusal {
    ghost use Rattle.std.specs.Prelude.{◌≡◌};
    ghost use Rattle.mesh_decl.specs.declared.decl.MapRefusal.TheVariants.{OutOfMemory};

    ghost from_gives = { λ _ e. e ≡ OutOfMemory };

    fn from(_: AllocFailed<T>) -> MapRefusal {
        MapRefusal::OutOfMemory
    }
}
