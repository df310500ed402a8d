// Why keys have no places.
use std::alloc::{AllocError, AllocFailed};
use thiserror::Error;

/// Why keys have no places among tags.
#[derive(Clone, Copy, Debug, PartialEq, Eq, Error)]
pub enum TagRefusal {
    /// A tag in front of the one at `place`, from 0, is equal to it.
    #[error("a tag stands twice")]
    Doubled { place: u32 },
    /// The key at `place`, from 0, is no tag.
    #[error("a key is no tag")]
    Unknown { place: u32 },
    /// Memory ran out.
    #[error("out of memory")]
    OutOfMemory,
}

impl From<AllocError> for TagRefusal {
    ghost use Rattle.std.specs.Prelude.{◌≡◌};
    ghost use Rattle.gmsh_mesh.specs.declared.tag_places.refusal.TagRefusal.TheVariants.{OutOfMemory};

    ghost from_gives = { λ _ e. e ≡ OutOfMemory };

    fn from(_error: AllocError) -> TagRefusal {
        TagRefusal::OutOfMemory
    }
}

impl<T: Drop> From<AllocFailed<T>> for TagRefusal {
    ghost use Rattle.std.specs.Prelude.{◌≡◌};
    ghost use Rattle.gmsh_mesh.specs.declared.tag_places.refusal.TagRefusal.TheVariants.{OutOfMemory};

    ghost from_gives = { λ _ e. e ≡ OutOfMemory };

    fn from(_error: AllocFailed<T>) -> TagRefusal {
        TagRefusal::OutOfMemory
    }
}
