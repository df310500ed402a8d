// What is asked of a distribution, what it is, and why there is none.
use crate::part_text::PartRefusal;
use local_mesh::RankMesh;
use local_mesh::halo_lists::Halos;
use mesh_decl::Owners;
use std::alloc::AllocError;

/// How the elements of a mesh are given to ranks.
#[derive(Clone, Copy, Debug)]
pub enum Parts<'a> {
    /// Each set by blocks.
    Block,
    /// The set of the first dat of this name by cuts along its values, and the other sets from it.
    Bisect(&'a [u8]),
    /// The set to which the first map of this name leads by growth over its neighbours, and the other sets from it.
    Grow(&'a [u8]),
    /// Each set as the text of a partition says.
    Text(&'a [u8]),
}

/// Why there are no new numbers.
#[derive(Clone, Copy, PartialEq, Eq, Debug)]
pub enum NumbersRefusal<'a> {
    /// No map has this name.
    UnknownMap(&'a [u8]),
    /// Want of memory.
    OutOfMemory,
}

/// Why there are no owners.
#[derive(Clone, Copy, PartialEq, Eq, Debug)]
pub enum OwnersRefusal<'a> {
    /// No dat has this name.
    UnknownDat(&'a [u8]),
    /// No map has this name.
    UnknownMap(&'a [u8]),
    /// The text spells no owners of the mesh; never for want of memory.
    Text(PartRefusal),
    /// Want of memory.
    OutOfMemory,
}

/// A mesh on several ranks: who owns which element, the halos, and the local mesh of each rank, which numbers its
/// elements in the order of their new numbers.
#[derive(Debug, Drop)]
pub struct Distribution {
    pub owners: Owners,
    pub halos: Halos,
    pub ranks: Vec<RankMesh>,
}

impl<'a> From<AllocError> for NumbersRefusal<'a> {
    ghost use Rattle.std.specs.Prelude.{◌≡◌};
    ghost use Rattle.partition.specs.declared.distribute.types.NumbersRefusal.TheVariants.{OutOfMemory};

    ghost from_gives = { λ _ e. e ≡ OutOfMemory };

    fn from(_: AllocError) -> NumbersRefusal<'a> {
        NumbersRefusal::OutOfMemory
    }
}

impl<'a> From<AllocError> for OwnersRefusal<'a> {
    ghost use Rattle.std.specs.Prelude.{◌≡◌};
    ghost use Rattle.partition.specs.declared.distribute.types.OwnersRefusal.TheVariants.{OutOfMemory};

    ghost from_gives = { λ _ e. e ≡ OutOfMemory };

    fn from(_: AllocError) -> OwnersRefusal<'a> {
        OwnersRefusal::OutOfMemory
    }
}
