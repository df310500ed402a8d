// What is known before an item, and why a program isn't cut there.
use mesh_decl::Values;
use std::alloc::{AllocError, AllocFailed};
use thiserror::Error;

/// What a run knows before an item: the values from which the rest of the program goes on.
#[derive(Debug, Drop)]
pub struct State {
    /// the number of the item that comes next
    pub item: u32,
    /// the cells of each variable that isn't `const`, in the order of the text
    pub vars: Vec<Values>,
    /// the values of each dat, element by element
    pub dats: Vec<Values>,
}

/// Why a program isn't cut before an item.
#[derive(Clone, Copy, Debug, PartialEq, Eq, Error)]
pub enum HeadRefusal {
    /// The program has fewer items, or the item merges what the loop before it reduced.
    #[error("the program is not cut there")]
    Item,
    /// Want of memory; also where 32 bits cannot count the items with those that print the state.
    #[error("out of memory")]
    OutOfMemory,
}

impl From<AllocError> for HeadRefusal {
    ghost use Rattle.std.specs.Prelude.{◌≡◌};
    ghost use Rattle.checkpoint.specs.declared.states.HeadRefusal.TheVariants.{OutOfMemory};

    ghost from_gives = { λ _ e. e ≡ OutOfMemory };

    fn from(_: AllocError) -> HeadRefusal {
        HeadRefusal::OutOfMemory
    }
}

impl<T: Drop> From<AllocFailed<T>> for HeadRefusal {
    ghost use Rattle.std.specs.Prelude.{◌≡◌};
    ghost use Rattle.checkpoint.specs.declared.states.HeadRefusal.TheVariants.{OutOfMemory};

    ghost from_gives = { λ _ e. e ≡ OutOfMemory };

    fn from(_: AllocFailed<T>) -> HeadRefusal {
        HeadRefusal::OutOfMemory
    }
}
