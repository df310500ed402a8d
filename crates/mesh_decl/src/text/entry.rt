// The entries of a mesh text, and why a text spells none.
use indexmap::IndexMap;
use op_num::Name;
use std::alloc::{AllocError, AllocFailed};
use std::marker::Model;
use thiserror::Error;

/// The most values of one mesh text: one for each `int`, and the count of each `ints`.
pub const MESH_VALUES: u64 = 33_554_432;

/// The most bytes of a mesh file that a run reads.
pub const MESH_BYTES: u64 = 268_435_456;

/// The version of a mesh text, as its header names it.
#[derive(Clone, Copy, PartialEq, Eq, Debug)]
pub enum Form {
    /// `op2mesh 1`: each value of an array is a token of its own.
    One,
    /// `op2mesh 2`: a token may also be a run of equal values, `N*VALUE`.
    Two,
}

/// Integers in order. Contracts see them as a list.
#[derive(Debug, Drop)]
pub struct Values {
    items: Vec<i32>,
}

impl Model for Values {
    ghost use Rattle.std.specs.Prelude.{List, ℤ};

    ghost Value = { List ℤ };

    ghost view = { λ v. v.items.items };
}

impl Values {
    ghost use Rattle.std.specs.Prelude.{◌≡◌};

    /// These integers. Takes no memory.
    pub fn new(items: Vec<i32>) -> Values
        ensures { result ≡ items.items }
    {
        Values { items }
    }

    /// The integers in order.
    pub fn as_slice(&self) -> &[i32]
        ensures { result.now ≡ self.now }
    {
        &self.items
    }

    /// The integers in order, as a vector again. Takes no memory.
    pub fn into_vec(self) -> Vec<i32>
        ensures { result.items ≡ self }
    {
        self.items
    }
}

/// What stands under a name of a mesh text.
#[derive(Debug, Drop)]
pub enum Entry {
    /// One integer: `int NAME VALUE`.
    One(i32),
    /// An array: `ints NAME COUNT` and its values.
    Many(Values),
}

/// The entries of a mesh text by name, in the order of the text.
pub type Entries = IndexMap<Name, Entry>;

/// Why a text spells no entries. A line is that of the token that is refused, from 1; where a token
/// is missing it is the line of the last token, or 1 where there is none.
#[derive(Clone, Copy, Debug, PartialEq, Eq, Error)]
pub enum MeshRefusal {
    /// The first two tokens are not `op2mesh 1` or `op2mesh 2`.
    #[error("line {line}: not the header of a mesh text")]
    Header { line: u32 },
    /// A token that is out of place in another way than the others below, a missing `done`, or a token behind it.
    #[error("line {line}: not in the form of a mesh text")]
    Syntax { line: u32 },
    /// A name that an entry before has, at the name.
    #[error("line {line}: a name a second time")]
    DuplicateEntry { line: u32 },
    /// Behind COUNT a token that gives no values, a run of 0, a run of more values than are left, or the end, before
    /// COUNT values are there; or a number, or in version 2 a run, where an entry or `done` is awaited.
    #[error("line {line}: not as many values as announced")]
    WrongCount { line: u32 },
    /// A number outside `i32`, or a COUNT or the number of a run above 2147483647.
    #[error("line {line}: a number out of range")]
    NumberRange { line: u32 },
    /// The values so far, with those that this entry announces, are `size`, which is more than [`MESH_VALUES`].
    #[error("{size} values are too many")]
    Limit { size: u64 },
    /// Want of memory.
    #[error("out of memory")]
    OutOfMemory,
}

impl From<AllocError> for MeshRefusal {
    ghost use Rattle.std.specs.Prelude.{◌≡◌};
    ghost use Rattle.mesh_decl.specs.declared.text.entry.MeshRefusal.TheVariants.{OutOfMemory};

    ghost from_gives = { λ _ e. e ≡ OutOfMemory };

    fn from(_: AllocError) -> MeshRefusal {
        MeshRefusal::OutOfMemory
    }
}

impl<T: Drop> From<AllocFailed<T>> for MeshRefusal {
    ghost use Rattle.std.specs.Prelude.{◌≡◌};
    ghost use Rattle.mesh_decl.specs.declared.text.entry.MeshRefusal.TheVariants.{OutOfMemory};

    ghost from_gives = { λ _ e. e ≡ OutOfMemory };

    fn from(_: AllocFailed<T>) -> MeshRefusal {
        MeshRefusal::OutOfMemory
    }
}
