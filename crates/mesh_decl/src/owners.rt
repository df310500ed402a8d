// Who owns which element, and new numbers.
use crate::numbers::Numbers;

/// The rank that owns each element of each set: for set s and element x it is number x of list s. The ranks are
/// numbered from 0, and there are `ranks` of them.
#[derive(Debug, Drop)]
pub struct Owners {
    pub ranks: u32,
    pub sets: Vec<Numbers>,
}

impl Owners {
    ghost use Rattle.std.specs.Prelude.{◌≡◌, ◌<◌, length};
    ghost use Rattle.mesh_decl.specs.Owners.{owners_in, owner_of};

    /// The ranks of the elements of the set numbered `set`, in order.
    pub fn of_set(&self, set: u32) -> &[u32]
        requires { set < length self.now.sets.items }
        ensures { result.now ≡ owners_in self.now set }
    {
        self.sets[set as usize].as_slice()
    }

    /// The rank of an element of the set numbered `set`.
    pub fn rank_of(&self, set: u32, element: u32) -> u32
        requires set { set < length self.now.sets.items }
        requires element { element < length (owners_in self.now set) }
        ensures { result ≡ owner_of self.now set element }
    {
        self.of_set(set)[element as usize]
    }
}

/// New numbers for the elements of each set: for set s and new number x, number x of list s is the original number.
#[derive(Debug, Drop)]
pub struct Perms {
    pub sets: Vec<Numbers>,
}

impl Perms {
    ghost use Rattle.std.specs.Prelude.{◌≡◌, ◌<◌, length};
    ghost use Rattle.mesh_decl.specs.Owners.{perm_in};

    /// The original numbers of the elements of the set numbered `set`, in order of their new numbers.
    pub fn of_set(&self, set: u32) -> &[u32]
        requires { set < length self.now.sets.items }
        ensures { result.now ≡ perm_in self.now set }
    {
        self.sets[set as usize].as_slice()
    }
}
