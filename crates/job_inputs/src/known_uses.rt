// The parameters of kernels that were judged, each with its access and dim.
//
// What a kernel may do to an argument depends on the mode of that argument alone. So a loop needs no walk over its
// kernel where each of its arguments was judged before, in loops of that kernel. The definition speaks of parameters
// past the last one too, so the first of those is noted with the others.

ghost use Rattle.std.specs.Prelude.{◌≡◌, ◌≤◌, ◌⊎◌, ℕ, length, Contains, IsTrue, OnOk};
ghost use Rattle.job_inputs.specs.declared.known_uses.ArgUse.{ArgUse as Use};
ghost use Rattle.job_inputs.specs.Known.{use_of};

use access_check::{Access, Mode};
use indexmap::IndexSet;
use op_num::OutOfMemory;
use std::alloc::AllocError;
use std::hash::{Hash, Hasher};

/// A parameter of a kernel, both by number, and how a loop lets the kernel use it.
#[derive(Clone, Copy, Debug, PartialEq, Eq)]
pub struct ArgUse {
    kernel: u32,
    param: u32,
    mode: Mode,
}

/// The uses of parameters that are known to be obeyed.
pub type KnownUses = IndexSet<ArgUse>;

// At most six uses, which differ in the access alone, have one hash.
impl Hash for ArgUse {
    ghost use Rattle.std.proofs.Common.{rules};
    ghost use Rattle.std.specs.Prelude.{◌++◌};
    ghost use Rattle.std.specs.Cmp.Rules.{comparing, hashing};
    ghost use Rattle.std.specs.Hash as fed;

    ghost hash_input = { λ u. fed.u32 u.kernel ++ (fed.u32 u.param ++ fed.u32 u.mode.dim) };

    ghost respects_eq = { Prim.search (hashing, rules) };

    fn hash<H: Hasher>(&self, state: &mut H) {
        self.kernel.hash(state);
        self.param.hash(state);
        self.mode.dim.hash(state);
    }
}

// One past the last parameter is only read, and has no components.
fn use_at(kernel: u32, modes: &[Mode], param: u32) -> ArgUse
    ensures { result ≡ use_of kernel modes.now param }
{
    let mode = match modes.get(param as usize) {
        Some(mode) => *mode,
        None => Mode {
            access: Access::Read,
            dim: 0,
        },
    };
    ArgUse {
        kernel,
        param,
        mode,
    }
}

/// Whether all uses of the kernel's parameters, and of one past the last, are among the known ones.
pub fn are_known(known: &KnownUses, kernel: u32, modes: &[Mode]) -> bool
    requires { length modes.now ≤ 16 }
    ensures { IsTrue result → (a : ℕ) → a ≤ length modes.now → Contains known.now.keys (use_of kernel modes.now a) }
{
    for param in 0..modes.len() as u32 + 1 {
        if !known.contains(&use_at(kernel, modes, param)) {
            return false;
        }
    }
    true
}

/// Takes in the uses of the kernel's parameters, and of one past the last.
pub fn note_uses(known: &mut KnownUses, kernel: u32, modes: &[Mode]) -> Result<(), OutOfMemory>
    requires { length modes.now ≤ 16 }
    ensures { OnOk result ((u : Use) → Contains known.new.keys u
        → Contains known.old.keys u ⊎ ((a : ℕ) × (u ≡ use_of kernel modes.now a))) }
{
    for param in 0..modes.len() as u32 + 1 {
        match known.insert(use_at(kernel, modes, param)) {
            Ok(_) => {}
            Err(_) => return Err(AllocError),
        }
    }
    Ok(())
}
