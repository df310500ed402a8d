// Keys that stand twice.
ghost use Rattle.std.specs.Prelude.{◌≡◌, ◌+◌, ◌<◌, ◌^◌, ◌⊎◌, ℕ, IfOk, IfErr, MatchResult, length, slice_index};
ghost use Rattle.gmsh_mesh.specs.Mates.{AreMatesSoFar, IsRefused, AreMates};

use std::alloc::{AllocError, Global};
use thiserror::Error;

/// Why keys have no mates.
#[derive(Clone, Copy, Debug, PartialEq, Eq, Error)]
pub enum MateRefusal {
    /// Two keys in front of the one at `place`, from 0, are equal to it.
    #[error("a key stands three times")]
    Third { place: u32 },
    /// Memory ran out.
    #[error("out of memory")]
    OutOfMemory,
}

impl From<AllocError> for MateRefusal {
    ghost use Rattle.std.specs.Prelude.{◌≡◌};
    ghost use Rattle.gmsh_mesh.specs.declared.equal_keys.pairing.MateRefusal.TheVariants.{OutOfMemory};

    ghost from_gives = { λ _ e. e ≡ OutOfMemory };

    fn from(_error: AllocError) -> MateRefusal {
        MateRefusal::OutOfMemory
    }
}

/// For each key, at its place, the place of the other key that is equal to it, or its own where no other is. Keys are
/// below the number of keys. `Third` exactly where three keys or more are equal, with the first place, from 0, that has
/// two equal keys in front of it. It takes linear time.
pub fn mates(alloc: Global, keys: &[u32]) -> Result<Vec<u32>, MateRefusal>
    requires few { length keys.now < 2 ^ 32 }
    requires below { (i : ℕ) → i < length keys.now → slice_index keys.now i < length keys.now }
    ensures mates { IfOk result (λ of. AreMates keys.now of.items) }
    ensures refused { IfErr result (IsRefused keys.now) }
{
    let mut seen = vec![in alloc; None; keys.len()]?;
    let mut of = vec![in alloc; 0u32; keys.len()]?;
    for place in 0..keys.len() {
        take_key(keys, place, &mut seen, &mut of)?;
    }
    Ok(of)
}

// Takes the key at a place, behind those that were taken.
fn take_key(
    keys: &[u32],
    place: usize,
    seen: &mut [Option<u32>],
    of: &mut [u32],
) -> Result<(), MateRefusal>
    requires within { place < length keys.now }
    requires few { length keys.now < 2 ^ 32 }
    requires below { slice_index keys.now place < length keys.now }
    requires so_far { AreMatesSoFar keys.now place seen.old of.old }
    ensures { MatchResult result (λ u. AreMatesSoFar keys.now (place + 1) seen.new of.new) (IsRefused keys.now) }
{
    let key = keys[place] as usize;
    match seen[key] {
        None => {
            of[place] = place as u32;
            seen[key] = Some(place as u32);
            Ok(())
        }
        Some(other) => {
            if of[other as usize] != other {
                return Err(MateRefusal::Third {
                    place: place as u32,
                });
            }
            of[place] = other;
            of[other as usize] = place as u32;
            Ok(())
        }
    }
}
