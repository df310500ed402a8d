// Which dats have copies that are no longer their owners' values.
ghost use Rattle.std.specs.Prelude.{◌≡◌, ◌<◌, ℕ, true, false, IfOk, length, replicate, set, slice_index_or};

use op_num::OutOfMemory;
use std::alloc::Global;
use std::marker::Model;

/// One bit for each dat: its copies are stale. Contracts see the bits as a list.
#[derive(Debug, Drop)]
pub struct Dirty {
    bits: Vec<bool>,
}

impl Model for Dirty {
    ghost use Rattle.std.specs.Prelude.{List, Bool};

    ghost Value = { List Bool };

    ghost view = { λ d. d.bits.items };
}

impl Dirty {
    /// So many dats, none of them stale.
    pub fn new(alloc: Global, dats: u32) -> Result<Dirty, OutOfMemory>
        ensures { IfOk result (λ d. d ≡ replicate dats false) }
    {
        let bits = vec![in alloc; false; dats as usize]?;
        Ok(Dirty { bits })
    }

    /// Whether the dat is stale. Takes no memory.
    pub fn stale(&self, dat: u32) -> bool
        requires { dat < length self.now }
        ensures { result ≡ slice_index_or self.now dat false }
    {
        self.bits[dat as usize]
    }

    /// The dat, and no other, becomes stale. Takes no memory.
    pub fn spoil(&mut self, dat: u32)
        requires { dat < length self.old }
        ensures { self.new ≡ set self.old dat true }
    {
        self.bits[dat as usize] = true;
    }

    /// The dat, and no other, is no longer stale. Takes no memory.
    pub fn cleanse(&mut self, dat: u32)
        requires { dat < length self.old }
        ensures { self.new ≡ set self.old dat false }
    {
        self.bits[dat as usize] = false;
    }
}
