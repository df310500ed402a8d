//! Blocks: the places of a rank, in runs of one size; the last may be shorter.
ghost use Rattle.std.specs.Prelude.{◌≡◌, ℕ, ◌+◌, ◌*◌, ◌/◌, ◌<◌, ◌≤◌, ◌↔◌};
ghost use Rattle.colouring.specs.Blocks.{IsInBlock, block_start, block_end};

/// How many blocks `places` have: those with a place, numbered from 0. Takes no memory.
pub fn count(places: u32, size: u32) -> u32
    requires { 0 < size }
    ensures { (block : ℕ) → (block < result) ↔ (block * size < places) }
{
    places.div_ceil(size)
}

/// The block of a place. Takes no memory.
pub fn block_of(place: u32, size: u32) -> u32
    requires { 0 < size }
    ensures value { result ≡ place / size }
    ensures from { result * size ≤ place }
    ensures below { place < (result + 1) * size }
{
    place / size
}

/// The first place of a block, and the place past its last. Takes no memory.
pub fn bounds(block: u32, places: u32, size: u32) -> (u32, u32)
    requires size { 0 < size }
    requires block { block * size < places }
    ensures value { result ≡ (block_start size block, block_end places size block) }
    ensures some { result.0 < result.1 }
    ensures within { result.1 ≤ places }
    ensures places { (place : ℕ) → IsInBlock places size block place ↔ ((result.0 ≤ place) × (place < result.1)) }
{
    let start = block * size;
    let end = if size < places - start {
        start + size
    } else {
        places
    };
    (start, end)
}

/// Each place lies in one block, and each block of a place below `places` has one.
pub fn blocks_partition()
    ensures lies { (places size place : ℕ) → 0 < size → place < places → IsInBlock places size (place / size) place }
    ensures alone { (places size block place : ℕ) → 0 < size → IsInBlock places size block place → block ≡ place / size }
    ensures counted { (places size block place : ℕ) → IsInBlock places size block place → block * size < places }
    ensures some { (places size block : ℕ) → 0 < size → block * size < places → IsInBlock places size block (block * size) }
{}
