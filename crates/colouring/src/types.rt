// What is coloured, and the colours.
use mesh_decl::Via;

/// An argument by which elements reduce into a dat (OP_INC, OP_MIN or OP_MAX), directly or by a map.
#[derive(Clone, Copy, Debug, PartialEq, Eq)]
pub struct IncArg {
    pub dat: u32,
    pub via: Option<Via>,
}

/// The colours of a rank's blocks, by block, and those of its places, by place.
#[derive(Debug, Drop)]
pub struct Colours {
    pub blocks: Vec<u32>,
    pub inner: Vec<u32>,
}
