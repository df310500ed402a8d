// Limits of the numbers that words ask for.

/// The most ranks.
pub const MAX_RANKS: u32 = 64;

/// The most places of a block.
pub const MAX_BLOCK: u32 = 65_536;

/// The most workers.
pub const MAX_WORKERS: u32 = 64;

/// The most places of one colour that several workers begin together.
pub const MAX_GROUP: u32 = 64;
