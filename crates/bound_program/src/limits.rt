// The limits of a program.

/// The most sets that a program declares.
pub const MAX_SETS: u64 = 64;

/// The most maps that a program declares.
pub const MAX_MAPS: u64 = 64;

/// The most dats that a program declares.
pub const MAX_DATS: u64 = 256;

/// The most elements of a set.
pub const MAX_SIZE: u64 = 4_194_304;

/// The greatest dim of a dat, a map or a global.
pub const MAX_DIM: u64 = 64;

/// The most elements of all sets and values of all maps and dats.
pub const MAX_CELLS: u64 = 67_108_864;

/// The most arguments of a loop.
pub const MAX_ARGUMENTS: u64 = 16;

/// The most items of the trace, with the turns of all `for`.
pub const MAX_TRACE: u64 = 65_536;

/// The most bytes that are printed, as they are weighed before the run.
pub const MAX_WEIGHT: u64 = 67_108_864;
