// What `halos` answers.
/// The halos of one set: lists of its elements' original numbers in increasing order, by rank.
#[derive(Debug, Drop)]
pub struct SetHalo {
    /// By rank, the elements that it imports to execute: it doesn't own them, and owns a target of theirs.
    pub exec: Vec<Vec<u32>>,
    /// By rank, the elements that it imports to read: targets of what it owns or imports to execute, and neither.
    pub nonexec: Vec<Vec<u32>>,
    /// By owner and then by rank, the owner's elements that the rank imports.
    pub exports: Vec<Vec<Vec<u32>>>,
    /// By element, whether all its targets are its owner's.
    pub core: Vec<bool>,
}

/// The halos of each set of a mesh, over `ranks` ranks.
#[derive(Debug, Drop)]
pub struct Halos {
    pub ranks: u32,
    pub sets: Vec<SetHalo>,
}
