// What is counted.

/// What is counted of a loop.
#[derive(Clone, Copy, PartialEq, Eq, Debug)]
pub struct LoopCounts {
    /// How often it runs.
    pub runs: u64,
    /// In how many of these runs dats are exchanged.
    pub exchanges: u64,
    /// How many messages these exchanges send.
    pub messages: u64,
    /// How many cells these messages have.
    pub cells: u64,
    /// How many elements the ranks own of its set.
    pub owned: u64,
    /// How many elements ranks execute that they don't own, in one run.
    pub repeated: u64,
    /// The places of the rank with most of them, over the mean of all ranks, in hundredths.
    pub imbalance: u64,
    /// The blocks of all ranks.
    pub blocks: u64,
    /// The most colours that the blocks of a rank have.
    pub block_colours: u64,
    /// The most colours that the places of a block have.
    pub inner_colours: u64,
}
