// Elements on a rank, as a caller asks for their runs.

use crate::runnable::Runnable;

/// Elements of an item's loop on a rank, with what they read of the whole program.
#[derive(Drop)]
pub struct RankElements<'a> {
    pub program: &'a Runnable<'a>,
    pub item: u32,
    pub rank: u32,
    /// The places of the elements on the rank, in the order in which they run.
    pub places: &'a [u32],
    /// The values of all variables' cells.
    pub variables: &'a [i32],
}
