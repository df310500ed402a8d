// What the elements of a Free loop have in common.

use crate::chain_memory::{Blocks, Loop};
use chain_needs::chain_slices::Slices;

/// The loop of a Free item.
#[derive(Drop)]
pub struct ChainLoop<'a> {
    pub blocks: &'a Blocks<'a>,
    pub slices: &'a Slices,
    pub all: &'a Loop<'a>,
    /// The item, by its number.
    pub item: u32,
    /// The item at which its chain began.
    pub begun: u32,
    /// The values of all constants.
    pub values: &'a [i32],
}
