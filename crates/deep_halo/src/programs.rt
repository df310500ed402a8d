// A program with what its run by chains looks up.

use crate::chain_memory::Blocks;
use chain_needs::chain_slices::Slices;

/// A program on the ranks of owners, with its slices.
#[derive(Drop)]
pub struct Program<'a> {
    pub blocks: &'a Blocks<'a>,
    pub slices: &'a Slices,
}
