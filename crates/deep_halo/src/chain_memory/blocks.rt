// A program whose cells stand in blocks.

use crate::chain_memory::layouts::Layout;
use bound_program::Bound;
use kernel_code::Code;
use mesh_decl::Owners;

/// A program on the ranks of owners, with the codes of its kernels. Its cells stand in one memory: a block for each
/// rank, which has the rank's store, with zeros for pairs that the rank doesn't hold; and behind these a block for the
/// program's variables.
#[derive(Drop)]
pub struct Blocks<'a> {
    pub bound: &'a Bound,
    /// The ranks of elements, by original numbers.
    pub owners: &'a Owners,
    /// By number of a kernel, its code.
    pub codes: &'a [Code<'a>],
    /// Where cells stand in a block.
    pub layout: &'a Layout,
}
