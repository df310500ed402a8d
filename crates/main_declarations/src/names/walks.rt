// Where the walk over the text stands.

use crate::names::kernel_constants::KernelConstants;
use c_tree::Pos;
use mesh_decl::Entries;
use std::alloc::Global;

/// What the text is judged by: the places of its tokens, the constants that kernels read, and the entries of the mesh
/// text.
#[derive(Clone, Copy)]
pub struct Source<'a> {
    pub alloc: Global,
    pub places: &'a [Pos],
    pub consts: &'a KernelConstants<'a>,
    pub entries: &'a Entries,
}

/// Where a statement of `main` stands: in a block, `if` or `for`; in a `for`.
#[derive(Clone, Copy, PartialEq, Eq, Debug)]
pub struct Spot {
    pub is_nested: bool,
    pub in_for: bool,
}
