// Bound programs.

use crate::acts::Item;
use crate::sites::Site;
use kernel_model::types::RKernel;
use mesh_decl::{Mesh, Values};
use op_num::Name;

/// A variable: of the file, of `main` outside every `for` or without `const`, or an extern that is an argument of a
/// loop. `start` holds its cells before the run. `constant` is the number of its first cell among the constants that
/// kernels read. The cells of one with `is_const`, which is declared `const` or an extern, never change.
#[derive(Debug, Drop)]
pub struct Var {
    pub name: Name,
    pub start: Values,
    pub constant: Option<u32>,
    pub is_const: bool,
}

/// A program with its mesh. Kernels, loops and variables are numbered in the order of the text, an extern at its first
/// loop; `trace` is what `main` does, in order.
#[derive(Drop)]
pub struct Bound {
    pub mesh: Mesh,
    pub kernels: Vec<RKernel>,
    pub sites: Vec<Site>,
    pub vars: Vec<Var>,
    pub trace: Vec<Item>,
}
