// The loops of a program.

use c_tree::Pos;
use mesh_decl::{Access, Via};

/// What a loop hands to its kernel, for each element of its set.
#[derive(Clone, Copy, PartialEq, Eq, Debug)]
pub enum Arg {
    /// the values that the dat of that number has at the element itself, or where `via` leads
    Dat {
        dat: u32,
        via: Option<Via>,
        access: Access,
    },
    /// the variable of that number
    Global {
        var: u32,
        access: Access,
    },
}

/// Whether the order of a loop's elements may matter.
#[derive(Clone, Copy, PartialEq, Eq, Debug)]
pub enum Class {
    /// Each dat that the loop modifies is reached by direct arguments alone, or by arguments of one reducing access
    /// alone.
    Free,
    /// The loop runs in the order of its set's elements.
    Ordered,
}

/// An `op_par_loop` of the text: the numbers of its kernel and its set, and the place of its word.
#[derive(Debug, Drop)]
pub struct Site {
    pub kernel: u32,
    pub set: u32,
    pub args: Vec<Arg>,
    pub class: Class,
    pub at: Pos,
}
