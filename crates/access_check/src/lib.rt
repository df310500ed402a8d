//! Whether a kernel keeps to the accesses that a parallel loop gives its arguments.
#![tactic(auto)]

mod checking;
mod components;
mod counters;
mod expressions;
mod found;
mod indices;
mod modes;
mod refusals;
mod sides;
mod tokens;
mod uses;
mod walking;

pub use checking::check;
pub use kernel_model::types::{Pos, RKernel};
pub use modes::{Mode, are_small};
pub use op_num::reductions::Access;
pub use refusals::AccessRefusal;
