//! What each name of a source means, and the kernels in which it is resolved.
#![tactic(auto)]

mod assignments;
mod breaches;
mod decls;
mod expressions;
mod files;
mod hosts;
mod kernels;
mod refusals;
mod resolving;
mod statements;
mod work;

pub use breaches::{Breach, TypeRule};
pub use kernel_model::types::{ConstDecl, Name, Pos, RKernel, Resolved};
pub use refusals::TypeRefusal;
pub use resolving::{kernels_are_resolved, one_answer, resolve, some_answer};
