//! `main` when its names are numbers, and the list of what it does: its static control is unrolled under the limit of
//! the trace.
mod host_values;
mod laws;
mod naming;
mod steps;
mod unroll;

pub use crate::refusals::BindRefusal;
pub use crate::{Act, Item, Site, ToldAct};
pub use host_values::host_value;
pub use kernel_model::types::RExpr;
pub use laws::{host_values_are_kernel_values, told_values_are_closed};
pub use steps::{Asked, NamedAct, Step, Told, Unrolled};
pub use unroll::{Goes, Known, LoopForm, unroll_main};
