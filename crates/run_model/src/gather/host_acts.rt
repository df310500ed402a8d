//! The statements of `main` that are no loop and print no dat, on a list of the cells of all variables: declarations,
//! assignments, `op_printf` and `op_exit`.
//!
//! `run_act` does what the definition of the sequential run (`act_run` of `run_model`) does.
mod acts;
mod laws;
mod starts;

pub use acts::{Variables, run_act};
pub use bound_program::{Act, Var};
pub use kernel_model::types::KernelFault;
pub use laws::variables_hold;
pub use op_num::OutOfMemory;
pub use starts::variable_starts;
