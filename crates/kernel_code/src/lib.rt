//! Kernels as straight lists of operations over slots, and the machine that runs them.
#![tactic(auto)]

mod code;
mod codes;
mod compiling;
mod expressions;
mod laws;
mod machine;
mod op;
mod part;
mod putting;
mod running;
mod sides;
mod slots;
mod statements;
mod stores;

pub use code::{Code, compile, run, run_on};
pub use codes::{compile_all, room_for};
pub use kernel_model::types::{AssignOp, BinaryOp, Fault, KernelFault, MinMax, Pos, UnaryOp};
pub use laws::codes_mean;
pub use op::{Element, Op, Operator};
pub use part::{Counter, Part};
