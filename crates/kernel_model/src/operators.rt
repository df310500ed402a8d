//! The operators on numbers of C in the integer profile (ISO C 6.5), each with the place of its fault: kernels and the
//! expressions of `main` use the same ones.
mod numbers;

pub use crate::types::{Fault, KernelFault};
pub use c_tree::{AssignOp, BinaryOp, MinMax, Pos, UnaryOp};
pub use numbers::{
    absolute, add, apply_op, apply_unary_op, extreme, index_of, mul, settles, stored_value, sub,
    truth_of,
};
