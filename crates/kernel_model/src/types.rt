//! Kernels after their names were resolved: each name is a parameter, cells of the kernel's locals or cells of the
//! program's constants.
mod expressions;
mod faults;
mod kernels;
mod resolved;
mod statements;
pub mod views;

pub use c_tree::{AssignOp, BinaryOp, MinMax, Name, Pos, UnaryOp};
pub use expressions::{ElementForm, RExpr};
pub use faults::KernelFault;
pub use kernels::{ConstDecl, RBody, RKernel, Resolved};
pub use op_num::Fault;
pub use resolved::is_resolved;
pub use statements::RStmt;
