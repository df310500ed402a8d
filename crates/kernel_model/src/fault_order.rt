//! Kernels whose faults come before their stores: after a fault, memory is as it was.
mod effects;
mod expressions;
mod laws;
mod statements;

pub use crate::types::RKernel;
pub use laws::unchanged_after_faults;
pub use statements::faults_first;
