//! What a parallel loop lets its kernel do to an argument, and the operations by which its elements merge amounts into
//! a cell in any order.
mod access;
mod merge;

pub use access::Access;
pub use merge::{Greatest, Least, Merge, Sum, reductions_commute};
