//! A Free loop of a chain on all ranks, as the machine of chains does it: what each executes, and what their amounts
//! come to.
pub mod chain_elements;
pub mod chain_exchange;
mod elements;
mod loops;
mod ranks;
mod sums;
mod units;

pub use elements::run_on_rank;
pub use loops::ChainLoop;
pub use ranks::run_ranks;
pub use sums::reduce_all;
pub use units::put_units;
