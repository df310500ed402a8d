//! What a batch of a loop's elements looks up: ways, columns and pairs of ways, made once for a call.
mod access;
mod alike;
mod args;
mod columns;
mod pairs;
mod scalars;
mod ways;

pub use args::LocalArg;
pub use columns::{put_columns, stores};
pub use pairs::put_pairs;
pub use scalars::put_scalars;
pub use ways::put_ways;
