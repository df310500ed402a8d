//! The exchange before a chain of loops: copies of others' pairs are dropped, and new ones come from their owners.
mod exchanges;

pub use exchanges::{Exchange, exchange_copies};
