//! Owners by a partition that a graph partitioner wrote, as METIS writes it: line by line a number for each element of
//! one set.
//!
//! `specs/Numbers.antt` says what a text is read as, and which line of it is refused; `specs/Owned.antt` what owners it
//! gives.
mod numbers;
mod owners;
mod refusals;

pub use owners::owners_by_metis;
pub use refusals::MetisRefusal;
