//! Sets of ranks below 64, and lists of numbers, one for each rank.

mod lists;
mod rank_set;

pub use lists::{empty_lists, places_by_rank, push_each};
pub use rank_set::RankSet;
