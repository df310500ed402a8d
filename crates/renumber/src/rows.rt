//! Lists of numbers that stand one behind another in one array: compressed rows.
//!
//! Rows are made in two passes: first the length of each is counted, then `Filling` takes their numbers in any order of
//! rows. No memory is taken for a row.
mod compressed;
mod filling;

pub use compressed::Rows;
pub use filling::Filling;
