//! A stream of steps that looks ahead for closed groups: elements of one item and rank that begin one after another and
//! then end in the same order, wherever they stand.
mod ahead;
mod groups;
mod reading;

pub use ahead::Ahead;
