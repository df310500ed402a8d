//! The drawn order of a plan's steps, one step after another, or as a list.
mod heads;
mod order;
mod ranks;
mod turns;

pub use order::{DrawnOrder, drawn};
