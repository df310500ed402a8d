//! Sides of cells, each with its nodes in the order in which they run round it, for meshes whose cells have one shape.
mod listing;
mod shape;

pub use listing::{all_sides, side_is_of_cell};
pub use shape::Shape;
