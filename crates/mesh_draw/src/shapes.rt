//! The shapes of a mesh's cells: where its nodes lie, as a dat tells, and which nodes each cell has, as a map tells.
//!
//! `shape_of` judges the names of the two, and gives their numbers and the kind of the cells.
mod shape;

pub use shape::{CellKind, Shape, ShapeRefusal, shape_of};
