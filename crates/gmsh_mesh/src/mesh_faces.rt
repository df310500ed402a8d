//! The faces of a mesh and their arrays: faces between two cells, and faces of one, which are the boundary.
//!
//! A side of a cell is named by its place among all cells' sides, which stand cell for cell. `find_faces` takes for
//! each side the place of the other side of its face, and gives the sides that stand for faces; the others give the
//! nodes and the cells of these.
mod arrays;
mod faces;

pub use arrays::{as_values, both_cells, cells_at, rows_at};
pub use faces::{Faces, find_faces, sides_are_of_faces};
