//! Pictures of a mesh on ranks: who owns each cell, what one rank has of the cells, or the colours of a loop's blocks.
//!
//! `draw` gives the picture of a plane mesh, and `vtk` the text for VTK, in the plane or in space, that
//! `specs/Drawn.antt` defines, or the first cause why there is none.
#![tactic(auto)]

mod drawing;
pub mod fields;
mod fills;
mod grid;
mod labels;
pub mod markup;
pub mod output_pieces;
pub mod picture;
pub mod shapes;
mod types;
pub mod vtk_texts;

pub use crate::shapes::ShapeRefusal;
pub use cell_numbers::{Shown, ShownRefusal};
pub use drawing::draw;
pub use grid::vtk;
pub use types::DrawRefusal;
