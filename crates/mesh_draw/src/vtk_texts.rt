//! Texts of a mesh's cells for VTK, with a number on each cell, and fields on the cells and the nodes.
//!
//! `vtk_text` writes what `specs/Text.antt` defines: the legacy form, ASCII, as an unstructured grid. Each count that
//! it announces is that of what follows.
mod arrays;
mod field;
mod grid;
mod text;

pub use field::Field;
pub use text::{GridData, vtk_text};
