//! Meshes of Gmsh as mesh texts: nodes with integer coordinates, the cells of one shape, the faces between two cells,
//! and the boundary with its physical tags; and programs over them.
//!
//! `from_gmsh` is exact: the bytes of a file come to one mesh text and one program, or to one refusal.
#![tactic(auto)]

mod boundary;
pub mod cell_faces;
pub mod cell_sides;
mod choice;
mod convert;
mod coordinates;
pub mod equal_keys;
mod faces;
mod laws;
mod mesh;
pub mod mesh_faces;
mod numbers;
mod refusal;
mod source;
mod stages;
pub mod tag_places;

pub use choice::Dimension;
pub use convert::{Conversion, from_gmsh};
pub use laws::{faces_are_all_sides, one_outcome};
pub use refusal::GmshRefusal;
pub use source::{HEXAHEDRON_SOURCE, QUADRANGLE_SOURCE, TETRAHEDRON_SOURCE, TRIANGLE_SOURCE};
