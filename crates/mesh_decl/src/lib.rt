//! Meshes: sets, maps between them, and data on them; and the mesh texts that they are declared from.
//!
//! A mesh is as the OP2 C API declares it by `op_decl_set`, `op_decl_map` and `op_decl_dat`. Sets, maps and dats are
//! numbered from 0, each kind in order of declaration.
#![tactic(auto)]

mod access;
mod decl;
mod laws;
mod mesh;
mod named;
mod numbers;
mod owners;
pub mod text;

pub use crate::text::{
    Entries, Entry, Form, MESH_BYTES, MESH_VALUES, MeshRefusal, Values, one_spelling,
    read_can_be_written, read_mesh, write_mesh, written_is_spelled,
};
pub use access::Via;
pub use decl::{DatDecl, MapDecl, MapRefusal, SetDecl};
pub use laws::declarations_hold;
pub use mesh::Mesh;
pub use named::one_named;
pub use numbers::Numbers;
pub use op_num::reductions::Access;
pub use owners::{Owners, Perms};
