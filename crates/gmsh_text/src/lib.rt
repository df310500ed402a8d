//! Texts of Gmsh's mesh format (MSH), versions 2.2 and 4.1, in ASCII: nodes with their tags and their coordinates as
//! they are spelled, and elements with their physical tags and the tags of their nodes.
//!
//! `read_gmsh` is exact: a text has one meaning or one refusal, the first in the order of its tokens. Numbers are kept
//! as the text spells them; which elements are cells, and whether tags are known, is for who reads the mesh.
#![tactic(auto)]

pub mod decimals;
mod elements;
mod entities;
mod format;
mod kind;
mod nodes;
mod numbers;
mod read;
mod refusal;
mod table;

pub use entities::Group;
pub use kind::Kind;
pub use nodes::{Nodes, Point, Tag};
pub use read::{GmshText, elements_are_whole, read_gmsh};
pub use refusal::TextRefusal;
pub use table::{Elements, Table};
