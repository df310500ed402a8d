//! Faces of a mesh: sides that two cells have, or one.
//!
//! Each side is a row of nodes, in any order; two sides are one face where they have the same nodes. `side_mates` finds
//! for each side the other one of its face, and `side_classes` the sides with the same nodes, in n log n.
mod faces;
mod ordering;

pub use faces::{side_classes, side_mates};
