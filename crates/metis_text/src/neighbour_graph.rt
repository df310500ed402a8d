//! The graph of neighbours by a map, as graph partitioners read it.
//!
//! `write_graph` writes it in METIS's format: line i is exactly the neighbours of element i.
mod graph;
mod lines;
mod neighbours;

pub use graph::write_graph;
