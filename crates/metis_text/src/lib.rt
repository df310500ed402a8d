//! Texts for graph partitioners and from them, in METIS's form: the graph of neighbours of a set (`neighbour_graph`),
//! and the owners that a partitioner finds, which are written as a partition text (`owner_text`).
#![tactic(auto)]

pub mod neighbour_graph;
pub mod owner_text;
