//! What is so of a source that was read and whose names and types refuse nothing: what bound programs rest on.
mod laws;

pub use laws::{
    named_names_are_all, resolved_names_hold, resolved_sources_are, spelled_entries_fit,
};
