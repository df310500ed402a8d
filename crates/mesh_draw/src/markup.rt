//! Elements of XML with attributes and text, written tag by tag.
//!
//! The bytes are those that a tree of elements prints (`specs/Tree.antt`), so that they are well-formed; what a name or
//! a value may not hold is written as a reference.
mod laws;
mod tags;

pub use laws::nodes_print_in_order;
pub use tags::{Attribute, put_empty, put_end, put_start, put_text};
