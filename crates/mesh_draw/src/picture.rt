//! Pictures of the cells of a plane mesh: an SVG with one polygon for each cell, in order, each filled with one of 64
//! colours, and a legend beside them.
//!
//! `picture` writes what `specs/Picture.antt` defines as a tree of elements; it knows nothing of what the colours stand
//! for.
mod drawing;
mod frame;
mod laws;
mod legend;
mod palette;
mod polygons;

pub use drawing::picture;
pub use laws::points_lie_within;
pub use legend::Label;
pub use palette::{COLOUR_COUNT, colours_differ};
