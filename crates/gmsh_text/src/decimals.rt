//! Decimal numbers of a text, as other programs write coordinates, times an integer scale, rounded to the nearest
//! integer.
//!
//! All is exact for digits and exponents of any length, in the time of one pass over the text and without memory:
//! no floating point is used.
mod digits;
mod exponent;
mod largest;
mod reading;
mod shifting;

pub use largest::largest_scale;
pub use reading::{DecimalRefusal, nearest_is_one, read_scaled};
