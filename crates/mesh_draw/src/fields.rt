//! The dats that a run printed, as fields of a grid: the lines of each one's last print, out of the output of the run.
//!
//! `fields_of` gives the fields that `specs/Fields.antt` defines, or the first line of the output for which there are
//! none.
mod fields;
mod numbers;
mod refusals;

pub use fields::fields_of;
pub use refusals::FieldRefusal;
