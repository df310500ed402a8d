//! The memory of the ranks: cells that are gathered and put back, frames in one staging buffer, messages, windows on
//! the cells of their owners, and the fault that is kept.
pub mod copying;
pub mod ending;
pub mod frames;
pub mod loading;
pub mod mail;
pub mod owned;
pub mod scalars;
mod slot;
mod spans;
mod staging;
pub mod stop;
mod table;
