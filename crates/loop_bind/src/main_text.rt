//! The statements of `main`, judged in the order of the text: loops with their arguments, prints, assignments and
//! control.
mod accesses;
mod arguments;
mod globals;
mod loops;
mod prints;
mod text_walk;
mod turns;

pub use prints::conversions;
pub use text_walk::judged_hosts;
