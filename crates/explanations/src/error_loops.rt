//! The loop that an error of `op2` is about: the loop in which a fault is, and in which turn of it; and the loop and
//! the argument that a refused access of a kernel is about.
//!
//! `put_fault_loop` and `text_of_access` write them, for a line of `op2`; `specs/Faults.antt` and `specs/Accesses.antt`
//! say what. `put_arguments` writes what a loop hands to its kernel for an element.
mod accesses;
mod arguments;
mod calls;
mod faults;
mod first;
mod judgements;
mod modes;
mod placed;
mod reading;
mod turns;
mod values;

pub use accesses::text_of_access;
pub use faults::{item_in, put_fault_loop, tells_fault};
pub use values::{free_loop_in, put_arguments};
