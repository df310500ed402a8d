//! The state of the distributed machine as lists, its steps, and how it shows a state of the machine on flat buffers.
#![tactic(auto)]

mod laws;
mod owned;
pub mod rank_memory;
mod scalars;
mod spans;

pub use laws::{
    begin_opens, begin_shows, element_shows, end_shows, in_place_shows, join_shows, loop_shows,
    owners_show, recv_shows, send_shows, start_shows, steps_are_ready, steps_can,
    windows_are_counted,
};
pub use owned::Owned;
pub use scalars::{Operation, Scalar};
pub use spans::Span;
