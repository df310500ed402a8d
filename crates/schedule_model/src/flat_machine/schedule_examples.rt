//! A small plan on two ranks, of which the premises of the theorems hold, and what schedules do to it.
mod ring;

pub use ring::{
    lists_are_refused, ring_has_the_parts, ring_is_lawful, ring_on_buffers, ring_runs,
    ring_runs_as_sequential,
};
