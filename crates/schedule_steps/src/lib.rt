//! The steps of a schedule, the lists of steps that are accepted, and the orders that always are.
#![tactic(auto)]

mod elements;
mod orders;
mod peak;
mod step;
pub mod text;

pub use elements::{elements_are_ordered, first_step_is_of_first_element};
pub use orders::{
    accepted_by_turns, accepted_steps_fit, alike_outlines_accept_alike, drawn_exists,
    drawn_is_accepted, drawn_once, standard_is_accepted, tests_decide,
};
pub use peak::{Peak, accepted_lists_have_all_steps, peak_is_room};
pub use step::Step;
