//! Programs cut before an item: the head runs the items before it and prints what is known there, and the tail goes on
//! from such a state.
//!
//! The definitions are those of `specs/Cut.antt` (heads, tails, states) and `specs/StateText.antt` (the text of a
//! state).
#![tactic(auto)]

mod heads;
mod laws;
pub mod state_texts;
mod states;
mod tails;

pub use heads::{can_cut, head};
pub use laws::{
    heads_fit, heads_obey, heads_print_states, heads_stop, runs_go_on, runs_keep_constants,
    tails_fit, tails_go_on, tails_obey,
};
pub use states::{HeadRefusal, State};
pub use tails::tail;
