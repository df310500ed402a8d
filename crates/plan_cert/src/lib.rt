//! Plan texts whose colours were chosen elsewhere, judged without colouring.
//!
//! `specs/Awaited.antt` says what is awaited line by line, `specs/Certified.antt` which plan a text gives, and which is
//! its first line that is refused. A plan text is what `loop_plan::write_plan` writes.
#![tactic(auto)]

mod judge;
mod laws;
mod lines;
mod sites;
mod types;
mod words;

pub use judge::certify;
pub use laws::{
    certified_plans_have_steps, least_colours_are_short, no_kernel_is_read, none_is_refused,
    one_refusal, plans_are_alike, proper_plans_have_steps, some_outcome,
    written_plans_are_certified,
};
pub use types::CertRefusal;
