//! The standard order of a plan's steps, one step after another, with no list of them.
#![tactic(auto)]

pub mod ahead;
mod alone_walks;
mod closed_walks;
mod counting;
pub mod drawn;
mod laws;
mod list;
mod order;
mod own_steps;
mod own_walks;
mod pieces;
mod runs;
mod shape;
mod standard_order;
mod stream;
mod walks;

pub use laws::runs_are_windows;
pub use list::{list_of, standard};
pub use order::places_in_order;
pub use own_steps::OwnSteps;
pub use runs::Runs;
pub use shape::Shape;
pub use standard_order::Standard;
pub use stream::{ItemOnRank, Listed, Steps};
