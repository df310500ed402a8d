//! Which steps of a plan are taken, told by counters, in constant time a step.
mod colour_ranks;
mod earlier;
mod items;
mod laws;
mod load;
mod marks;
mod places;
mod stages;

pub use colour_ranks::ranked;
pub use items::ItemMarks;
pub use laws::alike_outlines_judge_alike;
pub use load::{Load, loads_give_the_peak};
pub use marks::StepMarks;
pub use places::Places;
pub use stages::Stages;
