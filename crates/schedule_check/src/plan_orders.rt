//! What the orders of a plan's steps are read from, and the standard order of a plan.
mod messages;
mod plan_shape;
mod site_runs;

pub use plan_shape::{PlanShape, standard_order};
