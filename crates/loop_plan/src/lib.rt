//! Plans: which dats each item exchanges and between which ranks, which places the ranks execute, and their colours.
//!
//! `plan` makes the plan of a program with least colours. `planned_program` has a program, its mesh on ranks and its
//! plan there as one type, and `plan_exists` the laws that there is a distribution and a plan for whatever words ask
//! for.
#![tactic(auto)]

mod alike;
mod counting;
mod dirty;
mod exchange;
mod items;
mod laws;
mod messages;
mod needs;
mod places;
pub mod plan_exists;
pub mod planned_program;
mod plans;
mod shared;
mod sites;
mod types;
mod writing;

pub use colouring::Colours;
pub use counting::{count_steps, totals_by_loop};
pub use dirty::Dirty;
pub use exchange::{LoopRun, args_of, run_at};
pub use items::item_plans;
pub use laws::{
    bound_is_in_range, exports_are_messages, imports_are_exports, least_colours_are_one,
    lines_are_spaced, one_bit_gives_exchanges, one_plan, one_plan_text, one_step_count,
    standard_is_counted, steps_are_counted,
};
pub use needs::is_scattering;
pub use places::{place_count, places_by_rank};
pub use plans::{MAX_STEPS, number_of_steps, plan, planned_items};
pub use schedule_steps::Step;
pub use shared::SitePlans;
pub use sites::{reducing_args, running_loops, site_plans};
pub use step_orders::{Listed, Steps};
pub use types::{ItemPlan, Pair, Plan, PlanRefusal, SitePlan};
pub use writing::{put_item_at, put_rank_halo, write_plan};
