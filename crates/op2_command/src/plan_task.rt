// What is asked of a plan.

use command_words::{Options, PlanJob};

/// A job on a plan by these options, for a program whose first item has that number in the whole program.
#[derive(Drop)]
pub struct PlanTask<'o, 'a> {
    pub job: PlanJob,
    pub options: &'o Options<'a>,
    pub first: u32,
}
