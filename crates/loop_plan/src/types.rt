// Plans.

use crate::shared::SitePlans;
use colouring::Colours;
use std::alloc::AllocError;
use thiserror::Error;

/// A Free loop on all ranks: by rank, how many places it executes, and the colours of its blocks and places.
#[derive(Debug, Drop)]
pub struct SitePlan {
    pub places: Vec<u32>,
    pub colours: Vec<Colours>,
}

/// A message: its sender and its receiver.
#[derive(Clone, Copy, PartialEq, Eq, Debug)]
pub struct Pair {
    pub from: u32,
    pub to: u32,
}

/// The dats that an item exchanges, and its messages by sender and receiver, both increasing.
#[derive(Debug, Drop)]
pub struct ItemPlan {
    pub exchange: Vec<u32>,
    pub pairs: Vec<Pair>,
}

/// How a program runs on a number of ranks, with blocks of `block` places. `steps` is how many steps it has.
#[derive(Drop)]
pub struct Plan {
    pub ranks: u32,
    pub block: u32,
    pub sites: SitePlans,
    pub items: Vec<ItemPlan>,
    pub steps: u64,
}

/// Why there is no plan.
#[derive(Clone, Copy, PartialEq, Eq, Debug, Error)]
pub enum PlanRefusal {
    /// There would be more steps than the limit.
    #[error("{steps} steps are too many")]
    TooManySteps { steps: u64 },
    /// Want of memory.
    #[error("out of memory")]
    OutOfMemory,
}

impl From<AllocError> for PlanRefusal {
    ghost use Rattle.std.specs.Prelude.{◌≡◌};
    ghost use Rattle.loop_plan.specs.declared.types.PlanRefusal.TheVariants.{OutOfMemory};

    ghost from_gives = { λ _ e. e ≡ OutOfMemory };

    fn from(_: AllocError) -> PlanRefusal {
        PlanRefusal::OutOfMemory
    }
}
