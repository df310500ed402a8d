// The plans of loops, which loops share where they have the same.
ghost use Rattle.std.specs.Prelude.{◌≡◌, ◌<◌, ◌++◌, ◌∷◌, ℕ, [], IfSome, OnOk, None, Some, length, map, nat_eq, slice_get};
ghost use Rattle.std.specs.Option.{option_map};
ghost use Rattle.std.specs.Map.{lookup};
ghost use Rattle.loop_plan.specs.SharedPlans.{site_plan_of, plan_at, entries_of};

use crate::types::SitePlan;
use indexmap::IndexMap;
use op_num::OutOfMemory;
use std::alloc::{AllocError, Global};
use std::marker::Model;

/// The plans of the Free loops that run, by the loop's number, increasing. Loops that have the same plan may share it:
/// each loop has the number of a plan, its slot.
#[derive(Debug, Drop)]
pub struct SitePlans {
    plans: Vec<SitePlan>,
    slots: IndexMap<u32, usize>,
}

impl Model for SitePlans {
    ghost use Rattle.std.specs.Prelude.{length, map};
    ghost use Rattle.loop_plan.specs.SharedPlans.{SharedValue, site_plan_of, AreSlots};

    ghost Value = { SharedValue };

    ghost view = { λ s. record { plans = map site_plan_of s.plans.items; slots = s.slots.entries } };

    ghost invariant = { λ s. AreSlots (length s.plans.items) s.slots.entries };
}

impl SitePlans {
    /// No loop's plan. Takes no memory.
    pub fn new(alloc: Global) -> SitePlans
        ensures { result ≡ record { plans = []; slots = [] } }
    {
        SitePlans {
            plans: Vec::new(alloc),
            slots: IndexMap::new(alloc),
        }
    }

    /// Gives the loop `site`, behind the others, the plan of this slot. An error is want of memory.
    pub fn share(&mut self, site: u32, slot: usize) -> Result<(), OutOfMemory>
        requires slot { slot < length self.old.plans }
        requires none { lookup (nat_eq site) (entries_of self.old) ≡ None }
        ensures plans { OnOk result (self.new.plans ≡ self.old.plans) }
        ensures entries { OnOk result (entries_of self.new ≡ entries_of self.old ++ (site, plan_at self.old.plans slot) ∷ []) }
    {
        match self.slots.insert(site, slot) {
            Ok(_) => Ok(()),
            Err(_) => Err(AllocError),
        }
    }

    /// Adds a plan, in the next slot, and gives it to the loop `site`, behind the others. An error is want of memory.
    pub fn add(&mut self, site: u32, plan: SitePlan) -> Result<(), OutOfMemory>
        requires { lookup (nat_eq site) (entries_of self.old) ≡ None }
        ensures plans { OnOk result (self.new.plans ≡ self.old.plans ++ site_plan_of plan ∷ []) }
        ensures entries { OnOk result (entries_of self.new ≡ entries_of self.old ++ (site, site_plan_of plan) ∷ []) }
    {
        let slot = self.plans.len();
        self.plans.push(plan)?;
        match self.slots.insert(site, slot) {
            Ok(_) => Ok(()),
            Err(_) => Err(AllocError),
        }
    }

    /// The slot of a loop's plan, or `None` where it has none.
    pub fn slot(&self, site: u32) -> Option<usize>
        ensures slot { result ≡ lookup (nat_eq site) self.now.slots }
        ensures within { IfSome result (λ k. k < length self.now.plans) }
    {
        self.slots.get(&site).copied()
    }

    /// How many plans there are.
    pub fn count(&self) -> usize
        ensures { result ≡ length self.now.plans }
    {
        self.plans.len()
    }

    /// The plan of a loop, or `None` where it has none.
    pub fn get(&self, site: u32) -> Option<&SitePlan>
        ensures { option_map (λ p. site_plan_of p.now) result ≡ lookup (nat_eq site) (entries_of self.now) }
    {
        match self.slots.get(&site) {
            Some(slot) => Some(&self.plans[*slot]),
            None => None,
        }
    }

    /// How many loops have plans.
    pub fn len(&self) -> usize
        ensures { result ≡ length self.now.slots }
    {
        self.slots.len()
    }

    /// The loop at a place among those that have plans, from 0, and its plan.
    pub fn loop_at(&self, place: usize) -> (u32, &SitePlan)
        requires { place < length self.now.slots }
        ensures { slice_get (entries_of self.now) place ≡ Some (result.0, site_plan_of result.1.now) }
    {
        let Some((site, slot)) = self.slots.get_index(place) else {
            unreachable!()
        };
        (*site, &self.plans[*slot])
    }
}
