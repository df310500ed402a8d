// The ring of two nodes and two edges, with and without faults.
ghost use Rattle.std.specs.Prelude.{◌≡◌, Bool, true, false, pos, Some, None, List, [], ◌∷◌};
ghost use Rattle.schedule_steps.specs.Standard.{standard};
ghost use Rattle.schedule_model.specs.Setup.{outline};
ghost use Rattle.schedule_steps.specs.Outline.{by_colour};
ghost use Rattle.schedule_steps.specs.declared.step.Step.{Step};
ghost use Rattle.schedule_steps.specs.Steps.{Accepted};
ghost use Rattle.schedule_model.specs.Sequential.{sequential};
ghost use Rattle.schedule_model.specs.Machine.{machine, Agrees};
ghost use Rattle.schedule_model.specs.Laws.{Lawful, Coloured};
ghost use Rattle.schedule_model.specs.Laws.{Kernels, Items};
ghost use Rattle.schedule_model.specs.LoopParts.{LoopParts};
ghost use Rattle.schedule_model.specs.Layout.{IsLayout};
ghost use Rattle.schedule_model.specs.Flat.{StartsFlat, flat_from};
ghost use Rattle.schedule_model.specs.Ring.{ring, x_cell, r_cell, sum_cell};
ghost use Rattle.schedule_model.specs.RingLayout.{ring_layout, ring_start, ring_places};
ghost use Rattle.schedule_model.specs.Lists.{Accepts, in_order, interleaved, item_reversed, join_reversed, send_reversed};
ghost use Rattle.schedule_model.specs.Lists.{receive_reversed, end_reversed, colour_reversed, one_missing, one_twice, one_foreign};

/// The premises of the theorems hold of the ring, with an exchange, a reduction, an Ordered item and
/// colours, and, where it is faulty, with faults on several elements.
pub fn ring_is_lawful()
    ensures lawful { (faulty : Bool) → Lawful (ring faulty) }
    ensures coloured { (faulty : Bool) → Coloured (ring faulty) }
{
    crate::one_bit_is_the_history();
}

/// What the laws of plans ask of kernels, items, arguments, halos, exchanges and colours holds of it.
pub fn ring_has_the_parts()
    ensures kernels { (faulty : Bool) → Kernels (ring faulty) }
    ensures items { (faulty : Bool) → Items (ring faulty) }
    ensures loops { (faulty : Bool) → LoopParts (ring faulty) }
{
    crate::one_bit_is_the_history();
}

/// So each accepted schedule of the ring runs as its sequential run does.
pub fn ring_runs_as_sequential()
    ensures { (faulty : Bool) (l : List Step) → Accepted (outline (ring faulty)) l
        → Agrees (ring faulty) (sequential (ring faulty).program) (machine (ring faulty) l) }
{
    ring_is_lawful();
    crate::accepted_runs_as_sequential::<u32>();
}

/// The ring's standard order, and what the machine does with it: owners and variables have the
/// values of the sequential run, a stale copy has what it was sent, and in the faulty ring the least
/// element's fault counts, though edge 1 faults first on either rank.
pub fn ring_runs()
    ensures order { standard (outline (ring false)) 1 ≡ in_order }
    ensures accepted { Accepts in_order }
    ensures overlapping { Accepts interleaved }
    ensures owned { (machine (ring false) in_order).memories 1 (x_cell 1) ≡ pos 4 }
    ensures stale { (machine (ring false) in_order).memories 0 (x_cell 1) ≡ pos 2 }
    ensures added { (machine (ring false) interleaved).memories 0 (r_cell 0) ≡ pos 4 }
    ensures reduced { (machine (ring false) interleaved).variables sum_cell ≡ pos 2 }
    ensures printed { (machine (ring false) interleaved).output ≡ 2 ∷ [] }
    ensures stopped { (machine (ring true) interleaved).stop ≡ Some (record { item = 1; element = Some 0; fault = 0 }) }
{
    schedule_steps::standard_is_accepted();
    schedule_steps::tests_decide();
}

/// The ring's buffers are laid out as its plan says, and what the standard order by places with
/// groups of 2 leaves in them: on each rank x of its own node and of the other's, and then r of them.
pub fn ring_on_buffers()
    ensures fits { (faulty : Bool) → IsLayout (ring faulty) (ring_layout faulty) }
    ensures starts { (faulty : Bool) → StartsFlat (ring faulty) (ring_layout faulty) ring_start }
    ensures memories { (flat_from (ring false) (ring_layout false) ring_places ring_start).memories
        ≡ (pos 5 ∷ pos 2 ∷ pos 4 ∷ pos 2 ∷ []) ∷ (pos 4 ∷ pos 1 ∷ pos 2 ∷ pos 4 ∷ []) ∷ [] }
    ensures variables { (flat_from (ring false) (ring_layout false) ring_places ring_start).variables ≡ pos 2 ∷ pos 1 ∷ pos 0 ∷ [] }
{}

/// For each rule a list that breaks it alone is refused, as are lists that lack a step, have one
/// twice, or have one that is none of the plan's. The machine would lose an amount where two edges
/// overlap against their colours, and add a stale value where one begins before the message.
pub fn lists_are_refused()
    ensures items { Accepts item_reversed → ⊥ }
    ensures joins { Accepts join_reversed → ⊥ }
    ensures sends { Accepts send_reversed → ⊥ }
    ensures receives { Accepts receive_reversed → ⊥ }
    ensures ends { Accepts end_reversed → ⊥ }
    ensures colours { Accepts colour_reversed → ⊥ }
    ensures missing { Accepts one_missing → ⊥ }
    ensures twice { Accepts one_twice → ⊥ }
    ensures foreign { Accepts one_foreign → ⊥ }
    ensures lost { (machine (ring false) colour_reversed).memories 0 (r_cell 0) ≡ pos 2 }
    ensures too_early { (machine (ring false) receive_reversed).memories 0 (r_cell 0) ≡ pos 2 }
{}
