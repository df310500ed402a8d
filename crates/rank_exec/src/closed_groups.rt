//! Closed groups: elements of one item on one rank that begin one after another, and then end in the same order. In an
//! accepted list the machine on flat buffers is after such a group where it is after the same elements one after
//! another.
ghost use Rattle.std.specs.Prelude.{◌≡◌, ℕ, List, None};
ghost use Rattle.schedule_steps.specs.declared.step.Step.{Step};
ghost use Rattle.schedule_steps.specs.Steps.{Accepted};
ghost use Rattle.schedule_model.specs.Setup.{Setup};
ghost use Rattle.schedule_model.specs.Laws.{Coloured};
ghost use Rattle.step_orders.specs.Alone.{alone};
ghost use Rattle.schedule_model.specs.Layout.{Layout, IsLayout, by_place};
ghost use Rattle.schedule_model.specs.Flat.{Flat, Shut_pane, flat_from};
ghost use Rattle.rank_exec.specs.Closed.{GroupsAreAlone, SeveralAreAlone};

/// A law: a closed group in an accepted list leaves what its elements leave one after another, each begun and ended
/// before the next begins. All of a group are open at once, so no two of them have colours that order them; so they
/// modify no common cell, and none of them sees what another writes back.
pub fn closed_groups_are_alone<F>()
    ensures { (p : Setup F) → Coloured p → (l : Layout F) → IsLayout p l → (steps : List Step) → Accepted (by_place p l) steps
        → GroupsAreAlone p l steps }
{}

/// A law: a place that has no frame has none after elements that begin and end one after another.
pub fn places_stay_shut<F>()
    ensures { (p : Setup F) (l : Layout F) (k r : ℕ) (xs : List ℕ) (f : Flat F) → f.stop ≡ None → (j x : ℕ) → f.panes j r x ≡ Shut_pane
        → (flat_from p l (alone k r xs) f).panes j r x ≡ Shut_pane }
{}

/// A law: where each closed group leaves what its elements leave one after another, closed groups of an item that come
/// one behind another, on any ranks, leave what all their elements leave one after another.
pub fn several_are_alone<F>()
    ensures { (p : Setup F) (l : Layout F) (steps : List Step) → GroupsAreAlone p l steps → SeveralAreAlone p l steps }
{}
