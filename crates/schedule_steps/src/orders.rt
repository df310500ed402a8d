// The laws on lists of steps. Each function has an empty body, and its contract is the law.
ghost use Rattle.std.specs.Prelude.{◌≡◌, ◌↔◌, ℕ, Bool, true, false, Some, List, [], ◌∷◌, ◌++◌};
ghost use Rattle.schedule_steps.specs.Outline.{Outline, by_colour};
ghost use Rattle.schedule_steps.specs.declared.step.Step.{Step};
ghost use Rattle.schedule_steps.specs.declared.step.Step.TheVariants.{Recv, Begin, End};
ghost use Rattle.schedule_steps.specs.Steps.{IsStep, Earlier, Accepted};
ghost use Rattle.schedule_steps.specs.UnderWay.{is_open, queue_after};
ghost use Rattle.schedule_steps.specs.Turns.{Takes, Turns, nothing_taken};
ghost use Rattle.schedule_steps.specs.Standard.{standard};
ghost use Rattle.schedule_steps.specs.Drawn.{IsDrawn};
ghost use Rattle.schedule_steps.specs.Alike.{AlikeOutlines};
ghost use Rattle.schedule_steps.specs.Judged.{is_step, is_earlier, missing, may_take, left_over, is_accepted};

/// A list is accepted exactly where each step, taken in turn, is a step of the plan, was not taken
/// before and has all its earlier steps taken, and no step of the plan is left at the end.
pub fn accepted_by_turns()
    ensures { (o : Outline) (l : List Step) → Accepted o l ↔ Turns o nothing_taken l }
{}

/// The standard order with groups of any size is accepted.
pub fn standard_is_accepted()
    ensures { (o : Outline) (g : ℕ) → Accepted o (standard o g) }
{}

/// The drawn order with any seed and groups of any size is accepted.
pub fn drawn_is_accepted()
    ensures { (o : Outline) (g seed : ℕ) (l : List Step) → IsDrawn o g seed l → Accepted o l }
{}

/// For each seed there is a drawn order: in each turn some rank can go, a join can be taken, or
/// nothing is left.
pub fn drawn_exists()
    ensures { (o : Outline) (g seed : ℕ) → (l : List Step) × IsDrawn o g seed l }
{}

/// For each seed there is one drawn order only.
pub fn drawn_once()
    ensures { (o : Outline) (g seed : ℕ) (l n : List Step) → IsDrawn o g seed l → IsDrawn o g seed n → l ≡ n }
{}

/// The tests by which a checker judges a step decide what they test: a step of the plan, an earlier
/// step, a step that may be taken now, an accepted list. What is missing is a step of the plan that
/// is earlier and not taken, and what is left over one that is not taken.
pub fn tests_decide()
    ensures steps { (o : Outline) (s : Step) → (is_step o s ≡ true) ↔ IsStep o s }
    ensures earlier { (o : Outline) (t s : Step) → (is_earlier o t s ≡ true) ↔ Earlier o t s }
    ensures takes { (o : Outline) (m : Step → Bool) (s : Step) → (may_take o m s ≡ true) ↔ Takes o m s }
    ensures missing { (o : Outline) (m : Step → Bool) (s t : Step)
        → missing o m s ≡ Some t → IsStep o t × Earlier o t s × (m t ≡ false) }
    ensures left { (o : Outline) (m : Step → Bool) (t : Step) → left_over o m ≡ Some t → IsStep o t × (m t ≡ false) }
    ensures accepted { (o : Outline) (l : List Step) → (is_accepted o l ≡ true) ↔ Accepted o l }
{}

/// What a machine that takes an accepted list's steps in turn may rely on, whatever they do. Before a
/// receive the oldest message under way from its sender is of its item. Before a begin the element
/// isn't open, before an end it is, and in both cases no element of the rank is open in another item.
pub fn accepted_steps_fit()
    ensures receives { (o : Outline) (l : List Step) → Accepted o l → (pre post : List Step) (k r s : ℕ)
        → l ≡ pre ++ (Recv k r s ∷ post) → (rest : List ℕ) × (queue_after s r [] pre ≡ k ∷ rest) }
    ensures begins { (o : Outline) (l : List Step) → Accepted o l → (pre post : List Step) (k r e : ℕ)
        → l ≡ pre ++ (Begin k r e ∷ post) → (is_open pre k r e ≡ false) × ((j f : ℕ) → (j ≡ k → ⊥) → is_open pre j r f ≡ false) }
    ensures ends { (o : Outline) (l : List Step) → Accepted o l → (pre post : List Step) (k r e : ℕ)
        → l ≡ pre ++ (End k r e ∷ post) → (is_open pre k r e ≡ true) × ((j f : ℕ) → (j ≡ k → ⊥) → is_open pre j r f ≡ false) }
{}

/// Outlines that agree wherever the plan has steps accept the same lists.
pub fn alike_outlines_accept_alike()
    ensures { (o n : Outline) → AlikeOutlines o n → (l : List Step)
        → Accepted o l → Accepted n l }
{}
