// The first of a rank's elements. Each function has an empty body, and its contract is the law.
ghost use Rattle.std.specs.Prelude.{◌≡◌, ◌<◌, ℕ, Bool, true, false, None, [], ◌∷◌};
ghost use Rattle.schedule_steps.specs.Outline.{Outline, runs, by_colour};
ghost use Rattle.schedule_steps.specs.declared.step.Step.{Step};
ghost use Rattle.schedule_steps.specs.declared.step.Step.TheVariants.{Begin, End};
ghost use Rattle.schedule_steps.specs.Standard.{element_steps};
ghost use Rattle.schedule_steps.specs.Judged.{first_of};
ghost use Rattle.schedule_steps.specs.Firsts.{goes_first, BlocksInOrder, meets, IsFirst};

/// Of a rank's steps of elements in the standard order with groups of one, the first that meets a test is of the first
/// element that meets it: its begin, or else its end.
pub fn first_step_is_of_first_element()
    ensures some { (o : Outline) (f : Step → Bool) (k r x : ℕ) → IsFirst o f k r x
        → first_of f (element_steps o 1 k r) ≡ first_of f (Begin k r x ∷ (End k r x ∷ [])) }
    ensures none { (o : Outline) (f : Step → Bool) (k r : ℕ)
        → ((y : ℕ) → runs o k r y ≡ true → meets f k r y ≡ false)
        → first_of f (element_steps o 1 k r) ≡ None }
{}

/// The order of elements is transitive. Where blocks are in order it goes by colours, and by numbers where colours
/// don't decide.
pub fn elements_are_ordered()
    ensures on { (o : Outline) (k r x y z : ℕ)
        → goes_first o k r x y ≡ true → goes_first o k r y z ≡ true → goes_first o k r x z ≡ true }
    ensures lower { (o : Outline) (k r x y : ℕ) → by_colour o k r x y ≡ true → goes_first o k r x y ≡ true }
    ensures others { (o : Outline) (k r x y : ℕ) → BlocksInOrder o k r → y < x → by_colour o k r x y ≡ false
        → goes_first o k r y x ≡ true }
{}
