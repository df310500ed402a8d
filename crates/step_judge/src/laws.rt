// What taking lists of steps shows. Each function does nothing, and its contract is the law.
ghost use Rattle.std.specs.Prelude.{◌≡◌, ◌↔◌, Bool, false, List, ◌∷◌, ◌++◌, Err, None};
ghost use Rattle.schedule_steps.specs.Outline.{Outline};
ghost use Rattle.schedule_steps.specs.declared.step.Step.{Step};
ghost use Rattle.schedule_steps.specs.Steps.{IsStep, Accepted};
ghost use Rattle.schedule_steps.specs.Judged.{left_over};
ghost use Rattle.step_judge.specs.declared.refusal.ScheduleRefusal.{ScheduleRefusal};
ghost use Rattle.step_judge.specs.Verdicts.{judged};
ghost use Rattle.step_judge.specs.TakenAll.{TakenAll};

/// From where no step is taken: a list that is taken step by step is accepted exactly where no step is left at its end,
/// and no accepted list goes on with a step that is refused behind it.
pub fn taken_lists_are_accepted()
    ensures whole { (o : Outline) (m n : Step → Bool) (l : List Step) → ((t : Step) → IsStep o t → m t ≡ false) → TakenAll o m l n
        → Accepted o l ↔ (left_over o n ≡ None) }
    ensures refused { (o : Outline) (m n : Step → Bool) (l : List Step) → ((t : Step) → IsStep o t → m t ≡ false) → TakenAll o m l n
        → (s : Step) (e : ScheduleRefusal) → judged o n s ≡ Err e → (rest : List Step) → Accepted o (l ++ (s ∷ rest)) → ⊥ }
{
    schedule_steps::tests_decide();
    schedule_steps::standard_is_accepted();
}
