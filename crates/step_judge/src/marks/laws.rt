// What the marks show. Each function has an empty body, and its contract is the law.
ghost use Rattle.std.specs.Prelude.{◌≡◌};
ghost use Rattle.schedule_steps.specs.Outline.{Outline};
ghost use Rattle.schedule_steps.specs.declared.step.Step.{Step};
ghost use Rattle.schedule_steps.specs.Steps.{IsStep};
ghost use Rattle.schedule_steps.specs.Judged.{is_step, is_earlier};
ghost use Rattle.schedule_steps.specs.Alike.{AlikeOutlines};

/// Outlines that agree wherever the plan has steps have the same steps, and of these the same are earlier.
pub fn alike_outlines_judge_alike()
    ensures steps { (o n : Outline) → AlikeOutlines o n → (s : Step) → is_step o s ≡ is_step n s }
    ensures earlier { (o n : Outline) → AlikeOutlines o n → (t s : Step) → IsStep o t → IsStep o s → is_earlier o t s ≡ is_earlier n t s }
{}
