// What the definitions of runs give. Each function has an empty body, and its contract is the law.
ghost use Rattle.std.specs.Prelude.{◌≡◌, ◌<◌, ◌*◌, ℕ, take, drop};
ghost use Rattle.schedule_steps.specs.Outline.{Outline};
ghost use Rattle.schedule_steps.specs.Drawn.{numbers};
ghost use Rattle.schedule_steps.specs.Standard.{is_member, in_group};

/// The elements of one block and colour, in order and cut at every g elements, are its runs in the standard order.
pub fn runs_are_windows()
    ensures { (o : Outline) (g k r b c j n : ℕ) → 0 < g
        → numbers (in_group o g k r b c j) n ≡ take g (drop (j * g) (numbers (is_member o k r b c) n)) }
{}
