// What a machine has to keep room for while it takes a list of steps.
ghost use Rattle.std.specs.Prelude.{◌≡◌, ◌<◌, ◌≤◌, ◌+◌, ℕ, List, ◌∷◌, ◌++◌, length};
ghost use Rattle.schedule_steps.specs.Outline.{Outline};
ghost use Rattle.schedule_steps.specs.declared.step.Step.{Step};
ghost use Rattle.schedule_steps.specs.declared.step.Step.TheVariants.{Send, Recv, Begin, End};
ghost use Rattle.schedule_steps.specs.Steps.{Accepted};
ghost use Rattle.schedule_steps.specs.Peaks.{open_step, mail_step, count_after, greatest, step_count};

/// The most elements open at once, and the most cells under way at once.
#[derive(Clone, Copy, PartialEq, Eq, Debug)]
pub struct Peak {
    pub frames: u32,
    pub mail: u64,
}

/// A list's peak is room for its begins and sends. In an accepted list no count is taken below 0: an
/// element is open before each end, and the cells of a message are under way before its receive.
pub fn peak_is_room()
    ensures begins { (l pre post : List Step) (k r e : ℕ) → l ≡ pre ++ (Begin k r e ∷ post)
        → count_after open_step 0 pre < greatest open_step 0 l }
    ensures sends { (cells : ℕ → ℕ → ℕ → ℕ) (l pre post : List Step) (k s r : ℕ) → l ≡ pre ++ (Send k s r ∷ post)
        → (count_after (mail_step cells) 0 pre + cells k s r) ≤ greatest (mail_step cells) 0 l }
    ensures ends { (o : Outline) (l : List Step) → Accepted o l → (pre post : List Step) (k r e : ℕ)
        → l ≡ pre ++ (End k r e ∷ post) → 0 < count_after open_step 0 pre }
    ensures receives { (o : Outline) (l : List Step) → Accepted o l → (cells : ℕ → ℕ → ℕ → ℕ)
        → (pre post : List Step) (k r s : ℕ) → l ≡ pre ++ (Recv k r s ∷ post) → cells k s r ≤ count_after (mail_step cells) 0 pre }
{}

/// Each accepted list has as many steps as the standard order.
pub fn accepted_lists_have_all_steps()
    ensures { (o : Outline) (l : List Step) → Accepted o l → length l ≡ step_count o }
{}
