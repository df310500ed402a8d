// The counters that give a list's peak.
ghost use Rattle.std.specs.Prelude.{◌≡◌, ◌<◌, ◌+◌, ◌^◌, ℕ, List};
ghost use Rattle.schedule_steps.specs.declared.step.Step.{Step};
ghost use Rattle.schedule_steps.specs.Peaks.{open_step, mail_step, IsPeak};
ghost use Rattle.step_judge.specs.Load.{HasCells, loaded, loaded_all, no_load};

use schedule_steps::{Peak, Step};

/// How many elements are open, how many cells are under way, and the most of both so far.
#[derive(Clone, Copy, PartialEq, Eq, Debug)]
pub struct Load {
    pub open_elements: u32,
    pub cells: u64,
    pub peak: Peak,
}

// How many elements are open after the step.
fn open_after(step: Step, count: u32) -> u32
    requires { count + 1 < 2 ^ 32 }
    ensures { result ≡ open_step step count }
{
    match step {
        Step::Send { .. } => count,
        Step::Recv { .. } => count,
        Step::Begin { .. } => count + 1,
        Step::End { .. } => count.saturating_sub(1),
        Step::Join { .. } => count,
    }
}

// How many cells are under way after the step, which is of a message of so many cells.
fn mail_after(step: Step, count: u64, cells: u64) -> u64
    requires { count + cells < 2 ^ 64 }
    ensures { (f : ℕ → ℕ → ℕ → ℕ) → HasCells f step cells → result ≡ mail_step f step count }
{
    match step {
        Step::Send { .. } => count + cells,
        Step::Recv { .. } => count.saturating_sub(cells),
        Step::Begin { .. } => count,
        Step::End { .. } => count,
        Step::Join { .. } => count,
    }
}

impl Load {
    /// Nothing is open or under way.
    pub fn new() -> Load
        ensures { result ≡ no_load }
    {
        Load {
            open_elements: 0,
            cells: 0,
            peak: Peak { frames: 0, mail: 0 },
        }
    }

    /// After one step more. A message of it has `cells` cells.
    pub fn after(self, step: Step, cells: u64) -> Load
        requires frames { self.open_elements + 1 < 2 ^ 32 }
        requires mail { self.cells + cells < 2 ^ 64 }
        ensures { (f : ℕ → ℕ → ℕ → ℕ) → HasCells f step cells → result ≡ loaded f step self }
    {
        let open_elements = open_after(step, self.open_elements);
        let cells = mail_after(step, self.cells, cells);
        Load {
            open_elements,
            cells,
            peak: Peak {
                frames: self.peak.frames.max(open_elements),
                mail: self.peak.mail.max(cells),
            },
        }
    }
}

/// The counters after all steps of a list have its peak.
pub fn loads_give_the_peak()
    ensures { (f : ℕ → ℕ → ℕ → ℕ) (l : List Step) → IsPeak f l (loaded_all f l no_load).peak }
{}
