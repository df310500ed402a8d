// The calls of a shelf or a sink over memory that are to fail.
ghost use Rattle.std.specs.Prelude.{◌≡◌, ◌≤◌};

/// Which calls fail, by their numbers from 0, and how many did. Both counters stay at their last
/// value, 18446744073709551615.
#[derive(Debug, Drop)]
pub struct Script {
    fails: Vec<u64>,
    calls: u64,
    faults: u64,
}

impl Script {
    ghost use Rattle.op_outside.specs.Script.{IsFresh, Passes, Fails, is_due, failing, next_call, failed, raised};

    /// No call yet; those with the numbers `fails` are to fail.
    pub fn new(fails: Vec<u64>) -> Script
        ensures { IsFresh result fails.items }
    {
        Script {
            fails,
            calls: 0,
            faults: 0,
        }
    }

    /// Counts a call, and says whether it is one of those that are to fail.
    pub fn next_fails(&mut self) -> bool
        ensures due { result ≡ is_due self.old }
        ensures counts { Passes self.old self.new }
    {
        let call = self.calls;
        self.calls = call.saturating_add(1);
        self.fails.contains(&call)
    }

    /// Counts a call that failed.
    pub fn fail(&mut self)
        ensures fails { failing self.new ≡ failing self.old }
        ensures next { next_call self.new ≡ next_call self.old }
        ensures failed { failed self.new ≡ raised (failed self.old) }
        ensures never_falls { failed self.old ≤ failed self.new }
    {
        self.faults = self.faults.saturating_add(1);
    }
}
