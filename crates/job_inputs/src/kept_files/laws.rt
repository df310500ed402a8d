// Laws of what was seen, each as the contract of a function that does nothing.

ghost use Rattle.std.specs.Prelude.{◌≡◌, List, ℕ, Option, None, IsSome};
ghost use Rattle.op_outside.specs.Outside.{Files};
ghost use Rattle.job_inputs.specs.Seen.{Seen, Agree, IsSight};

/// A law: where no files are told, some are as they were seen, and hold every name.
pub fn some_files_are_as_seen()
    ensures { (seen : Seen) → IsSight None seen → (files : Files) × Agree seen files × ((name : List ℕ) → IsSome (files name)) }
{}
