// Laws of elements that run one after another on a rank, each as the contract of a function that does nothing.

ghost use Rattle.schedule_model.specs.Setup.{Setup};
ghost use Rattle.schedule_model.specs.Layout.{Layout};
ghost use Rattle.rank_state.specs.Shows.{Tables};
ghost use Rattle.rank_program.specs.FromNone.{FaultsComeTogether};

/// A law: elements run alike from no fault and from one that was kept, and what they note from none on decides together
/// with that one.
pub fn faults_come_together<F>()
    ensures { (p : Setup F) (l : Layout F) (t : Tables) → FaultsComeTogether p l t }
{}
