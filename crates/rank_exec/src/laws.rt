// Laws of elements on several ranks, each as the contract of a function that does nothing.

ghost use Rattle.schedule_model.specs.Setup.{Setup};
ghost use Rattle.schedule_model.specs.Layout.{Layout};
ghost use Rattle.rank_state.specs.Shows.{Tables};
ghost use Rattle.std.specs.Prelude.{List};
ghost use Rattle.rank_program.specs.AloneRuns.{Share};
ghost use Rattle.rank_state.specs.Machine.{State};
ghost use Rattle.rank_exec.specs.Rounds.{RanksComeInTurn, SharesAreSet};

/// A law: where the elements of an item ran on each rank by itself, whatever happened on the others, they were begun
/// and ended rank after rank, and their faults are put together in that order.
pub fn ranks_come_in_turn<F>()
    ensures { (p : Setup F) (l : Layout F) (t : Tables) → RanksComeInTurn p l t }
{
    rank_state::in_place_shows::<F>();
}

/// A law: shares that are put into the state rank after rank are those of all ranks at once.
pub fn shares_are_set<F>()
    ensures { (old : State F) (news : List (Share F)) → SharesAreSet old news }
{}
