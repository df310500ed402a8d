// Steps that come one after another.

ghost use Rattle.std.specs.Prelude.{◌≡◌, ◌<◌, ◌++◌, [], None, length, vec_capacity, IfSome, IfNone};
ghost use Rattle.rank_exec.specs.Driving.{to_come};
ghost use Rattle.rank_exec.specs.Rounds.{elements};

use schedule_steps::Step;
use step_orders::ItemOnRank;
pub use step_orders::Steps;

// The first of the steps still to come; `None` where there is none.
pub(crate) fn next_of<S: Steps>(steps: &mut S) -> Option<Step>
    ensures next { S.left steps.old ≡ to_come result (S.left steps.new) }
    ensures over { result ≡ None → S.left steps.new ≡ [] }
{
    steps.next_step()
}

// Elements of an item on a rank that a stream tells to come next: where they are `alone`, each begins and ends before
// the next begins; else they are a closed group.
#[derive(Clone, Copy, PartialEq, Eq, Debug)]
pub(crate) struct Told {
    pub item: u32,
    pub rank: u32,
    pub alone: bool,
}

// The elements that are told to come next, a closed group only where `closed`: their steps are taken, and their places
// are what stands in `places` then. `None` where none are told.
pub(crate) fn next_told<S: Steps>(
    steps: &mut S,
    places: &mut Vec<u32>,
    closed: bool,
) -> Option<Told>
    ensures some { IfSome result (λ of. S.left steps.old ≡ elements of.alone of.item of.rank places.new.items ++ S.left steps.new) }
    ensures more { IfSome result (λ of. 0 < length places.new.items) }
    ensures none { IfNone result (S.left steps.new ≡ S.left steps.old) }
    ensures room { vec_capacity places.new ≡ vec_capacity places.old }
{
    places.clear();
    if let Some(ItemOnRank { item, rank }) = steps.next_alone(places) {
        return Some(Told {
            item,
            rank,
            alone: true,
        });
    }
    if !closed {
        return None;
    }
    places.clear();
    let Some(ItemOnRank { item, rank }) = steps.next_closed(places) else {
        return None;
    };
    Some(Told {
        item,
        rank,
        alone: false,
    })
}
