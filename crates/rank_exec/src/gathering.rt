// Elements of one item, gathered into lists of places by rank.

ghost use Rattle.std.specs.Prelude.{◌≡◌, ◌<◌, ◌≤◌, ◌++◌, ℕ, List, [], Some, IfOk, IfSome, length, vec_capacity};
ghost use Rattle.schedule_steps.specs.declared.step.Step.{Step};
ghost use Rattle.rank_exec.specs.Closed.{RankGroup, all_closed, all_alone};
ghost use Rattle.rank_machine.specs.OnRanks.{places_on};
ghost use Rattle.rank_exec.specs.declared.stream.Told.{Told as ToldValue};
ghost use Rattle.rank_exec.specs.Rounds.{round, elements, told};

use crate::stream::{Steps, Told, next_told};
use op_num::OutOfMemory;

// The elements go on a round behind these: they are of the same item, and their rank isn't before.
fn behind(next: Option<Told>, last: Told, ranks: usize) -> Option<Told>
    ensures is { (x : ToldValue) → result ≡ Some x → next ≡ Some x }
    ensures item { (x : ToldValue) → result ≡ Some x → x.item ≡ last.item }
    ensures order { (x : ToldValue) → result ≡ Some x → last.rank ≤ x.rank }
    ensures within { (x : ToldValue) → result ≡ Some x → x.rank < ranks }
{
    let Some(of) = next else {
        return None;
    };
    if of.item == last.item && of.rank >= last.rank && (of.rank as usize) < ranks {
        return Some(of);
    }
    None
}

/// Puts the places of elements that were told into the list of their rank, and with them those of the elements of their
/// item that are told next, as long as ranks don't go down. Answers what was told behind them, whose places stand in
/// `places`.
///
/// # Errors
/// Want of memory alone.
pub fn gather<S: Steps>(
    steps: &mut S,
    of: Told,
    places: &mut Vec<u32>,
    lists: &mut [Vec<u32>],
) -> Result<Option<Told>, OutOfMemory>
    requires rank { of.rank < length lists.old }
    requires some { 0 < length places.old.items }
    requires empty { (r : ℕ) → places_on lists.old r ≡ [] }
    ensures groups { IfOk result (λ next. (gs : List RankGroup)
        × (elements of.alone of.item of.rank places.old.items ++ S.left steps.old
        ≡ all_closed of.item gs ++ (told next places.new.items ++ S.left steps.new))
        × (all_alone of.item gs ≡ round of.item (places_on lists.new) (length lists.new))
        × (0 < length (all_closed of.item gs))) }
    ensures more { IfOk result (λ next. IfSome next (λ x. 0 < length places.new.items)) }
    ensures suffix { (front : List Step)
        × (elements of.alone of.item of.rank places.old.items ++ S.left steps.old ≡ front ++ S.left steps.new) }
    ensures count { length lists.new ≡ length lists.old }
    ensures room { vec_capacity places.new ≡ vec_capacity places.old }
{
    let mut last = of;
    loop {
        lists[last.rank as usize].extend_from_slice(places)?;
        let next = next_told(steps, places, true);
        let Some(more) = behind(next, last, lists.len()) else {
            return Ok(next);
        };
        last = more;
    }
}
