// The letters of each receiver, in a queue of links through all letters, so that a receiver finds its own.

ghost use Rattle.std.specs.Prelude.{◌≡◌, ◌<◌, ℕ, suc, length, slice_index_or, None};
ghost use Rattle.rank_state.specs.Letters.{letter_of, index_of};
ghost use Rattle.rank_state.specs.Queues.{Queued, IsQueue};

use crate::rank_memory::mail::Letter;

/// Where a receiver's letters begin and end: it has no unread letter before the first.
#[derive(Clone, Copy, PartialEq, Eq, Debug)]
pub struct Queue {
    pub first: usize,
    pub last: usize,
}

/// Appends a letter to its receiver's queue. The queues are those of the letters before it.
pub fn link(queues: &mut [Option<Queue>], next: &mut [Option<usize>], letters: &[Letter], at: usize)
    requires some { 0 < length queues.old }
    requires at { at < length letters.now }
    requires next { length next.old ≡ length letters.now }
    requires before { Queued queues.old next.old letters.now at }
    ensures { Queued queues.new next.new letters.now (suc at) }
{
    let queue = letters[at].to as usize % queues.len();
    next[at] = None;
    let first = match queues[queue] {
        Some(all) => {
            next[all.last] = Some(at);
            all.first
        }
        None => at,
    };
    queues[queue] = Some(Queue { first, last: at });
}

/// Links all letters anew.
pub fn link_all(queues: &mut [Option<Queue>], next: &mut [Option<usize>], letters: &[Letter])
    requires some { 0 < length queues.old }
    requires next { length next.old ≡ length letters.now }
    requires none { Queued queues.old next.old letters.now 0 }
    ensures { Queued queues.new next.new letters.now (length letters.now) }
{
    for at in 0..letters.len() {
        link(queues, next, letters, at);
    }
}

/// Lets the letters' queues go.
pub fn unlink_all(queues: &mut [Option<Queue>], next: &[Option<usize>], letters: &[Letter])
    requires some { 0 < length queues.old }
    requires queued { Queued queues.old next.now letters.now (length letters.now) }
    ensures { (k : ℕ) → k < length queues.new → slice_index_or queues.new k None ≡ None }
{
    for letter in letters {
        let queue = letter.to as usize % queues.len();
        queues[queue] = None;
    }
}

/// Moves the beginning of a receiver's queue behind letters that were read.
pub fn pass_read(queues: &mut [Option<Queue>], next: &[Option<usize>], letters: &[Letter], to: u32)
    requires some { 0 < length queues.old }
    requires next { length next.now ≡ length letters.now }
    requires queued { Queued queues.old next.now letters.now (length letters.now) }
    ensures { Queued queues.new next.now letters.now (length letters.now) }
{
    let queue = to as usize % queues.len();
    queues[queue] = from_unread(queues, next, letters, queue);
}

// A queue from its first unread letter on.
fn from_unread(
    queues: &[Option<Queue>],
    next: &[Option<usize>],
    letters: &[Letter],
    queue: usize,
) -> Option<Queue>
    requires queue { queue < length queues.now }
    requires next { length next.now ≡ length letters.now }
    requires queued { Queued queues.now next.now letters.now (length letters.now) }
    ensures { IsQueue (length queues.now) letters.now next.now (length letters.now) queue result }
{
    let Some(all) = queues[queue] else {
        return None;
    };
    let mut first = all.first;
    while letters[first].is_read {
        let Some(later) = next[first] else {
            return None;
        };
        first = later;
    }
    Some(Queue {
        first,
        last: all.last,
    })
}

/// The place of the oldest unread letter of the pair. Looks at the receiver's letters alone, from its queue's first on.
pub fn find(
    queues: &[Option<Queue>],
    next: &[Option<usize>],
    letters: &[Letter],
    from: u32,
    to: u32,
) -> usize
    requires some { 0 < length queues.now }
    requires next { length next.now ≡ length letters.now }
    requires queued { Queued queues.now next.now letters.now (length letters.now) }
    requires has { index_of from to letters.now < length letters.now }
    ensures { result ≡ index_of from to letters.now }
{
    let Some(all) = queues[to as usize % queues.len()] else {
        unreachable!()
    };
    let mut at = all.first;
    while !is_of(letters[at], from, to) {
        let Some(later) = next[at] else {
            unreachable!()
        };
        at = later;
    }
    at
}

// Whether a letter is unread and of the pair.
fn is_of(letter: Letter, from: u32, to: u32) -> bool
    ensures { result ≡ letter_of from to letter }
{
    !letter.is_read && letter.from == from && letter.to == to
}
