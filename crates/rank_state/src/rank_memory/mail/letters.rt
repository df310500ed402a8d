// Letters and their cells: what is appended and found, and the pass that lets read ones go.

ghost use Rattle.std.specs.Prelude.{◌≡◌, ◌+◌, ◌<◌, ◌≤◌, ◌++◌, [], ◌∷◌};
ghost use Rattle.std.specs.Prelude.{suc, false, length, take, drop, slice_index_or, slice_set, vec_len, vec_capacity};
ghost use Rattle.rank_state.specs.Spans.{Within, total, gathered, scattered, cells_at};
ghost use Rattle.rank_state.specs.Letters.{posts_in, unread_cells, InOrder, no_letter, read_of};
ghost use Rattle.rank_state.specs.Queues.{Queued};

use crate::Span;
use crate::rank_memory::mail::Letter;
use crate::rank_memory::mail::queues::{Queue, link, link_all, unlink_all};
use crate::rank_memory::spans::{gather, scatter};

/// Marks a letter as read, and puts its cells into the receiver's memory. Answers their number.
pub fn read(
    letters: &mut [Letter],
    cells: &[i32],
    index: usize,
    memory: &mut [i32],
    spans: &[Span],
) -> usize
    requires index { index < length letters.old }
    requires part { (slice_index_or letters.old index no_letter).at + (slice_index_or letters.old index no_letter).count
        ≤ length cells.now }
    requires inside { Within (length memory.old) spans.now }
    requires room { total spans.now ≤ (slice_index_or letters.old index no_letter).count }
    ensures letters { letters.new ≡ slice_set letters.old index (read_of (slice_index_or letters.old index no_letter)) }
    ensures count { result ≡ (slice_index_or letters.old index no_letter).count }
    ensures memory { memory.new ≡ scattered 0
        (cells_at (slice_index_or letters.old index no_letter).at (slice_index_or letters.old index no_letter).count cells.now)
        spans.now memory.old }
{
    let letter = letters[index];
    scatter(memory, spans, &cells[letter.at..letter.at + letter.count]);
    letters[index].is_read = true;
    letter.count
}

/// Copies the spans' cells into the buffer from a place on, and answers their number.
pub fn put_at(cells: &mut [i32], at: usize, memory: &[i32], spans: &[Span]) -> usize
    requires inside { Within (length memory.now) spans.now }
    requires room { at + total spans.now ≤ length cells.old }
    ensures count { result ≡ total spans.now }
    ensures before { take at cells.new ≡ take at cells.old }
    ensures here { take (total spans.now) (drop at cells.new) ≡ gathered memory.now spans.now }
{
    gather(memory, spans, &mut cells[at..])
}

/// Appends a letter.
pub fn append(
    letters: &mut Vec<Letter>,
    next: &mut Vec<Option<usize>>,
    queues: &mut [Option<Queue>],
    letter: Letter,
)
    requires room { vec_len letters.old < vec_capacity letters.old }
    requires next_room { vec_len next.old < vec_capacity next.old }
    requires some { 0 < length queues.old }
    requires next { length next.old.items ≡ length letters.old.items }
    requires queued { Queued queues.old next.old.items letters.old.items (length letters.old.items) }
    ensures letters { letters.new.items ≡ letters.old.items ++ letter ∷ [] }
    ensures next { length next.new.items ≡ length letters.new.items }
    ensures queued { Queued queues.new next.new.items letters.new.items (length letters.new.items) }
    ensures capacity { vec_capacity letters.new ≡ vec_capacity letters.old }
    ensures next_capacity { vec_capacity next.new ≡ vec_capacity next.old }
{
    let at = letters.len();
    letters.push_reserved(letter);
    next.push_reserved(None);
    link(queues, next, letters, at);
}

/// Lets the read letters go where most of the filled cells are theirs, and answers how many cells are filled then. A
/// pass costs no more than what was read since the last.
pub fn make_room(
    letters: &mut Vec<Letter>,
    next: &mut Vec<Option<usize>>,
    queues: &mut [Option<Queue>],
    cells: &mut [i32],
    filled: usize,
    unread: usize,
) -> usize
    requires some { 0 < length queues.old }
    requires next { length next.old.items ≡ length letters.old.items }
    requires queued { Queued queues.old next.old.items letters.old.items (length letters.old.items) }
    requires order { InOrder 0 filled letters.old.items }
    requires inside { filled ≤ length cells.old }
    requires unread { unread ≡ unread_cells letters.old.items }
    ensures order { InOrder 0 result letters.new.items }
    ensures room { result ≤ unread + unread }
    ensures unread { unread_cells letters.new.items ≡ unread }
    ensures posts { posts_in letters.new.items cells.new ≡ posts_in letters.old.items cells.old }
    ensures next { length next.new.items ≡ length letters.new.items }
    ensures queued { Queued queues.new next.new.items letters.new.items (length letters.new.items) }
    ensures capacity { vec_capacity letters.new ≡ vec_capacity letters.old }
    ensures next_capacity { vec_capacity next.new ≡ vec_capacity next.old }
{
    if filled - unread <= unread {
        return filled;
    }
    unlink_all(queues, next, letters);
    let (kept, end) = compact(letters, cells);
    letters.truncate(kept);
    next.truncate(kept);
    link_all(queues, next, letters);
    end
}

// Moves the unread letters to the front, and their cells to the front of the buffer, in order. Answers how many letters
// and cells these are.
fn compact(letters: &mut [Letter], cells: &mut [i32]) -> (usize, usize)
    requires order { InOrder 0 (length cells.old) letters.old }
    ensures order { InOrder 0 result.1 (take result.0 letters.new) }
    ensures cells { result.1 ≡ unread_cells letters.old }
    ensures unread { unread_cells (take result.0 letters.new) ≡ unread_cells letters.old }
    ensures posts { posts_in (take result.0 letters.new) cells.new ≡ posts_in letters.old cells.old }
{
    let mut kept = 0;
    let mut end = 0;
    for i in 0..letters.len() {
        if !letters[i].is_read {
            end = move_down(letters, cells, i, kept, end);
            kept += 1;
        }
    }
    (kept, end)
}

// Moves an unread letter down to another place, and its cells down to where those before it end. Answers where its
// cells end then.
fn move_down(letters: &mut [Letter], cells: &mut [i32], from: usize, to: usize, end: usize) -> usize
    requires from { from < length letters.old }
    requires to { to ≤ from }
    requires unread { (slice_index_or letters.old from no_letter).is_read ≡ false }
    requires done { InOrder 0 end (take to letters.old) }
    requires rest { InOrder end (length cells.old) (drop from letters.old) }
    ensures cells { result ≡ end + (slice_index_or letters.old from no_letter).count }
    ensures done { InOrder 0 result (take (suc to) letters.new) }
    ensures rest { InOrder result (length cells.new) (drop (suc from) letters.new) }
    ensures unread { unread_cells (take (suc to) letters.new)
        ≡ unread_cells (take to letters.old) + (slice_index_or letters.old from no_letter).count }
    ensures after { drop (suc from) letters.new ≡ drop (suc from) letters.old }
    ensures posts { posts_in (take (suc to) letters.new) cells.new ++ posts_in (drop (suc from) letters.new) cells.new
        ≡ posts_in (take to letters.old) cells.old ++ posts_in (drop from letters.old) cells.old }
{
    let letter = letters[from];
    copy_down(cells, letter.at, letter.count, end);
    letters[to] = Letter { at: end, ..letter };
    end + letter.count
}

// Copies cells down to another place, which they may overlap.
fn copy_down(cells: &mut [i32], at: usize, count: usize, to: usize)
    requires inside { at + count ≤ length cells.old }
    requires down { to ≤ at }
    ensures before { take to cells.new ≡ take to cells.old }
    ensures here { cells_at to count cells.new ≡ cells_at at count cells.old }
    ensures behind { drop (to + count) cells.new ≡ drop (to + count) cells.old }
{
    cells.copy_within(at..at + count, to);
}
