// The unread messages, in one buffer, in the order of their sending.

ghost use Rattle.std.specs.Prelude.{◌≡◌, [], ◌+◌, ◌<◌, ◌≤◌, length, vec_capacity, IfOk};
ghost use Rattle.rank_state.specs.Spans.{Within, total, gathered};
ghost use Rattle.rank_state.specs.Mail.{Box, first_post, sent, received, arrived, Carries};
ghost use Rattle.rank_state.specs.Letters.{posts_in, unread_cells, InOrder};
ghost use Rattle.rank_state.specs.Queues.{Queued};

mod letters;
mod queues;

use crate::Span;
use crate::rank_memory::mail::letters::{append, make_room, put_at, read};
use crate::rank_memory::mail::queues::{Queue, find, pass_read};
use std::alloc::{AllocError, Global};
use std::marker::Model;

/// A message's head.
#[derive(Clone, Copy, PartialEq, Eq, Debug)]
pub struct Letter {
    pub item: u32,
    pub from: u32,
    pub to: u32,
    pub is_read: bool,
    /// where its cells begin
    pub at: usize,
    pub count: usize,
}

/// The messages between the ranks that are not read yet.
#[derive(Drop)]
pub struct Mail {
    // in the order of sending, also some that were read
    letters: Vec<Letter>,
    // for each letter the next of its receiver's queue
    next: Vec<Option<usize>>,
    // of the receivers
    queues: Vec<Option<Queue>>,
    // of the letters, one letter's behind the other's
    cells: Vec<i32>,
    filled: usize,
    // of unread letters
    unread: usize,
    // that may be sent before others are read
    left: usize,
}

impl Model for Mail {
    ghost Value = { Box };

    ghost view = { λ m. record { posts = posts_in m.letters.items m.cells.items; left = m.left } };

    ghost invariant = { λ m. InOrder 0 m.filled m.letters.items × (m.filled ≤ length m.cells.items)
        × (m.unread ≡ unread_cells m.letters.items) × ((m.unread + m.left) + (m.unread + m.left) ≤ length m.cells.items)
        × (length m.cells.items ≤ vec_capacity m.letters)
        × (length m.cells.items ≤ vec_capacity m.next) × (length m.next.items ≡ length m.letters.items) × (0 < length m.queues.items)
        × Queued m.queues.items m.next.items m.letters.items (length m.letters.items) };
}

impl Mail {
    /// Room for messages of so many unread cells between so many ranks: for twice as many cells, and as many letters.
    pub fn new(alloc: Global, ranks: usize, peak: usize) -> Result<Mail, AllocError>
        ensures { IfOk result (λ m. m ≡ record { posts = []; left = peak }) }
    {
        let mut cells = vec![in alloc; 0; peak]?;
        cells.resize(2 * peak, 0)?;
        let letters = Vec::with_capacity(alloc, cells.len())?;
        let next = Vec::with_capacity(alloc, cells.len())?;
        let queues = vec![in alloc; None; ranks.max(1)]?;
        Ok(Mail {
            letters,
            next,
            queues,
            cells,
            filled: 0,
            unread: 0,
            left: peak,
        })
    }

    /// Stores the spans' cells of the sender's memory as a message. A run of calls takes time linear in its messages:
    /// where less of the buffer is unread than was read, what is unread moves down first.
    pub fn send(&mut self, item: u32, from: u32, to: u32, memory: &[i32], spans: &[Span])
        requires inside { Within (length memory.now) spans.now }
        requires some { 0 < total spans.now }
        requires room { total spans.now ≤ self.old.left }
        ensures { self.new ≡ sent item from to (gathered memory.now spans.now) self.old }
    {
        let at = make_room(
            &mut self.letters,
            &mut self.next,
            &mut self.queues,
            &mut self.cells,
            self.filled,
            self.unread,
        );
        let count = put_at(&mut self.cells, at, memory, spans);
        let letter = Letter {
            item,
            from,
            to,
            at,
            count,
            is_read: false,
        };
        append(&mut self.letters, &mut self.next, &mut self.queues, letter);
        self.filled = at + count;
        self.unread += count;
        self.left -= count;
    }

    /// Takes the oldest message of the pair, and puts its cells into the receiver's memory. Takes time linear in the
    /// message and the receiver's letters from its first unread one on; others it passes once.
    pub fn recv(&mut self, item: u32, from: u32, to: u32, memory: &mut [i32], spans: &[Span])
        requires inside { Within (length memory.old) spans.now }
        requires oldest { Carries item from to (total spans.now) self.old }
        ensures mail { self.new ≡ received from to (total spans.now) self.old }
        ensures memory { memory.new ≡ arrived spans.now (first_post from to self.old.posts) memory.old }
    {
        pass_read(&mut self.queues, &self.next, &self.letters, to);
        let index = find(&self.queues, &self.next, &self.letters, from, to);
        let count = read(&mut self.letters, &self.cells, index, memory, spans);
        self.unread -= count;
        self.left += count;
    }
}
