// A gate that writes down what it is told.

use par_exec::Gate;
use std::alloc::{AllocError, Global};
use std::sync::atomic::{AtomicU64, Ordering};

/// What a gate is told of, with an item, a rank and a place, or with an item, a rank and another rank. A join has rank
/// 0.
#[derive(Clone, Copy, PartialEq, Eq, Debug)]
pub enum Kind {
    Send,
    Recv,
    Begin,
    End,
    Join,
    GroupBegins,
    GroupEnds,
}

/// One note: of several elements there are as many, one behind another.
#[derive(Clone, Copy, PartialEq, Eq, Debug)]
pub struct Note {
    pub kind: Kind,
    pub item: u32,
    pub rank: u32,
    pub place: u32,
}

const KINDS: [Kind; 7] = [
    Kind::Send,
    Kind::Recv,
    Kind::Begin,
    Kind::End,
    Kind::Join,
    Kind::GroupBegins,
    Kind::GroupEnds,
];

// A note as a number, not 0: four bits for the kind, from 1 on, 20 for the item, 8 for the rank, and 32 for the place.
fn packed(kind: u64, item: u32, rank: u32, place: u32) -> u64 {
    kind << 60 | (item as u64 & 0xf_ffff) << 40 | (rank as u64 & 0xff) << 32 | place as u64
}

fn unpacked(number: u64) -> Option<Note> {
    let kind = (number >> 60) as usize;
    let Some(kind) = KINDS.get(kind.wrapping_sub(1)) else {
        return None;
    };
    Some(Note {
        kind: *kind,
        item: (number >> 40 & 0xf_ffff) as u32,
        rank: (number >> 32 & 0xff) as u32,
        place: (number & 0xffff_ffff) as u32,
    })
}

/// Writes down what it is told, from several threads too, as long as there is room. The notes of one thread stand in
/// the order in which it made them.
#[derive(Drop)]
pub struct Notes {
    count: AtomicU64,
    notes: Vec<AtomicU64>,
}

impl Notes {
    /// Room for so many notes.
    pub fn new(alloc: Global, room: usize) -> Result<Notes, AllocError> {
        let mut notes = Vec::with_capacity(alloc, room)?;
        for _ in 0..room {
            notes.push(AtomicU64::new(0))?;
        }
        Ok(Notes {
            count: AtomicU64::new(0),
            notes,
        })
    }

    fn note(&self, kind: u64, item: u32, rank: u32, place: u32) {
        let at = self.count.fetch_add(1, Ordering::SeqCst) as usize;
        if let Some(note) = self.notes.get(at) {
            note.store(packed(kind, item, rank, place), Ordering::SeqCst);
        }
    }

    fn note_all(&self, kind: u64, item: u32, rank: u32, places: &[u32]) {
        for place in places {
            self.note(kind, item, rank, *place);
        }
    }

    /// What was noted; `None` where there was no room for all.
    pub fn all(&self, alloc: Global) -> Result<Option<Vec<Note>>, AllocError> {
        let count = self.count.load(Ordering::SeqCst) as usize;
        if count > self.notes.len() {
            return Ok(None);
        }
        let mut all = Vec::with_capacity(alloc, count)?;
        for number in &self.notes[..count] {
            match unpacked(number.load(Ordering::SeqCst)) {
                Some(note) => all.push(note)?,
                None => return Ok(None),
            }
        }
        Ok(Some(all))
    }
}

impl Gate for Notes {
    fn enter(&self, _index: usize) {}

    fn send(&self, item: u32, from: u32, to: u32) {
        self.note(1, item, from, to);
    }

    fn recv(&self, item: u32, rank: u32, from: u32) {
        self.note(2, item, rank, from);
    }

    fn begin(&self, item: u32, rank: u32, places: &[u32]) {
        self.note_all(3, item, rank, places);
    }

    fn end(&self, item: u32, rank: u32, places: &[u32]) {
        self.note_all(4, item, rank, places);
    }

    fn join(&self, item: u32) {
        self.note(5, item, 0, 0);
    }

    fn group_begins(&self, item: u32, rank: u32, places: &[u32]) {
        self.note_all(6, item, rank, places);
    }

    fn group_ends(&self, item: u32, rank: u32, places: &[u32]) {
        self.note_all(7, item, rank, places);
    }
}
