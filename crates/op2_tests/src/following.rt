// Whether what a gate was told goes by the steps of a schedule.

use crate::told::{Kind, Note};
use std::alloc::{AllocError, Global};

// The place of a number in a list.
fn found(places: &[u32], place: u32) -> Option<usize> {
    for (i, other) in places.iter().enumerate() {
        if *other == place {
            return Some(i);
        }
    }
    None
}

// Takes a number out of a list; whether it was there.
fn take_out(places: &mut Vec<u32>, place: u32) -> bool {
    match found(places, place) {
        Some(i) => {
            if i < places.len() {
                places.remove(i);
            }
            true
        }
        None => false,
    }
}

// The place of a note in a list.
fn index_of(notes: &[Note], note: Note) -> Option<usize> {
    for (i, other) in notes.iter().enumerate() {
        if *other == note {
            return Some(i);
        }
    }
    None
}

// A step of an item on a rank.
fn step(kind: Kind, of: Note) -> Note {
    Note { kind, ..of }
}

// The steps that one worker took so far: those in `steps`, and those of a group that hasn't ended.
#[derive(Drop)]
struct Taken {
    steps: Vec<Note>,
    in_group: bool,
    begun: Vec<Note>,
    ended: Vec<Note>,
    open: Vec<Note>,
}

impl Taken {
    // The group ends: its elements begin together, and where they ran in place they end then.
    fn close_group(&mut self) -> Result<(), AllocError> {
        self.in_group = false;
        if self.ended.is_empty() {
            self.steps.extend_from_slice(&self.begun)?;
            self.open.extend_from_slice(&self.begun)?;
        }
        for note in &self.ended {
            self.steps.push(step(Kind::Begin, *note))?;
        }
        self.steps.extend_from_slice(&self.ended)?;
        self.begun.clear();
        self.ended.clear();
        Ok(())
    }

    // An element ends: one of a group in place, or one that a group began before, or one that began just before.
    fn end(&mut self, note: Note) -> Result<(), AllocError> {
        if self.in_group {
            self.ended.push(note)?;
            return Ok(());
        }
        if let Some(i) = index_of(&self.open, step(Kind::Begin, note)) {
            if i < self.open.len() {
                self.open.remove(i);
            }
            self.steps.push(note)?;
            return Ok(());
        }
        self.steps.push(step(Kind::Begin, note))?;
        self.steps.push(note)?;
        Ok(())
    }

    fn take(&mut self, note: Note) -> Result<(), AllocError> {
        match note.kind {
            Kind::GroupBegins => {
                self.in_group = true;
                Ok(())
            }
            Kind::GroupEnds => {
                if self.in_group {
                    self.close_group()?;
                }
                Ok(())
            }
            Kind::Begin => {
                if self.in_group {
                    self.begun.push(note)?;
                }
                Ok(())
            }
            Kind::End => self.end(note),
            Kind::Send | Kind::Recv | Kind::Join => {
                self.steps.push(note)?;
                Ok(())
            }
        }
    }
}

/// The steps that one worker took, of whom a gate was told this.
pub fn steps_taken(alloc: Global, notes: &[Note]) -> Result<Vec<Note>, AllocError> {
    let mut taken = Taken {
        steps: Vec::new(alloc),
        in_group: false,
        begun: Vec::new(alloc),
        ended: Vec::new(alloc),
        open: Vec::new(alloc),
    };
    for note in notes {
        taken.take(*note)?;
    }
    Ok(taken.steps)
}

// How far a rank has come in its steps.
#[derive(Drop)]
struct Along<'s> {
    steps: &'s [Note],
    at: usize,
    // What ran in place and has to end by the steps too.
    owed: Vec<u32>,
    // The places of the group that has begun and hasn't ended, of which these have begun and ended.
    group: Vec<u32>,
    begun: Vec<u32>,
    ended: Vec<u32>,
    // What began in no group.
    tried: Vec<u32>,
}

impl<'s> Along<'s> {
    // Passes over ends of what ran in place.
    fn pass(&mut self) {
        for _ in 0..self.steps.len() {
            let Some(next) = self.steps.get(self.at) else {
                return;
            };
            if next.kind != Kind::End || !take_out(&mut self.owed, next.place) {
                return;
            }
            self.at = self.at.saturating_add(1);
        }
    }

    // Whether this is the next step, which is taken then.
    fn is_next(&mut self, note: Note) -> bool {
        self.pass();
        let Some(next) = self.steps.get(self.at) else {
            return false;
        };
        if *next != note {
            return false;
        }
        self.at = self.at.saturating_add(1);
        true
    }

    fn begin(&mut self, note: Note) -> Result<bool, AllocError> {
        if self.group.is_empty() {
            self.tried.push(note.place)?;
            return Ok(true);
        }
        let is_new = found(&self.begun, note.place).is_none();
        self.begun.push(note.place)?;
        Ok(is_new && found(&self.group, note.place).is_some())
    }

    fn end(&mut self, note: Note) -> Result<bool, AllocError> {
        if !self.group.is_empty() {
            self.ended.push(note.place)?;
            self.owed.push(note.place)?;
            return Ok(found(&self.begun, note.place).is_some());
        }
        if !take_out(&mut self.tried, note.place) {
            return Ok(self.is_next(note));
        }
        let is_next = self.is_next(step(Kind::Begin, note));
        self.owed.push(note.place)?;
        Ok(is_next)
    }

    // Whether the group that ends has begun as a whole, and has ended as a whole where it did in place.
    fn close_group(&mut self) -> bool {
        let all = self.group.len();
        let ended = self.ended.len();
        let is_whole = self.begun.len() == all && (ended == 0 || ended == all);
        self.group.clear();
        self.begun.clear();
        self.ended.clear();
        is_whole
    }

    fn take(&mut self, note: Note) -> Result<bool, AllocError> {
        match note.kind {
            Kind::Send | Kind::Recv => Ok(self.is_next(note)),
            Kind::GroupBegins => {
                self.group.push(note.place)?;
                Ok(self.is_next(step(Kind::Begin, note)))
            }
            Kind::GroupEnds => Ok(self.group.is_empty() || self.close_group()),
            Kind::Begin => self.begin(note),
            Kind::End => self.end(note),
            Kind::Join => Ok(true),
        }
    }
}

// The notes of a rank, but for joins.
fn on_rank(alloc: Global, notes: &[Note], rank: u32) -> Result<Vec<Note>, AllocError> {
    let mut some = Vec::new(alloc);
    for note in notes {
        if note.rank == rank && note.kind != Kind::Join {
            some.push(*note)?;
        }
    }
    Ok(some)
}

/// Whether a rank, of which a gate was told this among other things, went by its steps among these: its messages in
/// their order; groups in theirs, and in each group every element once, in any order, between the group's begin and its
/// end; what ran in place one after another in the order of its begins; and other ends in theirs.
pub fn goes_by(
    alloc: Global,
    notes: &[Note],
    steps: &[Note],
    rank: u32,
) -> Result<bool, AllocError> {
    let own = on_rank(alloc, steps, rank)?;
    let mut along = Along {
        steps: &own,
        at: 0,
        owed: Vec::new(alloc),
        group: Vec::new(alloc),
        begun: Vec::new(alloc),
        ended: Vec::new(alloc),
        tried: Vec::new(alloc),
    };
    for note in &on_rank(alloc, notes, rank)? {
        if !along.take(*note)? {
            return Ok(false);
        }
    }
    along.pass();
    Ok(along.at == own.len() && along.owed.is_empty())
}

/// Whether joins are told in the order of these steps.
pub fn joins_go_by(alloc: Global, notes: &[Note], steps: &[Note]) -> Result<bool, AllocError> {
    let mut left = Vec::new(alloc);
    for step in steps {
        if step.kind == Kind::Join {
            left.push(*step)?;
        }
    }
    let mut joins = Vec::new(alloc);
    for note in notes {
        if note.kind == Kind::Join {
            joins.push(*note)?;
        }
    }
    Ok(joins == left)
}
