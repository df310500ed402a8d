// Begins of elements.

use schedule_steps::Step;

/// A begin: of an item on a rank, at a place there.
#[derive(Clone, Copy, Debug)]
pub struct BeginAt {
    pub item: u32,
    pub rank: u32,
    pub place: u32,
}

/// The begins of a group: of an item on a rank, at these places.
#[derive(Clone, Copy, Debug)]
pub struct Begins<'a> {
    pub item: u32,
    pub rank: u32,
    pub places: &'a [u32],
}

/// What came of a begin and those behind it.
#[derive(Clone, Copy, Debug)]
pub enum Begun {
    /// Its own end came next: its element ran in place.
    InPlace,
    /// They were begun as a group, and this step comes next; `None` where there is none.
    Group(Option<Step>),
}
