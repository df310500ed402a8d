// Who is told of what a run does.

/// A part of a run that is over.
#[derive(Clone, Copy, PartialEq, Eq, Debug)]
pub enum Phase {
    /// The source and the mesh have been read.
    Read,
    /// The source has been bound to the mesh.
    Bound,
    /// The mesh has been distributed to the ranks.
    Distributed,
    /// The plan has been made.
    Planned,
}

/// Is told of what a run does, in the order in which it does it, on the thread that does it. A run does the same for
/// every gate. But for `enter`, a call does nothing where a gate does not say what it does.
///
/// Items, ranks and places have the numbers that a schedule's steps have: an item's number is that in the program that
/// runs, a place is a local number.
pub trait Gate {
    /// The job with number `index` of several that may run at once is about to run: a begin of a group, a rank of a
    /// round, or a batch of a rank's elements.
    fn enter(&self, index: usize);

    /// A phase of the run is over.
    fn phase(&self, _phase: Phase) {}

    /// The steps that come next are of this item: the loop with the number `site` among those of the source, over
    /// `count` elements, or none. Where an order goes from rank to rank an item may begin several times.
    fn item_begins(&self, _item: u32, _site: Option<u32>, _count: u32) {}

    /// The steps that come next are of another item, or there are none.
    fn item_ends(&self, _item: u32) {}

    /// In an item the rank `from` is about to send its message to the rank `to`.
    fn send(&self, _item: u32, _from: u32, _to: u32) {}

    /// In an item a rank is about to receive the message of the rank `from`.
    fn recv(&self, _item: u32, _rank: u32, _from: u32) {}

    /// All ranks are about to do an item that is no Free loop.
    fn join(&self, _item: u32) {}

    /// On a rank these elements of an item are about to begin together. Each begin of theirs is told by `begin`.
    fn group_begins(&self, _item: u32, _rank: u32, _places: &[u32]) {}

    /// The kernels have run of the group that began last on the rank; in place, its elements have ended too.
    fn group_ends(&self, _item: u32, _rank: u32, _places: &[u32]) {}

    /// On a rank the kernel of an item's loop is about to run for the elements at these places, or for the first of
    /// them. Those that it does not run for begin later.
    fn begin(&self, _item: u32, _rank: u32, _places: &[u32]) {}

    /// On a rank what the kernel left for the elements at these places stands in the rank's memory. Where they are in
    /// no group, each has ended before the next began, as far as the memory shows.
    fn end(&self, _item: u32, _rank: u32, _places: &[u32]) {}
}

/// The gate that does nothing.
#[derive(Clone, Copy, Debug)]
pub struct Open;

impl Gate for Open {
    fn enter(&self, _index: usize) {}
}

/// A gate that is told of the elements of an item on a rank.
#[derive(Drop)]
pub struct ItemGate<'g, G> {
    pub gate: &'g G,
    pub item: u32,
    pub rank: u32,
}

impl<'g, G: Gate> ItemGate<'g, G> {
    /// Tells that the kernel is about to run for the elements at these places, or for the first of them.
    pub fn begin(&self, places: &[u32]) {
        self.gate.begin(self.item, self.rank, places);
    }

    /// Tells that the elements at these places have ended.
    pub fn end(&self, places: &[u32]) {
        self.gate.end(self.item, self.rank, places);
    }
}
