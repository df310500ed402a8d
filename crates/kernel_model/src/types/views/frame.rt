// A frame: one lent buffer, and for each argument the place of its cells in it. Arguments with one target share a
// place.

ghost use Rattle.std.specs.Prelude.{◌≡◌, ℕ, ◌+◌, ◌<◌, ◌↔◌, IsTrue, length, slice_set};
ghost use Rattle.kernel_model.specs.Stores.{target_at, read_arg, store_arg};
ghost use Rattle.kernel_model.specs.Framed.{windows_of, targets_of, FitsIn, PlacesIn};

/// Where an argument's cells stand in the buffer: `count` cells from the cell `from` on.
#[derive(Clone, Copy, Default, PartialEq, Eq, Debug)]
pub struct Place {
    pub from: usize,
    pub count: usize,
}

/// Whether each place stands within a buffer of so many cells.
pub fn are_places_in(places: &[Place], cells: usize) -> bool
    ensures { IsTrue result ↔ PlacesIn cells places.now }
{
    places.iter().all(|place| place.from <= cells && place.count <= cells - place.from)
}

/// A buffer that is lent whole, and for each argument the place of its cells.
#[derive(Drop)]
pub struct Frame<'a> {
    pub cells: &'a mut [i32],
    pub places: &'a [Place],
}

impl<'a> Frame<'a> {
    /// The number of cells of the argument of that number, from 0.
    pub fn len_of(&self, arg: usize) -> usize
        requires { arg < length self.now.places.now }
        ensures { result ≡ (target_at (targets_of self.now) arg).count }
    {
        self.places[arg].count
    }

    /// The cell of an argument with that index, which is below its number of cells.
    pub fn get(&self, arg: usize, index: usize) -> i32
        requires fits { FitsIn self.now }
        requires arg { arg < length self.now.places.now }
        requires index { index < (target_at (targets_of self.now) arg).count }
        ensures { result ≡ read_arg (targets_of self.now) (windows_of self.now) arg index }
    {
        self.cells[self.places[arg].from + index]
    }

    /// Stores into the cell of an argument with that index, which is below its number of cells.
    pub fn put(&mut self, arg: usize, index: usize, value: i32)
        requires fits { FitsIn self.old }
        requires arg { arg < length self.old.places.now }
        requires index { index < (target_at (targets_of self.old) arg).count }
        ensures name { self.new.cells.ghost_name ≡ self.old.cells.ghost_name }
        ensures places { self.new.places ≡ self.old.places }
        ensures fits { FitsIn self.new }
        ensures windows { windows_of self.new ≡ store_arg (targets_of self.old) (windows_of self.old) arg index value }
    {
        let from = self.places[arg].from;
        self.cells[from + index] = value;
    }
}
