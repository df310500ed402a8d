// What is told of each run.

use kernel_model::types::views::Place;
use smallvec::SmallVec;

/// A run: its element by its original number and by its place, and how many cells the element's windows have.
#[derive(Clone, Copy)]
pub struct Task {
    pub element: u32,
    pub place: u32,
    pub cells: usize,
}

/// As many as a loop has arguments at most.
pub const MOST_ARGS: usize = 16;

/// Where the windows of a loop's arguments stand among the cells of an element's windows, by argument.
#[derive(Drop)]
pub struct Targets {
    pub places: SmallVec<Place, MOST_ARGS>,
}
