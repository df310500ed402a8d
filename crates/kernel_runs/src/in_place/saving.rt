// The marked places' cells of a memory, saved before a run and put back after its fault.

ghost use Rattle.std.specs.Prelude.{◌≡◌, ◌≤◌, List, ℤ, length};
ghost use Rattle.kernel_model.specs.Framed.{PlacesIn};
ghost use Rattle.kernel_runs.specs.Saving.{place_cells, place_spans, AreKept, AreSaved};

use kernel_model::types::views::Place;
use rank_state::rank_memory::copying::copy;

/// Copies the marked places' cells, each to where it stands among the cells of all places.
pub fn save(memory: &[i32], places: &[Place], marks: &[bool], saved: &mut [i32])
    requires inside { PlacesIn (length memory.now) places.now }
    requires marks { length marks.now ≡ length places.now }
    requires room { place_cells places.now ≤ length saved.old }
    ensures { AreSaved (place_spans places.now marks.now) memory.now saved.new }
{
    let mut at = 0;
    for (i, place) in places.iter().enumerate() {
        if marks[i] {
            copy(memory, place.from, saved, at, place.count);
        }
        at += place.count;
    }
}

/// Puts saved cells back.
pub fn put_back(memory: &mut [i32], places: &[Place], marks: &[bool], saved: &[i32])
    requires inside { PlacesIn (length memory.old) places.now }
    requires marks { length marks.now ≡ length places.now }
    requires room { place_cells places.now ≤ length saved.now }
    ensures { (first : List ℤ) → AreSaved (place_spans places.now marks.now) first saved.now
        → AreKept (place_spans places.now marks.now) first memory.old → memory.new ≡ first }
{
    let mut at = 0;
    for (i, place) in places.iter().enumerate() {
        if marks[i] {
            copy(saved, at, memory, place.from, place.count);
        }
        at += place.count;
    }
}
