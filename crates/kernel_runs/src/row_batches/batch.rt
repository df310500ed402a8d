// A batch: the kernel of a loop runs for up to 64 places of a rank at once, in columns that are put back at once or
// later.

ghost use Rattle.std.specs.Prelude.{◌≡◌, ◌<◌, ◌≤◌, ◌+◌, ℕ, List, true, length, map, slice_index};
ghost use Rattle.kernel_model.specs.Resolved.{IsResolved};
ghost use Rattle.kernel_code.specs.Coded.{IsCode};
ghost use Rattle.kernel_model.specs.Obeys.{Mode};
ghost use Rattle.kernel_model.specs.declared.types.views.frame.Place.{Place};
ghost use Rattle.kernel_model.specs.Framed.{PlacesIn, target_of};
ghost use Rattle.rank_state.specs.Windows.{Reads, Merges, firsts};
ghost use Rattle.kernel_runs.specs.Ways.{AreNumbers};
ghost use Rattle.kernel_runs.specs.Meeting.{AreDifferent, NeverInPairs};
ghost use Rattle.kernel_runs.specs.RowLoops.{HasRowRoom, IsWhole, LeadsFrom, RunsInRows, width};
ghost use Rattle.kernel_runs.specs.RowsRun.{RowsRun};
ghost use Rattle.kernel_runs.specs.Filled.{ColumnsStand};
ghost use Rattle.kernel_runs.specs.Asides.{IsAside, LeavesOthers};

use crate::row_batches::filling::{fill_columns, fill_scalars};
use crate::row_batches::meeting::{rows_before_meeting, rows_that_differ};
use crate::row_batches::putting::{merge_scalars, put_columns};
use crate::row_batches::rows::{RowLoop, RowRoom};
use crate::row_batches::ways::put_all_numbers;
use kernel_columns::{Column, Numbers, ROWS, run_rows};

/// As many rows as a batch has at least: fewer elements take no longer one after another.
pub const FEWEST: usize = 8;

// Runs the kernel in the first rows, on columns that are filled from the memory, for numbers that were looked up and
// found not to meet. Whether it finishes in each of them.
fn run_looked_up(
    rows: &RowLoop<'_>,
    count: usize,
    numbers: &[Numbers],
    memory: &[i32],
    frame: &mut [Column],
    scratch: &mut [Column],
) -> bool
    requires code { IsCode rows.now.code.now }
    requires resolved { IsResolved (length rows.now.constants.now) rows.now.code.now.kernel.now }
    requires params { length rows.now.places.now ≡ rows.now.code.now.kernel.now.params }
    requires fits { PlacesIn (width rows.now) rows.now.places.now }
    requires few { count ≤ ROWS }
    requires ways { length rows.now.ways.now ≤ length numbers.now }
    requires stand { ColumnsStand numbers.now count (length memory.now) rows.now.columns.now }
    requires apart { NeverInPairs count rows.now.pairs.now numbers.now }
    requires variables { Reads (length rows.now.variables.now) rows.now.scalars.now }
    requires frame { width rows.now ≤ length frame.old }
    requires scratch { rows.now.code.now.slots ≤ length scratch.old }
    ensures { result ≡ true
        → (batch : List ℕ)
        → (rows.now.differ ≡ true → AreDifferent count batch)
        → AreNumbers count rows.now.ways.now batch numbers.now
        → IsAside rows.now batch count numbers.now memory.now frame.new }
{
    let inner = rows.columns.len();
    let cells = &mut frame[..inner + rows.scalars.len()];
    fill_columns(rows.columns, numbers, memory, cells, count);
    fill_scalars(rows.scalars, rows.variables, inner, cells, count);
    let ran = run_rows(
        rows.code,
        cells,
        rows.places,
        rows.constants,
        scratch,
        count,
    );
    ran.is_some()
}

// How many places of a batch there are before one that must differ from an earlier one and doesn't.
fn rows_of_places(rows: &RowLoop<'_>, batch: &Numbers, count: usize) -> usize
    requires { count ≤ ROWS }
    ensures few { result ≤ count }
    ensures differ { rows.now.differ ≡ true → AreDifferent result batch.now }
{
    if rows.differ {
        rows_that_differ(batch, count)
    } else {
        count
    }
}

/// Runs the kernel of a loop on a rank for the places of a batch, the first `count` numbers of `batch`, at most 64, in
/// columns of its own: for as many of them, from the first on, as can run in rows. What the other numbers are means
/// nothing. `memory` has the cells of the rank's buffer; nothing is put back into it, so several batches can run at
/// once.
///
/// It answers for how many places from the first on the kernel ran; [`put_aside`] puts back what it left in the room.
/// These are the places before the first by which two arguments meet in an element, or which must differ from an
/// earlier one and doesn't. Where there are fewer of them than [`FEWEST`], where a row has a fault, or where few rows
/// alone choose a `for` of many turns, it answers 0. It takes no memory.
pub fn run_aside(
    rows: &RowLoop<'_>,
    batch: &Numbers,
    count: usize,
    memory: &[i32],
    room: &mut RowRoom,
) -> usize
    requires code { IsCode rows.now.code.now }
    requires resolved { IsResolved (length rows.now.constants.now) rows.now.code.now.kernel.now }
    requires params { length rows.now.places.now ≡ rows.now.code.now.kernel.now.params }
    requires fits { PlacesIn (width rows.now) rows.now.places.now }
    requires whole { IsWhole rows.now }
    requires leads { (l : ℕ) → l < count → LeadsFrom rows.now (length memory.now) (slice_index batch.now l) }
    requires few { count ≤ ROWS }
    requires variables { Reads (length rows.now.variables.now) rows.now.scalars.now }
    requires room { HasRowRoom (length rows.now.ways.now) (width rows.now) rows.now.code.now.slots room.old }
    ensures few { result ≤ count }
    ensures aside { 0 < result
        → IsAside rows.now batch.now result room.new.numbers.items memory.now room.new.frame.items }
    ensures room { (ways columns slots : ℕ) → HasRowRoom ways columns slots room.old → HasRowRoom ways columns slots room.new }
{
    let differ = rows_of_places(rows, batch, count);
    put_all_numbers(rows.ways, batch, &mut room.numbers, differ);
    let apart = rows_before_meeting(rows.pairs, &room.numbers, differ);
    if apart < FEWEST {
        return 0;
    }
    let ran = run_looked_up(
        rows,
        apart,
        &room.numbers,
        memory,
        &mut room.frame,
        &mut room.scratch,
    );
    if !ran {
        return 0;
    }
    apart
}

/// Puts back what the kernel left for the first `count` places of a batch that ran aside, from a memory that had the
/// same as this one in the cells that these read: stores into `memory` and merges into it, and merges the amounts into
/// the rank's partials. So it is called where the rank owns all of the batch's elements, or where the loop reduces into
/// no variable.
///
/// The kernel has run for these places then, one after another on the memory, with the first values of the loop's
/// scalars behind the memory for each of them. It takes no memory.
pub fn put_aside(
    rows: &RowLoop<'_>,
    batch: &Numbers,
    count: usize,
    room: &RowRoom,
    memory: &mut [i32],
    partials: &mut [i32],
)
    requires resolved { IsResolved (length rows.now.constants.now) rows.now.code.now.kernel.now }
    requires whole { IsWhole rows.now }
    requires leads { (l : ℕ) → l < count → LeadsFrom rows.now (length memory.old) (slice_index batch.now l) }
    requires aside { IsAside rows.now batch.now count room.now.numbers.items memory.old room.now.frame.items }
    requires partials { Merges (length partials.old) rows.now.scalars.now }
    ensures ran { (modes : List Mode) (stand : ℕ → List Place)
        → RunsInRows rows.now (length memory.old) modes stand batch.now count
        → RowsRun rows.now.code.now.kernel.now rows.now.constants.now (firsts rows.now.variables.now rows.now.scalars.now)
        rows.now.scalars.now
        (λ l. map target_of (stand (slice_index batch.now l))) count memory.old memory.new partials.old partials.new }
    ensures others { LeavesOthers rows.now batch.now count memory.old memory.new }
{
    kernel_columns::batches_run();
    kernel_columns::columns_are_put();
    op_num::reductions::reductions_commute();
    let inner = rows.columns.len();
    let cells = &room.frame[..inner + rows.scalars.len()];
    put_columns(rows.columns, &room.numbers, cells, count, memory);
    merge_scalars(rows.scalars, cells, inner, count, partials);
}

/// Runs the kernel of a loop on a rank for the places of a batch, the first `count` numbers of `batch`, at most 64: for
/// as many of them, from the first on, as can run in rows. What the other numbers are means nothing. `memory` has the
/// cells of the rank's buffer, and `partials` the rank's partials, into which the amounts of the rows are merged: so it
/// is called where the rank owns all of the batch's elements, or where the loop reduces into no variable.
///
/// It answers for how many places from the first on the kernel ran, one after another on the memory, with the first
/// values of the loop's scalars behind the memory for each of them. These are the places before the first by which two
/// arguments meet in an element, or which must differ from an earlier one and doesn't. Where there are fewer of them
/// than [`FEWEST`], where a row has a fault, or where few rows alone choose a `for` of many turns, it answers 0: memory
/// and partials are as they were. It takes no memory.
pub fn run_batch(
    rows: &RowLoop<'_>,
    batch: &Numbers,
    count: usize,
    memory: &mut [i32],
    partials: &mut [i32],
    room: &mut RowRoom,
) -> usize
    requires code { IsCode rows.now.code.now }
    requires resolved { IsResolved (length rows.now.constants.now) rows.now.code.now.kernel.now }
    requires params { length rows.now.places.now ≡ rows.now.code.now.kernel.now.params }
    requires fits { PlacesIn (width rows.now) rows.now.places.now }
    requires whole { IsWhole rows.now }
    requires leads { (l : ℕ) → l < count → LeadsFrom rows.now (length memory.old) (slice_index batch.now l) }
    requires few { count ≤ ROWS }
    requires variables { Reads (length rows.now.variables.now) rows.now.scalars.now }
    requires partials { Merges (length partials.old) rows.now.scalars.now }
    requires room { HasRowRoom (length rows.now.ways.now) (width rows.now) rows.now.code.now.slots room.old }
    ensures few { result ≤ count }
    ensures ran { (modes : List Mode) (stand : ℕ → List Place)
        → RunsInRows rows.now (length memory.old) modes stand batch.now count
        → RowsRun rows.now.code.now.kernel.now rows.now.constants.now (firsts rows.now.variables.now rows.now.scalars.now)
        rows.now.scalars.now
        (λ l. map target_of (stand (slice_index batch.now l))) result memory.old memory.new partials.old partials.new }
    ensures memory { result ≡ 0 → memory.new ≡ memory.old }
    ensures partials { result ≡ 0 → partials.new ≡ partials.old }
    ensures room { (ways columns slots : ℕ) → HasRowRoom ways columns slots room.old → HasRowRoom ways columns slots room.new }
{
    let ran = run_aside(rows, batch, count, memory, room);
    if ran == 0 {
        return 0;
    }
    put_aside(rows, batch, ran, room, memory, partials);
    ran
}
