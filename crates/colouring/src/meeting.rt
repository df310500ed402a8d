// Rows of targets that have colours: whether two rows of one colour have a common target. Each target keeps the last
// row that had it, so that no pair of rows is looked at.
ghost use Rattle.std.specs.Prelude.{◌≡◌, ◌<◌, ◌≤◌, ◌+◌, ◌*◌, ◌^◌, ◌⊎◌, ◌↔◌, ℕ, true, false, OnOk, Contains, length, slice_index, EachIndex};
ghost use Rattle.std.specs.Prelude.{get_or};
ghost use Rattle.colouring.specs.Rows.{none};
ghost use Rattle.colouring.specs.Meeting.{Has, IsMet, Marked, SomeMeet};

use op_num::OutOfMemory;

// Whether a mark is of another row of the row's colour, from the row `first` on.
fn is_met(colours: &[u32], first: u32, row: u32, mark: u32) -> bool
    requires row { row < length colours.now }
    requires mark { (mark ≡ none) ⊎ (mark < length colours.now) }
    ensures { (result ≡ true) ↔ IsMet colours.now first row mark }
{
    mark != u32::MAX
        && mark >= first
        && mark != row
        && colours[mark as usize] == colours[row as usize]
}

// Marks the targets of a row, unless one is marked with another row of its colour, from the row `first` on; says
// whether one is.
fn row_meets(
    targets: &[u32],
    width: usize,
    colours: &[u32],
    first: u32,
    marks: &mut [u32],
    row: u32,
) -> bool
    requires row { row < length colours.now }
    requires small { length colours.now * width + width < 2 ^ 64 }
    requires targets { EachIndex targets.now (λ k. slice_index targets.now k < length marks.old) }
    requires marks { (t : ℕ) → t < length marks.old → (slice_index marks.old t ≡ none) ⊎ (slice_index marks.old t < length colours.now) }
    ensures found { result ≡ true → (t : ℕ) × Has targets.now width row t × IsMet colours.now first row (slice_index marks.old t) }
    ensures clear { result ≡ false → (t : ℕ) → Has targets.now width row t → IsMet colours.now first row (slice_index marks.old t) → ⊥ }
    ensures marks { result ≡ false → (t : ℕ) → t < length marks.old
        → (Has targets.now width row t × (slice_index marks.new t ≡ row))
        ⊎ ((Has targets.now width row t → ⊥) × (slice_index marks.new t ≡ slice_index marks.old t)) }
{
    let start = (row as usize * width).min(targets.len());
    let end = (row as usize * width + width).min(targets.len());
    for k in start..end {
        let target = targets[k] as usize;
        if is_met(colours, first, row, marks[target]) {
            return true;
        }
        marks[target] = row;
    }
    false
}

/// Whether two of these rows, which stand by colour, have one colour and a common target. Before it no target is marked
/// but with a row before `first`.
pub fn rows_meet(
    targets: &[u32],
    width: usize,
    colours: &[u32],
    first: u32,
    marks: &mut [u32],
    order: &[u32],
) -> bool
    requires rows { (a : ℕ) → a < length order.now → (first ≤ slice_index order.now a) × (slice_index order.now a < length colours.now) }
    requires sorted { (a e : ℕ) → a ≤ e → e < length order.now
        → slice_index colours.now (slice_index order.now a) ≤ slice_index colours.now (slice_index order.now e) }
    requires first { first ≤ length colours.now }
    requires few { length colours.now ≤ none }
    requires small { length colours.now * width + width < 2 ^ 64 }
    requires targets { EachIndex targets.now (λ k. slice_index targets.now k < length marks.old) }
    requires marks { (t : ℕ) → t < length marks.old → (slice_index marks.old t ≡ none) ⊎ (slice_index marks.old t < first) }
    ensures found { result ≡ true → SomeMeet targets.now width colours.now order.now }
    ensures clear { result ≡ false → SomeMeet targets.now width colours.now order.now → ⊥ }
    ensures marks { result ≡ false → Marked targets.now width order.now first (length order.now) marks.new }
{
    for row in order {
        if row_meets(targets, width, colours, first, marks, *row) {
            return true;
        }
    }
    false
}

// The colour of a row.
fn colour_of(colours: &[u32], row: u32) -> u32
    ensures { result ≡ slice_index colours.now row }
{
    colours.get(row as usize).copied().unwrap_or(0)
}

/// Puts the rows from `first` up to `last` by colour, in place of what `order` has.
pub fn order_rows(
    order: &mut Vec<u32>,
    colours: &[u32],
    first: u32,
    last: u32,
) -> Result<(), OutOfMemory>
    requires { first ≤ last }
    ensures rows { OnOk result ((a : ℕ) → a < length order.new.items
        → (first ≤ slice_index order.new.items a) × (slice_index order.new.items a < last)) }
    ensures all { OnOk result ((row : ℕ) → first ≤ row → row < last → Contains order.new.items row) }
    ensures sorted { OnOk result ((a e : ℕ) → a ≤ e → e < length order.new.items
        → slice_index colours.now (slice_index order.new.items a) ≤ slice_index colours.now (slice_index order.new.items e)) }
{
    order.clear();
    for row in first..last {
        order.push(row)?;
    }
    order.sort_unstable_by_key(|row| colour_of(colours, *row));
    Ok(())
}
