// Whether all numbers of a list differ.

ghost use Rattle.std.specs.Prelude.{◌≡◌, ◌<◌, ℕ, true, length, slice_index};
ghost use Rattle.kernel_runs.specs.Meeting.{AreDifferent};

// Marks each number with its index in the list. Whether there is a mark for each.
fn mark_all(numbers: &[u32], marks: &mut [u32]) -> bool {
    for (i, number) in numbers.iter().enumerate() {
        let Ok(mark) = u32::try_from(i) else {
            return false;
        };
        let at = *number as usize;
        if at >= marks.len() {
            return false;
        }
        marks[at] = mark;
    }
    true
}

// Whether the mark of each number is its index in the list.
fn are_marked(numbers: &[u32], marks: &[u32]) -> bool
    ensures { (i : ℕ) → result ≡ true → i < length numbers.now → slice_index marks.now (slice_index numbers.now i) ≡ i }
{
    for (i, number) in numbers.iter().enumerate() {
        let at = *number as usize;
        if at >= marks.len() {
            return false;
        }
        let mark = marks[at];
        if mark as usize != i {
            return false;
        }
    }
    true
}

/// Whether all numbers of a list differ, where there is a mark for each. What the marks are means nothing, before and
/// after.
pub fn all_differ(numbers: &[u32], marks: &mut [u32]) -> bool
    ensures { result ≡ true → AreDifferent (length numbers.now) numbers.now }
{
    if !mark_all(numbers, marks) {
        return false;
    }
    are_marked(numbers, marks)
}
