// The windows of an element of an Ordered loop, in the buffers of the ranks that own their cells.

ghost use Rattle.std.specs.Prelude.{◌≡◌, ◌+◌, ◌<◌, ◌≤◌, ◌++◌, ℕ, ℤ, [], length, map, take, slice_set, slice_index_or};
ghost use Rattle.rank_state.specs.Spans.{with_window, cells_at};
ghost use Rattle.rank_state.specs.Ordered.{Within_all, total_all, gathered_all, scattered_all, put_values};
ghost use Rattle.rank_state.specs.Indices.{InLength, values_at};
ghost use Rattle.rank_state.specs.Spare.{KeepsSpare};

use crate::Owned;
use crate::rank_memory::copying::copy;

// Copies cells of the frame into a rank's buffer.
fn put_row(
    memories: &mut [Vec<i32>],
    rank: usize,
    at: usize,
    frame: &[i32],
    from: usize,
    dim: usize,
)
    requires rank { rank < length memories.old }
    requires frame { from + dim ≤ length frame.now }
    requires memory { at + dim ≤ length (slice_index_or (map (λ v. v.items) memories.old) rank []) }
    ensures cells { map (λ v. v.items) memories.new
        ≡ slice_set (map (λ v. v.items) memories.old) rank
        (with_window at (cells_at from dim frame.now) (slice_index_or (map (λ v. v.items) memories.old) rank [])) }
    ensures spare { KeepsSpare memories.old memories.new }
{
    copy(frame, from, &mut memories[rank], at, dim);
}

/// Copies the spans' cells back.
pub fn scatter_all(memories: &mut [Vec<i32>], spans: &[Owned], frame: &[i32])
    requires inside { Within_all (map (λ v. v.items) memories.old) spans.now }
    requires room { total_all spans.now ≤ length frame.now }
    ensures cells { map (λ v. v.items) memories.new ≡ scattered_all 0 frame.now spans.now (map (λ v. v.items) memories.old) }
    ensures spare { KeepsSpare memories.old memories.new }
{
    let mut from = 0;
    for span in spans {
        put_row(memories, span.rank as usize, span.at, frame, from, span.dim);
        from += span.dim;
    }
}

// Copies the spans' cells into the frame, one span after another, and answers their number.
fn gather_all(memories: &[Vec<i32>], spans: &[Owned], frame: &mut [i32]) -> usize
    requires inside { Within_all (map (λ v. v.items) memories.now) spans.now }
    requires room { total_all spans.now ≤ length frame.old }
    ensures count { result ≡ total_all spans.now }
    ensures cells { take (total_all spans.now) frame.new ≡ gathered_all (map (λ v. v.items) memories.now) spans.now }
{
    let mut from = 0;
    for span in spans {
        copy(
            &memories[span.rank as usize],
            span.at,
            frame,
            from,
            span.dim,
        );
        from += span.dim;
    }
    from
}

/// Copies the variables' cells at the indices into the frame, from a place on.
pub fn gather_values(variables: &[i32], indices: &[usize], from: usize, frame: &mut [i32])
    requires inside { InLength (length variables.now) indices.now }
    requires room { from + length indices.now ≤ length frame.old }
    ensures { take (from + length indices.now) frame.new ≡ take from frame.old ++ values_at variables.now indices.now }
{
    for (i, index) in indices.iter().enumerate() {
        frame[from + i] = variables[*index];
    }
}

/// Copies values to the variables' cells at the indices.
pub fn put_back_values(variables: &mut [i32], indices: &[usize], values: &[i32])
    requires inside { InLength (length variables.old) indices.now }
    requires room { length indices.now ≤ length values.now }
    ensures { variables.new ≡ put_values indices.now values.now variables.old }
{
    for (i, index) in indices.iter().enumerate() {
        variables[*index] = values[i];
    }
}

/// Copies an element's windows into the frame, and answers how many cells those in the ranks' buffers have.
pub fn load_all(
    memories: &[Vec<i32>],
    spans: &[Owned],
    variables: &[i32],
    indices: &[usize],
    frame: &mut [i32],
) -> usize
    requires inside { Within_all (map (λ v. v.items) memories.now) spans.now }
    requires reads { InLength (length variables.now) indices.now }
    requires room { total_all spans.now + length indices.now ≤ length frame.old }
    ensures count { result ≡ total_all spans.now }
    ensures cells { take (total_all spans.now + length indices.now) frame.new
        ≡ gathered_all (map (λ v. v.items) memories.now) spans.now ++ values_at variables.now indices.now }
{
    let count = gather_all(memories, spans, frame);
    gather_values(variables, indices, count, frame);
    count
}
