// Parts of a buffer.

/// Cells of a rank's buffer that stand side by side: the cell `at` and the `dim - 1` behind it. `writes` says whether
/// what a window or a message has of them is written back.
#[derive(Clone, Copy, PartialEq, Eq, Debug)]
pub struct Span {
    pub at: usize,
    pub dim: usize,
    pub writes: bool,
}
