// Parts of the buffers of several ranks.

/// Cells of one rank's buffer that stand side by side, and which that rank owns: the cell `at` of the buffer of `rank`
/// and the `dim - 1` behind it.
#[derive(Clone, Copy, PartialEq, Eq, Debug)]
pub struct Owned {
    pub rank: u32,
    pub at: usize,
    pub dim: usize,
}
