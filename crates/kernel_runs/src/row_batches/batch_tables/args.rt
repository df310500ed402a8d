// Arguments on dats by a rank's local numbers.

use crate::row_batches::LocalVia;

/// An argument on a dat: by which map it leads from a place, the cell of the rank's buffer at which the dat begins, and
/// how many cells each element has.
#[derive(Clone, Copy)]
pub struct LocalArg<'a> {
    pub via: Option<LocalVia<'a>>,
    pub base: usize,
    pub dim: usize,
}
