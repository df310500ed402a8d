// What the end of an element puts back.

use crate::{Scalar, Span};

/// What the end of an element puts back of what its frame holds: its windows on spans of the rank's buffer, where these
/// are written, and the amounts that it reduces into the rank's partials.
#[derive(Clone, Copy, Debug)]
pub struct Ending<'a> {
    /// whether the rank owns the element, so that its amounts count
    pub own: bool,
    /// the spans, whose cells stand one after another at the front of the frame
    pub spans: &'a [Span],
    /// the scalars, with one cell each
    pub scalars: &'a [Scalar],
    /// how many cells of the frame stand before those of the scalars
    pub skip: usize,
}
