// Elements on ranks, and their windows.

use rank_program::Runnable;
use rank_state::{Owned, Scalar, Span};

/// An element of an item that a rank begins: its place there, and its number in its set.
#[derive(Clone, Copy, Debug)]
pub struct Begun {
    pub item: u32,
    pub rank: u32,
    pub place: u32,
    pub original: u32,
}

/// The windows of an element on a rank: spans of the rank's buffer, and what it reads of the variables or reduces into
/// them.
#[derive(Clone, Copy, Debug)]
pub struct Windows<'a> {
    pub spans: &'a [Span],
    pub scalars: &'a [Scalar],
}

/// The windows of an element of an Ordered loop: cells of the owners, and indices of variables.
#[derive(Clone, Copy, Debug)]
pub struct OwnedWindows<'a> {
    pub spans: &'a [Owned],
    pub indices: &'a [usize],
}

/// A run of the kernel of a program's loop for an element.
#[derive(Drop)]
pub struct KernelRun<'a> {
    pub program: &'a Runnable<'a>,
    /// the item that is the loop
    pub item: u32,
    /// the element's number in its set
    pub element: u32,
    /// the values of all constants
    pub constants: &'a [i32],
}
