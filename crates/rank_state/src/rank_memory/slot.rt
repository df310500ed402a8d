// The slots of the staging buffer.

use kernel_model::types::KernelFault;

/// What a slot holds.
#[derive(Clone, Copy, PartialEq, Eq, Debug)]
pub enum Held {
    Nothing,
    Fault(KernelFault),
    Cells(usize),
}

/// The element that a slot is for.
#[derive(Clone, Copy, PartialEq, Eq, Debug)]
pub struct Slot {
    pub item: u32,
    pub rank: u32,
    pub element: u32,
    pub held: Held,
}

/// A slot that no element has.
pub const EMPTY: Slot = Slot {
    item: 0,
    rank: 0,
    element: 0,
    held: Held::Nothing,
};
