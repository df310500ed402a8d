// One step of a schedule.

/// A message goes or comes, a rank begins or ends the element at one of its places, or all join.
#[derive(Clone, Copy, PartialEq, Eq, Debug)]
pub enum Step {
    /// The rank `from` sends its message of the item to the rank `to`.
    Send { item: u32, from: u32, to: u32 },
    /// The rank receives the message of the item from the rank `from`.
    Recv { item: u32, rank: u32, from: u32 },
    /// The rank begins the element at this place.
    Begin { item: u32, rank: u32, place: u32 },
    /// The rank ends the element at this place.
    End { item: u32, rank: u32, place: u32 },
    /// All ranks join, for an item that is no Free loop.
    Join { item: u32 },
}
