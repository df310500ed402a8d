// Data on the elements of a set.
use op_num::Text;

/// Numbers on the cells or on the nodes, as many for each.
#[derive(Drop)]
pub struct Field {
    /// The name of the array, in which no blank stands.
    pub name: Text,
    /// How many numbers each element has.
    pub dim: u32,
    /// A line for each element, with its numbers between single spaces.
    pub rows: Text,
}
