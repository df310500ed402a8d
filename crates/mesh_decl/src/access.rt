// How an argument of a parallel loop is reached.

/// How an element of a loop's set leads to an element of a dat's set: by the target at `index`, from 0 and below the
/// map's dim, of the map numbered `map`.
#[derive(Clone, Copy, Debug, PartialEq, Eq)]
pub struct Via {
    pub map: u32,
    pub index: u32,
}
