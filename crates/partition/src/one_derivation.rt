// That owners by blocks, and owners derived from given ones, are one.
ghost use Rattle.partition.specs.OneDerived.{IsOneBlocks, IsOneDerived};

/// A mesh has one partition by blocks; and from the same owners of the same sets one derivation gives owners to the
/// others.
pub fn one_derived()
    ensures blocks { IsOneBlocks }
    ensures derived { IsOneDerived }
{}
