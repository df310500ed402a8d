// That owners by rule are one.
ghost use Rattle.partition.specs.OneOwner.{IsOneGrowth, IsOneBisection};

/// By growth over neighbours each element has one owner.
pub fn one_growth()
    ensures { IsOneGrowth }
{}

/// By cuts along the values of a dat a set has one list of owners.
pub fn one_bisection()
    ensures { IsOneBisection }
{}
