// That an order of taking is one.
ghost use Rattle.renumber.specs.OneOrder.{IsOneOrder, DegreesAreApart};

/// Where different elements have different keys, there is one order of taking of all elements; and by (degree, number)
/// they have.
pub fn one_taking_order()
    ensures one { IsOneOrder }
    ensures degrees { DegreesAreApart }
{}
