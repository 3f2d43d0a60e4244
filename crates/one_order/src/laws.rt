//! That there is an order.
ghost use Rattle.one_order.specs.Order.{StandInOneOrder};

/// What fronts were answered side by side is as if one had asked after another, in each partition, and each front in the order in which it asked.
pub fn one_order()
    ensures { StandInOneOrder }
{}
