//! What orders and loops say of each other: each law is the contract of a function that does nothing.
ghost use Rattle.mintc_order.specs.Refusals.{ArcsHaveOrderOrLoop, OrdersExcludeLoops};

/// Where arcs have an order, none of them lead round.
pub fn orders_exclude_loops()
    ensures { OrdersExcludeLoops }
{}

/// Arcs have an order, or some of them lead round and leave no bit twice.
pub fn arcs_have_order_or_loop()
    ensures { ArcsHaveOrderOrLoop }
{}
