//! What orders are, whatever the things: each law is a function that does nothing, and its clauses
//! are the law.
ghost use Rattle.rg_deps.specs.Laws.{AnOrderIsFound, ChosenIsOrder, CycleIsClosed, CycleIsThere};

/// Where nothing is left, what was chosen has each thing once, after all its targets.
pub fn what_is_chosen_is_an_order()
    ensures { ChosenIsOrder }
{}

/// Where there is an order with the targets first, one is found: a cycle is told exactly where there
/// is no such order.
pub fn an_order_is_found()
    ensures { AnOrderIsFound }
{}

/// In what is told as a cycle each has the next as a target, and the last the first.
pub fn a_cycle_is_closed()
    ensures { CycleIsClosed }
{}

/// Where something is left, and the targets of things are things, a cycle is told that is not empty.
pub fn a_cycle_is_there()
    ensures { CycleIsThere }
{}
