//! What is true of the orders of every table: each law is a function that does nothing, and its
//! clauses are the law.
ghost use Rattle.order_laws.specs.Laws.{GraphsHaveThingsAsTargets, ToldCyclesHaveNames};

use rg_deps::laws;

/// Whatever a group or a resource comes after is a group or a resource that is there.
pub fn what_is_needed_is_there()
    ensures targets { GraphsHaveThingsAsTargets }
{}

/// A cycle that is told names one thing at least.
pub fn told_cycles_have_names()
    ensures names { ToldCyclesHaveNames }
{
    laws::a_cycle_is_there();
    laws::a_cycle_is_closed();
}
