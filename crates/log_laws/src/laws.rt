//! What is true of lists of updates that are not bad: each law is a function that does nothing, and
//! its clause is the law.
ghost use Rattle.log_laws.specs.Laws.{AcceptedUpdatesLeaveNoCycle, LogsHaveNoCycle, LogsNameWhatIsThere};

use rg_deps::laws;

/// In the configuration that a list of updates makes, the types, groups and resources that something
/// names are there, and no two things of a kind have the same name.
pub fn logs_name_what_is_there()
    ensures there { LogsNameWhatIsThere }
{}

/// The configuration that a list of updates makes has no cycle, of groups or of resources.
pub fn logs_have_no_cycle()
    ensures order { LogsHaveNoCycle }
{
    laws::what_is_chosen_is_an_order();
    laws::a_cycle_is_there();
    laws::a_cycle_is_closed();
    order_laws::what_is_needed_is_there();
}

/// An update that is accepted over such a configuration leaves no cycle, whatever it changes.
pub fn accepted_updates_leave_no_cycle()
    ensures order { AcceptedUpdatesLeaveNoCycle }
{
    laws::what_is_chosen_is_an_order();
    laws::a_cycle_is_there();
    laws::a_cycle_is_closed();
    order_laws::what_is_needed_is_there();
    command_laws::accepted_updates_hold();
}
