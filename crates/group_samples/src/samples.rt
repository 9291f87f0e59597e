//! Whole traces that meet the definitions: so they can be met.
ghost use Rattle.history.specs.History.{History};
ghost use Rattle.group_history.specs.GroupHistory.{ClusterHistory, GroupsHold, GroupAnswers, GroupsWhole};
ghost use Rattle.group_samples.specs.SampleConfigurations.{staying, moving};
ghost use Rattle.group_samples.specs.SampleFault.{faulted};
ghost use Rattle.group_samples.specs.SampleFailover.{failed_over};
ghost use Rattle.group_samples.specs.SampleServing.{cleared, sticking};

/// A node fails to start a resource, which is faulted then, and tells it.
pub fn a_fault()
    ensures holds { GroupsHold staying faulted }
    ensures answers { GroupAnswers staying faulted }
    ensures whole { GroupsWhole staying faulted }
{}

/// A group fails to start on one node twice, and is started on the other.
pub fn a_failover()
    ensures holds { GroupsHold moving failed_over }
    ensures answers { GroupAnswers moving failed_over }
    ensures whole { GroupsWhole moving failed_over }
{}

/// Under the second version a client of a shared address is served, a stop fails as the node is evacuated, and the mark is cleared.
pub fn a_client_served()
    ensures holds { GroupsHold sticking cleared }
    ensures answers { GroupAnswers sticking cleared }
    ensures whole { GroupsWhole sticking cleared }
{}

/// The trace of the fault is a history too.
#[tactic(auto, unfolding(cl_base::specs::Sets::has, quorum_votes::specs::Sums::sum_to))]
pub fn the_fault_is_a_history()
    ensures history { History staying.cluster faulted }
{}

/// And so is that of the failover.
pub fn the_failover_is_a_history()
    ensures history { History moving.cluster failed_over }
{}

/// And that of the second version.
#[tactic(auto, unfolding(cl_base::specs::Sets::has, quorum_votes::specs::Sums::sum_to))]
pub fn the_client_is_served_in_a_history()
    ensures history { History sticking.cluster cleared }
{}

/// So each of them is one history of its cluster with its groups.
pub fn they_are_histories_with_groups()
    ensures fault { ClusterHistory staying faulted }
    ensures failover { ClusterHistory moving failed_over }
    ensures served { ClusterHistory sticking cleared }
{
    a_fault();
    the_fault_is_a_history();
    a_failover();
    the_failover_is_a_history();
    a_client_served();
    the_client_is_served_in_a_history();
}
