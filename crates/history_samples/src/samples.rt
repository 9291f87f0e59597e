//! Whole traces that meet the definitions: so they can be met.
ghost use Rattle.history.specs.History.{History};
ghost use Rattle.history.specs.DeviceRun.{DeviceRun};
ghost use Rattle.history.specs.Starts.{StartLines};
ghost use Rattle.history.specs.Deeds.{deeds, OfEach};
ghost use Rattle.history.specs.Lineage.{Lineage};
ghost use Rattle.history.specs.Placed.{Placed};
ghost use Rattle.history.specs.Kept.{Kept};
ghost use Rattle.history.specs.DiskRule.{DiskRule};
ghost use Rattle.history.specs.Contact as contact;
ghost use Rattle.history.specs.Requests as requests;
ghost use Rattle.history_samples.specs.SampleOneNode.{alone, writing};
ghost use Rattle.history_samples.specs.SampleSplit.{two_nodes, pair, split};
ghost use Rattle.history_samples.specs.SampleAmnesia.{amnesia};
ghost use Rattle.history_samples.specs.SampleRequests.{all_answered};
ghost use Rattle.history_samples.specs.SampleContents.{bare, formed};
ghost use Rattle.history_samples.specs.SampleSilence.{alone_and_silent};

/// A node alone seizes its device, forms a membership and writes: this trace is a history.
#[tactic(auto, unfolding(cl_base::specs::Sets::has, quorum_votes::specs::Sums::sum_to))]
pub fn one_node_and_its_disk()
    ensures history { History alone writing }
{}

/// A node alone does nothing for its device, and its attempt ends at the eighth tick: this trace is a history.
#[tactic(auto, unfolding(cl_base::specs::Sets::has, quorum_votes::specs::Sums::sum_to))]
pub fn one_node_waits_for_itself()
    ensures history { History alone alone_and_silent }
{}

/// A cluster is split; the node that the new membership leaves out is fenced, and cannot form one by itself.
#[tactic(auto, unfolding(cl_base::specs::Sets::has, quorum_votes::specs::Sums::sum_to))]
pub fn a_split()
    ensures devices { DeviceRun two_nodes split }
    ensures start_lines { StartLines split }
    ensures lineage { OfEach Lineage (deeds split) }
    ensures kept { Kept (deeds split) }
    ensures disk_rule { DiskRule two_nodes split }
    ensures held { contact.Held two_nodes split }
    ensures votes { contact.HasVotes pair split }
{}

/// A node that has lost touch comes back, and does not form a membership without the update that it missed.
pub fn amnesia()
    ensures start_lines { StartLines amnesia }
    ensures lineage { OfEach Lineage (deeds amnesia) }
    ensures kept { Kept (deeds amnesia) }
    ensures placed { Placed (deeds amnesia) }
    ensures asked { requests.Asked pair amnesia }
    ensures answered { requests.AnsweredAfterAck pair amnesia }
{}

/// A member's request has the words of a command that the president itself has, and is taken up before it.
pub fn two_ask_for_the_same()
    ensures placed { Placed (deeds all_answered) }
    ensures asked { requests.Asked pair all_answered }
    ensures answered { requests.AnsweredAfterAck pair all_answered }
{}

/// Two nodes form a membership by messages, whose bytes are all there: this trace is a history.
pub fn two_nodes_form()
    ensures history { History bare formed }
{}
