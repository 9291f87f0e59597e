//! Each step of a node is small steps, and each small step is events of the abstract machine of memberships.
//!
//! `specs/Doings` has the small steps: what each makes of a node with its disk, and what it gives. `specs/Courses` and `specs/Cuts`
//! cut the plan of each input into them; `specs/Guards` says when a node may take each, by its own state and the delivered packet
//! alone; `specs/Ties` says when a node, its disk and what it says are those of the machine.
//!
//! Requests and answers tell the machine nothing, nor do orders, what comes of them, and reports of resources. An update is its events:
//! proposed, prepared by the members, acknowledged, committed. The machine's votes are those under a list of updates; no node keeps or
//! shows a list that is bad.
//!
//! On the way stand two things that hold whatever happens to a node. `node_widths`: numbers and sets keep their widths in what it keeps, saves and
//! sends, so that each message that is sent can be spelled. `node_bounds`: a step of a node sends at most 4,096 messages.
//!
//! Each function here is a law. It has no body, and its contract is proved of every node, every disk, every input, every second of the
//! clock, and however a method ends that a node calls.
#![tactic(auto)]

ghost use Rattle.refinement.specs.Steps.{DisksKeepRules, StepsAreCut};
ghost use Rattle.refinement.specs.Whole.{NodesGo};
ghost use Rattle.refinement.specs.Runs.{CollectsAgree, EveryRunIsOne, InstallsAgree, PreparesAgree};
ghost use Rattle.refinement.specs.Worlds.{WorldRunsAreOne};
ghost use Rattle.refinement.specs.Sends.{RunsSendFew};
ghost use Rattle.refinement.specs.WorldSends.{WorldsSendFew};
ghost use Rattle.refinement.specs.node_widths.Plans.{StepsKeepWidths};
ghost use Rattle.refinement.specs.node_widths.Widths.{SentMessagesFit};
ghost use Rattle.refinement.specs.node_bounds.Laws.{StepsSendFew, StepsStayBounded};

/// The simulated disk keeps what is supposed of a disk: a save that is done leaves the record, one that is lost leaves it or the
/// one before, and a mounting changes no record.
pub fn disks_keep_rules()
    ensures { DisksKeepRules }
{}

/// Each step of a node is small steps, for some replies of its disk to the saves: they lead to the same node, the same record on
/// the disk, and the same outputs in the same order.
pub fn steps_are_cut()
    ensures { StepsAreCut }
{}

/// Where a node with its disk is tied to the machine of memberships, and the delivered packet is true, the node's step is a run of
/// the machine: the node is tied after it, other nodes stay as they are, and each message that it sends is true.
pub fn nodes_go()
    ensures { NodesGo }
{}

/// Every run of all nodes is a run of the machine of memberships: any node takes any input at any time, an administrator's command
/// among them, at any second of the clock, which may go back, and a method that it calls ends anyhow; a save is done or lost, and what
/// was sent comes late, twice or not at all, and to anyone; a device answers anything in 64 bits. Each node with its disk is tied to the machine's, and all that was ever sent is true there. So each law of the machine is
/// one of these runs.
pub fn every_run_is_one()
    ensures { EveryRunIsOne }
{}

/// Each run of the simulated world, from its header on through any lines, is a run of all nodes, and so one of the machine of
/// memberships: its nodes and disks are those of that run, and each packet in flight holds what its sender sent. Its agents are any. The
/// header has at most 32 nodes, at most 16 devices and a cluster below 2^32, and the lines name nodes from number 1 on and seconds below
/// 2^64; nothing else is supposed.
pub fn world_runs_are_one()
    ensures { WorldRunsAreOne }
{}

/// Of all that was ever sent in a run, two Collects of one number name the same members, two Installs of one epoch bring the
/// same members and the same updates, and two Prepares of one place in one membership bring the same update.
pub fn messages_agree()
    ensures collects { CollectsAgree }
    ensures installs { InstallsAgree }
    ensures prepares { PreparesAgree }
{}

/// In every run of all nodes each step of a node sends at most 4,096 messages, whatever came before and whatever happens to it. There
/// are at most 16 devices.
pub fn runs_send_few()
    ensures { RunsSendFew }
{}

/// In every run of the simulated world each step of a node sends at most 4,096 messages, whatever comes to it of a node, at any second,
/// whatever its disk does, and however a method ends that it calls.
pub fn worlds_send_few()
    ensures { WorldsSendFew }
{}

/// Where a node has its widths, its second of the clock too, and what happens to it has its own, each message that it sends goes to a
/// node from number 1 on and has its widths, and each order is for a name; so do the records that it saves, and the node after the
/// step. The cluster has at most 16 devices.
pub fn steps_keep_widths()
    ensures { StepsKeepWidths }
{}

/// A message from a node that has its widths can be spelled, where it is no longer than a packet. A longer one is not sent.
pub fn sent_messages_fit()
    ensures { SentMessagesFit }
{}

/// Whatever happens to a node whose attempt, requests and presidency are bounded, it sends at most 4,096 messages in the step, and it
/// is bounded again after it.
pub fn steps_send_few()
    ensures few { StepsSendFew }
    ensures bounded { StepsStayBounded }
{}
