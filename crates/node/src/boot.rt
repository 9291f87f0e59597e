// A node boots.
ghost use Rattle.std.specs.Prelude.{◌≡◌, ◌++◌, ◌∷◌, [], None, IfOk, OnOk, IfErr};
ghost use Rattle.status_report.specs.declared.entry.Entry.TheVariants as trace;
ghost use Rattle.status_report.specs.declared.node_entry.NodeEntry.TheVariants as note;
ghost use Rattle.node_model.specs.declared.output.Output.TheVariants.{Tells};
ghost use Rattle.node_model.specs.Clusters.{first_valid_of};
ghost use Rattle.node_model.specs.Plans.{KeepFails};
ghost use Rattle.node_model.specs.Seats.{up_with};

use cl_base::NodeId;
use cmm_member::DownNode;
use config_cache::ConfigCache;
use device_queue::DeviceQueue;
use heartbeats::Heartbeats;
use node_model::{Cluster, Output, Seat, Slot, Stop, UpNode, cause_of, tell_of};
use record_disk::{DiskError, RecordDisk};
use request_queue::RequestQueue;
use rgm_member::Worker;
use status_report::NodeEntry;
use std::alloc::Global;

/// The node comes up with the record on its disk, in no session.
pub fn boot<K: RecordDisk>(
    alloc: Global,
    cluster: &Cluster,
    me: NodeId,
    disk: &mut K,
    out: &mut Vec<Output>,
) -> Result<UpNode, Stop>
    ensures up { IfOk result (λ up. up ≡ up_with me (first_valid_of cluster.now me) (K.kept disk.old)) }
    ensures told { OnOk result (out.new.items ≡ out.old.items ++ Tells (trace.Node me note.Up) ∷ []) }
    ensures mounted { OnOk result ((K.mounting disk.old).lost ≡ None) }
    ensures left { OnOk result (disk.new ≡ (K.mounting disk.old).after) }
    ensures lost { IfErr result (KeepFails (K.mounting disk.old) (out.old.items ++ Tells (trace.Node me note.Up) ∷ []) out.new.items disk.new) }
{
    tell_of(out, me, NodeEntry::Up)?;
    match disk.mount(alloc, DownNode::new(me, cluster.first_valid_of(me))) {
        Ok(node) => {
            let beats = Heartbeats::new(alloc, me)?;
            Ok(UpNode {
                greatest: node.promised(),
                seat: Seat::Forming(node),
                beats,
                tasks: DeviceQueue::new(alloc),
                attempt: Slot::empty(),
                requests: RequestQueue::new(alloc),
                worker: Worker::new(alloc, me),
                second: 0,
                made: ConfigCache::new(),
                presidency: None,
            })
        }
        Err(DiskError::Lost(loss)) => Err(Stop::Down(cause_of(loss))),
        Err(DiskError::NoMemory) => Err(Stop::NoMemory),
    }
}
