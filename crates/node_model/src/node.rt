use crate::presidency::Presidency;
use crate::seat::Seat;
use crate::slot::Slot;
use cl_base::Epoch;
use cmm_attempt::Attempt;
use config_cache::ConfigCache;
use device_queue::DeviceQueue;
use heartbeats::Heartbeats;
use request_queue::RequestQueue;
use rgm_member::Worker;

/// What a node keeps in memory while it is up.
#[derive(Drop)]
pub struct UpNode {
    /// Its state in its session, with its record.
    pub seat: Seat,
    /// The greatest epoch that it has seen.
    pub greatest: Epoch,
    /// What it knows of the other nodes' heartbeats.
    pub beats: Heartbeats,
    /// Its tasks at devices.
    pub tasks: DeviceQueue,
    /// The attempt that it coordinates, if one is under way.
    pub attempt: Slot<Attempt>,
    /// Its requests that wait for the president's answers.
    pub requests: RequestQueue,
    /// What it keeps of groups and resources.
    pub worker: Worker,
    /// The second of the clock at its last step.
    pub second: u64,
    /// The configuration that its record makes, so that it is not made anew each time.
    pub made: ConfigCache,
    /// What it has in hand as the president of its membership, if it is that.
    pub presidency: Option<Presidency>,
}

/// A node of the cluster. Of one that is down nothing is left but its record, which is on its disk.
#[derive(Drop)]
pub enum Node {
    /// It is down.
    Down,
    /// It is up.
    Up(UpNode),
}
