use cl_base::DevId;
use seize::{JoinResult, SeizeResult};

/// What becomes of a request to seize a device.
#[derive(Clone, Copy, PartialEq, Eq)]
pub enum Asked {
    /// The device was seized for an earlier request, which ended so.
    Kept(SeizeResult),
    /// A seizing of the device is queued for an earlier request.
    UnderWay,
    /// A seizing begins: it is put at the end of the queue.
    Begun,
}

/// What a task has come to.
#[derive(Clone, Copy, PartialEq, Eq)]
pub enum Progress {
    /// A further command is due.
    GoesOn,
    /// It was a seizing, and it is over.
    Seized {
        /// The device.
        device: DevId,
        /// How the seizing ended.
        result: SeizeResult,
    },
    /// It was a joining, and it is over.
    Joined {
        /// The device.
        device: DevId,
        /// How the joining ended.
        result: JoinResult,
    },
}
