use cl_base::Epoch;

/// What a heartbeat shows of its sender.
#[derive(Clone, Copy)]
pub struct Beat {
    /// Its promise.
    pub promised: Epoch,
    /// Its session; 0 where it has none.
    pub session: Epoch,
    /// Whether it is a member.
    pub member: bool,
}

/// What a node knows of another that it has heard since its boot.
#[derive(Clone, Copy)]
pub struct Peer {
    /// The ticks since a packet from it was delivered; those above 3 are told as 4.
    pub age: u8,
    /// Its last heartbeat, if one was delivered.
    pub beat: Option<Beat>,
}
