use cl_base::DevSet;
use proposals::Proposals;
use rgm_president::President;
use sent_orders::SentOrders;
use shared_address::Balancer;

/// What a node has in hand as the president of its membership.
pub struct Presidency {
    /// The requests of its members, and the update that is proposed.
    pub proposals: Proposals,
    /// The devices that the membership holds.
    pub held: DevSet,
    /// What it knows of groups, and the orders that it has given.
    pub groups: President,
    /// When orders to other members go again.
    pub sent: SentOrders,
    /// Which nodes serve the clients of shared addresses.
    pub balancer: Balancer,
}

impl Drop for Presidency {
    fn drop(self) {
        let Presidency {
            proposals: _,
            held: _,
            groups: _,
            sent: _,
            balancer: _,
        } = self;
    }
}
