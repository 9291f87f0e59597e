use crate::address_entry::AddressEntry;
use crate::attempt_entry::AttemptEntry;
use crate::call_entry::CallEntry;
use crate::command_entry::CommandEntry;
use crate::device_entry::DeviceEntry;
use crate::node_entry::NodeEntry;
use crate::packet_entry::PacketEntry;
use crate::schedule_entry::ScheduleEntry;
use crate::start_entry::StartEntry;
use crate::status_entry::StatusEntry;
use crate::update_entry::UpdateEntry;
use cl_base::NodeId;
use pgr_device::PrAnswer;

/// An entry of a trace: one line of it.
#[derive(Drop)]
pub enum Entry {
    /// The device of a reservation schedule answered a command.
    Answered(PrAnswer),
    /// It lost power and came back.
    Powered,
    /// A node of a cluster tells of itself.
    Node {
        /// The node.
        node: NodeId,
        /// What it tells.
        entry: NodeEntry,
    },
    /// What becomes of a packet.
    Packet(PacketEntry),
    /// A node at a device.
    Device(DeviceEntry),
    /// An attempt on a membership.
    Attempt(AttemptEntry),
    /// The start of a membership.
    Start(StartEntry),
    /// An update of the configuration.
    Update(UpdateEntry),
    /// A call of a resource's method, or a monitor's report.
    Call(CallEntry),
    /// An administrator's command.
    Command(CommandEntry),
    /// A line of a query's answer.
    Status(StatusEntry),
    /// A shared address and its clients.
    Address(AddressEntry),
    /// What no node answers.
    Schedule(ScheduleEntry),
}
