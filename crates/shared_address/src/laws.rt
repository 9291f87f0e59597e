ghost use Rattle.shared_address.specs.Laws.{ClientsStick, FewAreKept, PortsStick, WeightsAreExact};

/// Among requests in succession that show the same targets, so many of which took a turn as the sum
/// of the weights, each node was chosen by turns exactly as often as its weight.
pub fn weights_are_exact()
    ensures { WeightsAreExact }
{}

/// A client keeps its node while that is a target and the client is not forgotten: under
/// `StickyPort` at each of its ports, under `Sticky` at all of them.
pub fn requests_stick()
    ensures ports { PortsStick }
    ensures clients { ClientsStick }
{}

/// An address never keeps more than 1,024 entries.
pub fn few_are_kept()
    ensures { FewAreKept }
{}
