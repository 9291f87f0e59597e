ghost use Rattle.update_log.specs.Laws.{NoUpdates, OneMore, PendingIsNext};

/// Laws of lists of updates. Without an update the votes are those of the header; one more update
/// changes the configuration of those before it; and the votes with the pending update are those
/// under the same updates where it is committed, too.
pub fn logs_go_on()
    ensures none { NoUpdates }
    ensures more { OneMore }
    ensures pending { PendingIsNext }
{}
