use restart_policy::ProbeAction;

/// What came of a probe.
#[derive(Clone, Copy, Debug, PartialEq, Eq)]
pub enum Probed {
    /// The resource has no running monitor.
    NoMonitor,
    /// The resource does well.
    Good,
    /// The probe failed, and leads to this.
    Failed(ProbeAction),
}
