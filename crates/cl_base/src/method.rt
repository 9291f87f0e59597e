ghost use Rattle.std.specs.Prelude.{◌≡◌, ◌≤◌};
ghost use Rattle.cl_base.specs.Methods.{place_of};

/// How a method call ended.
#[derive(Clone, Copy, Debug, PartialEq, Eq)]
pub enum Outcome {
    Success,
    Failure,
    /// The method did not end in time. It counts as a failure.
    Timeout,
}

/// A method of a resource type, in the order in which a type's methods are listed.
#[derive(Clone, Copy, Debug, PartialEq, Eq)]
pub enum Method {
    PrenetStart,
    Start,
    MonitorStart,
    MonitorCheck,
    MonitorStop,
    Stop,
    PostnetStop,
    Validate,
    Init,
    Fini,
    Boot,
    Update,
}

impl Method {
    /// The method's place in the order of listing, 1 to 12.
    pub fn place(self) -> u8
        ensures value { result ≡ place_of self }
        ensures low { 1 ≤ result }
        ensures high { result ≤ 12 }
    {
        self as u8 + 1
    }
}
