ghost use Rattle.std.specs.Prelude.{◌≡◌, MatchResult};
ghost use Rattle.cl_base.specs.Methods.{has_method};
ghost use Rattle.rt_types.specs.Types.{IsComplete, IsTypeError};

use cl_base::{Method, MethodSet, Name};
use std::marker::Model;
use thiserror::Error;

/// Why these methods make no resource type.
#[derive(Clone, Copy, Debug, PartialEq, Eq, Error)]
pub enum TypeError {
    /// START is missing.
    #[error("no START")]
    NoStart,
    /// STOP is missing.
    #[error("no STOP")]
    NoStop,
    /// One of MONITOR_START and MONITOR_STOP is there without the other.
    #[error("MONITOR_START and MONITOR_STOP go together")]
    MonitorPair,
}

/// A resource type. It has START and STOP, and MONITOR_START exactly with MONITOR_STOP.
#[derive(Clone, Copy, Debug, PartialEq, Eq)]
pub struct ResourceType {
    agent: Name,
    methods: MethodSet,
    single: bool,
    failover: bool,
}

impl Model for ResourceType {
    ghost use Rattle.rt_types.specs.Fields.{TypeFields};

    ghost Value = { TypeFields };

    ghost use Rattle.rt_types.specs.Types.{IsComplete};

    ghost view = { λ t. record { agent = t.agent; methods = t.methods; single = t.single; failover = t.failover } };

    ghost invariant = { λ t. IsComplete t.methods };

    ghost inverse = { λ v. record { agent = v.agent; methods = v.methods; single = v.single; failover = v.failover } };
}

impl ResourceType {
    /// A type whose methods the agent carries out. `single` says that the cluster allows one resource
    /// of it alone, and `failover` that a group with one may be online on one node at most; here both
    /// are kept, and nothing more: the commands keep to them. The error names the first that fits:
    /// START missing, STOP missing, one of MONITOR_START and MONITOR_STOP without the other.
    pub fn new(
        agent: Name,
        methods: MethodSet,
        single: bool,
        failover: bool,
    ) -> Result<ResourceType, TypeError>
        ensures answer { MatchResult result (λ t. (t ≡ record { agent = agent; methods = methods; single = single; failover = failover }) × IsComplete methods) (λ e. IsTypeError methods e) }
    {
        if !methods.has(Method::Start) {
            return Err(TypeError::NoStart);
        }
        if !methods.has(Method::Stop) {
            return Err(TypeError::NoStop);
        }
        if methods.has(Method::MonitorStart) != methods.has(Method::MonitorStop) {
            return Err(TypeError::MonitorPair);
        }
        Ok(ResourceType {
            agent,
            methods,
            single,
            failover,
        })
    }

    /// The name of the agent that carries out its methods.
    pub fn agent(&self) -> Name
        ensures value { result ≡ self.now.agent }
    {
        self.agent
    }

    /// Whether the type has the method.
    pub fn has(&self, m: Method) -> bool
        ensures value { result ≡ has_method self.now.methods m }
        ensures form { IsComplete self.now.methods }
    {
        self.methods.has(m)
    }

    /// Whether the cluster allows one resource of it alone.
    pub fn single(&self) -> bool
        ensures value { result ≡ self.now.single }
    {
        self.single
    }

    /// Whether a group with a resource of it may be online on one node at most.
    pub fn failover(&self) -> bool
        ensures value { result ≡ self.now.failover }
    {
        self.failover
    }
}
