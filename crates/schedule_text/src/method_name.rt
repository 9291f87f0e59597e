ghost use Rattle.std.specs.Prelude.{◌≡◌, find};
ghost use Rattle.std.specs.Str.{bytes_eq};
ghost use Rattle.schedule_text.specs.MethodNames.{method_in, method_text};

use cl_base::Method;

/// All methods.
const METHODS: [Method; 12] = [
    Method::PrenetStart,
    Method::Start,
    Method::MonitorStart,
    Method::MonitorCheck,
    Method::MonitorStop,
    Method::Stop,
    Method::PostnetStop,
    Method::Validate,
    Method::Init,
    Method::Fini,
    Method::Boot,
    Method::Update,
];

/// The method that the word names, if it names one.
#[tactic(auto, unfolding(crate::specs::MethodNames::method_in))]
pub fn method(word: &[u8]) -> Option<Method>
    ensures { result ≡ method_in word.now }
{
    named_among(&METHODS, word)
}

fn named_among(methods: &[Method], word: &[u8]) -> Option<Method>
    ensures { result ≡ find (λ m. bytes_eq (method_text m) word.now) methods.now }
{
    methods.iter().copied().find(|m| text(*m) == word)
}

fn text(method: Method) -> &'static [u8]
    ensures { result.now ≡ method_text method }
{
    match method {
        Method::PrenetStart => b"PRENET_START",
        Method::Start => b"START",
        Method::MonitorStart => b"MONITOR_START",
        Method::MonitorCheck => b"MONITOR_CHECK",
        Method::MonitorStop => b"MONITOR_STOP",
        Method::Stop => b"STOP",
        Method::PostnetStop => b"POSTNET_STOP",
        Method::Validate => b"VALIDATE",
        Method::Init => b"INIT",
        Method::Fini => b"FINI",
        Method::Boot => b"BOOT",
        Method::Update => b"UPDATE",
    }
}
