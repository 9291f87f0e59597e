// Methods in the order of listing.
ghost use Rattle.std.specs.Prelude.{◌≡◌, ◌++◌, IfOk, OnOk};
ghost use Rattle.std.specs.List.{filter};
ghost use Rattle.cl_base.specs.Methods.{has_method};
ghost use Rattle.update_words.specs.Joined.{joined};
ghost use Rattle.update_words.specs.Methods.{method_text, methods_text};

use cl_base::{Method, MethodSet};
use std::alloc::{AllocError, Global};

/// All methods in the order of listing.
pub const METHODS: [Method; 12] = [
    Method::PrenetStart,
    Method::Start,
    Method::MonitorStart,
    Method::MonitorCheck,
    Method::MonitorStop,
    Method::Stop,
    Method::PostnetStop,
    Method::Validate,
    Method::Init,
    Method::Fini,
    Method::Boot,
    Method::Update,
];

/// The method's word.
pub fn method_word(method: Method) -> &'static [u8]
    ensures value { result.now ≡ method_text method }
{
    match method {
        Method::PrenetStart => b"PRENET_START",
        Method::Start => b"START",
        Method::MonitorStart => b"MONITOR_START",
        Method::MonitorCheck => b"MONITOR_CHECK",
        Method::MonitorStop => b"MONITOR_STOP",
        Method::Stop => b"STOP",
        Method::PostnetStop => b"POSTNET_STOP",
        Method::Validate => b"VALIDATE",
        Method::Init => b"INIT",
        Method::Fini => b"FINI",
        Method::Boot => b"BOOT",
        Method::Update => b"UPDATE",
    }
}

#[tactic(auto, unfolding(crate::specs::Methods::listed))]
/// The methods of the set, by commas, behind the text.
pub fn push_methods(alloc: Global, text: &mut Vec<u8>, methods: MethodSet) -> Result<(), AllocError>
    ensures { OnOk result (text.new.items ≡ text.old.items ++ methods_text methods) }
{
    let methods = having(alloc, methods, &METHODS)?;
    push_list(text, &methods)
}

/// Those of the methods that the set has.
fn having(alloc: Global, methods: MethodSet, among: &[Method]) -> Result<Vec<Method>, AllocError>
    ensures { IfOk result (λ found. found.items ≡ filter (has_method methods) among.now) }
{
    let mut found = Vec::new(alloc);
    for method in among {
        if methods.has(*method) {
            found.push(*method)?;
        }
    }
    Ok(found)
}

fn push_list(text: &mut Vec<u8>, methods: &[Method]) -> Result<(), AllocError>
    ensures { OnOk result (text.new.items ≡ text.old.items ++ joined 44 method_text methods.now) }
{
    let [first, rest @ ..] = methods else {
        return Ok(());
    };
    text.extend_from_slice(method_word(*first))?;
    for method in rest {
        text.push(b',')?;
        text.extend_from_slice(method_word(*method))?;
    }
    Ok(())
}
