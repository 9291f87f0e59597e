// Messages as the trace names them.
ghost use Rattle.std.specs.Prelude.{◌≡◌};
ghost use Rattle.world_model.specs.Sends.{name_of, number_in};

use cl_base::MessageName;
use wire::Body;

/// The message's kind, and the number that follows it.
pub fn name_of(body: &Body) -> MessageName
    ensures { result ≡ name_of body.now }
{
    MessageName {
        kind: body.kind(),
        number: number_in(body),
    }
}

fn number_in(body: &Body) -> Option<u64>
    ensures { result ≡ number_in body.now }
{
    match body {
        Body::SeizeQuorum { device, .. }
        | Body::SeizeData { device, .. }
        | Body::Seized { device, .. } => Some(device.number()),
        Body::Prepare { place, .. } | Body::Prepared { place, .. } | Body::Commit { place, .. } => {
            Some(*place)
        }
        Body::Order(order) => Some(order.number),
        Body::Done { number, .. } | Body::Request { number, .. } | Body::Answer { number, .. } => {
            Some(*number)
        }
        _ => None,
    }
}
