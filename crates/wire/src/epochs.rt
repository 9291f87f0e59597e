ghost use Rattle.std.specs.Prelude.{◌≡◌, max};
ghost use Rattle.wire.specs.Epochs.{epochs_shown, words_told, greatest};

use crate::message::{Body, SeizedResult};
use cl_base::Epoch;

/// The greater of the two.
fn greater(first: Epoch, second: Epoch) -> Epoch
    ensures value { result ≡ max first second }
{
    Epoch::from_number(first.number().max(second.number()))
}

/// The word that the seizing ended by, or 0.
fn word_told(outcome: &SeizedResult) -> Epoch
    ensures value { result ≡ greatest (words_told outcome.now) }
{
    match outcome {
        SeizedResult::Greater(word) => Epoch::from_number(*word),
        _ => Epoch::zero(),
    }
}

impl Body {
    /// The greatest epoch that the message shows: of those that it names, and of the epoch word that a
    /// `Seized` tells.
    pub fn greatest_shown(&self) -> Epoch
        ensures value { result ≡ greatest (epochs_shown self.now) }
    {
        match self {
            Body::Heartbeat {
                promised,
                session,
                ..
            } => greater(*promised, *session),
            Body::Promise {
                epoch,
                installed,
                ..
            } => greater(*epoch, *installed),
            Body::Nack { epoch, promised } => greater(*epoch, *promised),
            Body::Seized { epoch, outcome, .. } => greater(*epoch, word_told(outcome)),
            Body::Excluded { epoch, newest } => greater(*epoch, *newest),
            Body::Install(install) => install.epoch,
            Body::Order(order) => order.epoch,
            Body::Collect { epoch, .. }
            | Body::SeizeQuorum { epoch, .. }
            | Body::SeizeData { epoch, .. }
            | Body::Ready { epoch, .. }
            | Body::Start { epoch }
            | Body::Prepare { epoch, .. }
            | Body::Prepared { epoch, .. }
            | Body::Commit { epoch, .. }
            | Body::Done { epoch, .. }
            | Body::Request { epoch, .. }
            | Body::Answer { epoch, .. } => *epoch,
        }
    }
}
