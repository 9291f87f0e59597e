// What answers tell.
ghost use Rattle.std.specs.Prelude.{◌≡◌, ◌%◌, max};
ghost use Rattle.node_model.specs.Devices.{answer_told, word_in};
ghost use Rattle.node_model.specs.Seats.{node_numbered};

use cl_base::{Epoch, NodeId};
use pgr_device::{Failed, PrAnswer};
use status_report::DeviceAnswer;

/// The node that coordinates the attempt of this epoch.
pub(crate) fn coordinator(epoch: Epoch) -> Option<NodeId>
    ensures { result ≡ node_numbered (epoch % 64) }
{
    NodeId::new(epoch.number() % 64).ok()
}

/// The answer as the trace tells it.
pub(crate) fn told_answer(answer: &Result<PrAnswer, Failed>) -> DeviceAnswer
    ensures { result ≡ answer_told answer.now }
{
    match answer {
        Ok(answer) => DeviceAnswer::Given(*answer),
        Err(_) => DeviceAnswer::Failed,
    }
}

/// The word that the answer tells, or 0.
pub(crate) fn word_in(answer: &Result<PrAnswer, Failed>) -> Epoch
    ensures { result ≡ word_in answer.now }
{
    match answer {
        Ok(PrAnswer::Word(word) | PrAnswer::Miscompare(word)) => Epoch::from_number(*word),
        _ => Epoch::zero(),
    }
}

/// The greater of the two.
pub(crate) fn greatest_of(a: Epoch, b: Epoch) -> Epoch
    ensures { result ≡ max a b }
{
    a.max(b)
}
