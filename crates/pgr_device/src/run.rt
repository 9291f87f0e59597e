ghost use Rattle.std.specs.Prelude.{◌≡◌, [], ◌∷◌, IfOk, OnErr, option_to_list};
ghost use Rattle.pgr_device.specs.Runs.{run, run_answers, IsRun, IsRunInPart};

use crate::command::{PrAnswer, PrCommand};
use crate::device::Pgr;
use cl_base::NodeId;
use std::alloc::{AllocError, Global};

/// What happens to a device.
#[derive(Clone, Copy, Debug, PartialEq, Eq)]
pub enum Step {
    /// A node's command comes to it.
    Command { node: NodeId, command: PrCommand },
    /// It loses its power and comes back.
    PowerLoss,
}

impl Pgr {
    /// Takes the steps in turn, and gives the answers to the commands. Where memory is wanting, the
    /// device has taken a beginning of the steps, and the answers are lost.
    #[tactic(auto, using(crate::proofs::RunParts::in_part))]
    pub fn run(&mut self, alloc: Global, steps: &[Step]) -> Result<Vec<PrAnswer>, AllocError>
        requires { IsRun steps.now }
        ensures answers { IfOk result (λ answers. answers.items ≡ run_answers self.old steps.now) }
        ensures after { IfOk result (λ _. self.new ≡ run self.old steps.now) }
        ensures part { OnErr result (IsRunInPart self.old steps.now self.new) }
    {
        let mut answers = Vec::new(alloc);
        for step in steps {
            if let Some(answer) = self.take(*step) {
                answers.push(answer)?;
            }
        }
        Ok(answers)
    }

    /// Takes one step, and gives the answer to a command.
    fn take(&mut self, step: Step) -> Option<PrAnswer>
        requires { IsRun (step ∷ []) }
        ensures answer { option_to_list result ≡ run_answers self.old (step ∷ []) }
        ensures after { self.new ≡ run self.old (step ∷ []) }
    {
        match step {
            Step::Command { node, command } => Some(self.execute(node, command)),
            Step::PowerLoss => {
                self.power_loss();
                None
            }
        }
    }
}
