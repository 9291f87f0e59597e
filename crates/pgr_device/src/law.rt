//! What follows from the rules. Each law is a function that does nothing: its clauses are the law,
//! proved of every state that a device comes to by commands and losses of power, where it begins
//! without a key or with those of nodes of its cluster, or of every state at all.
ghost use Rattle.std.specs.Prelude.{◌≡◌, ◌↔◌, ℕ, true, false, List, ◌∷◌, ◌++◌, Some};
ghost use Rattle.cl_base.specs.Sets.{has};
ghost use Rattle.pgr_device.specs.Device.{Device, fresh, with_keys};
ghost use Rattle.pgr_device.specs.Statements.{RegisteredOnce, RegisteredWithPath, NoZeroKey, HolderIsRegistered};
ghost use Rattle.pgr_device.specs.Registered.{is_registered};
ghost use Rattle.pgr_device.specs.Runs.{run, run_answers};
ghost use Rattle.pgr_device.specs.Spc.{step};
ghost use Rattle.pgr_device.specs.declared.command.PrAnswer.TheVariants as answer;
ghost use Rattle.pgr_device.specs.declared.command.PrCommand.TheVariants as command;
ghost use Rattle.pgr_device.specs.declared.kind.PrKind.TheVariants.{WriteExclusiveRegistrantsOnly};
ghost use Rattle.pgr_device.specs.declared.run.Step.{Step};
ghost use Rattle.pgr_device.specs.declared.run.Step.TheVariants.{PowerLoss};

/// A node is registered once at most, and only where it has a path.
pub fn registered_once()
    ensures once { RegisteredOnce fresh }
    ensures once_with_keys { (nodes cluster : ℕ) → RegisteredOnce (λ paths. with_keys paths nodes cluster) }
    ensures path { RegisteredWithPath fresh }
    ensures path_with_keys { (nodes cluster : ℕ) → RegisteredWithPath (λ paths. with_keys paths nodes cluster) }
{}

/// The key zero is never registered.
pub fn no_zero_key()
    ensures without_keys { NoZeroKey fresh }
    ensures with_keys { (nodes cluster : ℕ) → NoZeroKey (λ paths. with_keys paths nodes cluster) }
{}

/// The holder of a reservation is registered.
pub fn holder_is_registered()
    ensures without_keys { HolderIsRegistered fresh }
    ensures with_keys { (nodes cluster : ℕ) → HolderIsRegistered (λ paths. with_keys paths nodes cluster) }
{}

/// Under a reservation of type 5h a device takes a write exactly from the registered nodes, and
/// refuses the others with a conflict.
pub fn registrants_write()
    ensures taken { (d : Device) (holder node value : ℕ) → d.reservation ≡ Some (record { holder = holder; kind = WriteExclusiveRegistrantsOnly }) → has d.paths node ≡ true → ((step d node (command.Write value)).answer ≡ answer.Good) ↔ (is_registered d.registrations node ≡ true) }
    ensures refused { (d : Device) (holder node value : ℕ) → d.reservation ≡ Some (record { holder = holder; kind = WriteExclusiveRegistrantsOnly }) → has d.paths node ≡ true → is_registered d.registrations node ≡ false → (step d node (command.Write value)).answer ≡ answer.Conflict }
{}

/// A loss of power changes nothing, wherever it comes.
pub fn power_loss_changes_nothing()
    ensures after { (d : Device) (steps later : List Step) → run d (steps ++ PowerLoss ∷ later) ≡ run d (steps ++ later) }
    ensures answers { (d : Device) (steps later : List Step) → run_answers d (steps ++ PowerLoss ∷ later) ≡ run_answers d (steps ++ later) }
{}
