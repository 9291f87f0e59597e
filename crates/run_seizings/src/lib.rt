//! What the devices that a start holds rest on: lines of the devices, and messages.
//!
//! A node's tasks at its devices are as far as its device lines show (`specs/Seized`); a `Seized` that says held is of a node that has seized the
//! device, and an attempt counts only what was told so, before it is installed (`specs/Sites`). This is kept by each small step of a node, and by each
//! thing that happens, so it holds of each run. Over it stand the laws of `specs/Laws`.
//!
//! Each function here is a law. It has no body, and its contract is proved of every header and everything that happens.
#![tactic(auto)]

ghost use Rattle.run_seizings.specs.Laws.{HeldOfEachRun, KnownHeldOfEachRun};

/// Each device that a start holds was seized for it by a member: it tried to reserve the device, then read keys of members alone, its own among them,
/// and after that, with no reading of keys between, the word of the attempt; all of it while the attempt was its session, and before it installed it.
pub fn held_of_each_run()
    ensures { HeldOfEachRun }
{}

/// The coordinator of a start knows of each device that it is held: it seized it itself, or since its attempt began a `Seized` was delivered to it
/// that says so, which a node sent whose session was the attempt.
pub fn known_held_of_each_run()
    ensures { KnownHeldOfEachRun }
{}
