//! What nodes do at shared devices, as the lines tell it, in each run of the simulated world.
//!
//! - `readings`: the keys that were read on seized devices are, in tasks, attempts and messages, those that device lines tell. A node's tasks are
//!   exactly as far as its device lines show; `run_seizings` has only that a device was seized, not with which keys, nor that no other was.
//! - `valid`: one node seizes a device for a membership. Who has seized it by the lines is engaged there in the abstract machine of the device, and no
//!   other is asked any more.
//! - `installs`: an Install tells each seizing that the device lines show, and no other. An attempt has of each device how its seizing ended: a device
//!   whose seizing ended otherwise than held was seized by nobody.
//! - `validity`: which devices the record of a node holds valid. How far a joining is stands in its lines.
//! - `queues`: the device queue of a node. Two things are left open: the joinings of an install of a node to which a seized device is attached of which a
//!   stop left open whether it is valid, and the seizings of a coordinator itself.
//!
//! What is kept by each small step of a node, and by each thing that happens, stands in the other files of each part's `specs`.
//!
//! Each function here is a law. It has no body, and its contract is proved of every header and everything that happens.
#![tactic(auto)]

ghost use Rattle.run_devices.specs.readings.Laws.{AttemptsHoldWhatWasRead, InstallsAsRead, ReadingsAreOfSeizers, SeizedsSayWhatWasRead, TasksThatSeizedAreTold, WhatWasReadStays};
ghost use Rattle.run_devices.specs.valid.Laws.{InstallsTellSeizings, OneSeizerInEachRun, SeizersAreAsked, SeizersAreToldInEachRun};
ghost use Rattle.run_devices.specs.installs.Laws.{InstallsTellAllSeizings};
ghost use Rattle.run_devices.specs.validity.Laws.{PromisesShowValidity, ValidityOfEachRun};
ghost use Rattle.run_devices.specs.queues.Told.{ToldAsInHistory};
ghost use Rattle.run_devices.specs.queues.Laws.{DiskLinesOfEachRun, QueuesOfEachRun, WorkOfEachRun};

/// The keys that a node read last as it seized a device for an attempt are told once and for all: no later line takes them back, or puts others in their
/// place.
pub fn what_was_read_stays()
    ensures { WhatWasReadStays }
{}

/// In a session that it has not installed, a node that is up has seized, by its device lines, those devices whose seizings ended held, with the keys that
/// these have, and no others: not by a seizing that is under way, that ended otherwise, or that has not begun.
pub fn tasks_that_seized_are_told()
    ensures { TasksThatSeizedAreTold }
{}

/// A `Seized` that says held has the keys that its sender read, by its device lines, as it seized the device for this attempt; or it is sent again once
/// the attempt's coordinator has installed, which asks nothing of it any more.
pub fn seizeds_say_what_was_read()
    ensures { SeizedsSayWhatWasRead }
{}

/// Of each device that an attempt holds it has the keys that the seizer read there, by its device lines, as it seized it for this attempt. So what its
/// coordinator installs, and what it starts with, rests on what was read.
pub fn attempts_hold_what_was_read()
    ensures { AttemptsHoldWhatWasRead }
{}

/// Each reading that an Install brings, as its bytes tell, has the keys that the member which it names read last, by its device lines, as it seized the
/// device for this attempt.
pub fn readings_are_of_seizers()
    ensures { ReadingsAreOfSeizers }
{}

/// Of each device an install makes what the lines say that it makes of the seizing which its readings tell: the seizer's own is valid, that of another
/// member stays what it was where the seizer saw the member's key, and lapses where it did not; of a device that was not read nothing changes.
pub fn installs_as_read()
    ensures { InstallsAsRead }
{}

/// No two nodes seized a device for the same membership, by their device lines.
pub fn one_seizer_in_each_run()
    ensures { OneSeizerInEachRun }
{}

/// Whoever seized a device for a membership, by its device lines, is the seizer that the history has of it, with the keys that it read last.
pub fn seizers_are_told_in_each_run()
    ensures { SeizersAreToldInEachRun }
{}

/// The seizing that an Install tells of a device, by its bytes, is the one that the history has of that device where the Install is sent.
pub fn installs_tell_seizings()
    ensures { InstallsTellSeizings }
{}

/// Before an attempt installs, whoever seized a device for it, by its device lines, is the node that the attempt asked last there, and has not answered
/// that it is not registered; so of a device that it has not asked for, nobody did.
pub fn seizers_are_asked()
    ensures { SeizersAreAsked }
{}

/// Of each device an Install tells the seizing that the history has of it where the Install is sent; of a device that was seized for it by nobody, none.
pub fn installs_tell_all_seizings()
    ensures { InstallsTellAllSeizings }
{}

/// The record of a node has a device among its valid ones where `history` says so, and has it not where `history` says that it lapsed: on its disk, and
/// in memory while it is up; but for the moment between the save before an `ignore` and that command. So of a device that a member seized for an
/// install: the seizer's own is valid, that of another member stays what it was where the seizer saw its key, and lapses where it did not.
pub fn validity_of_each_run()
    ensures { ValidityOfEachRun }
{}

/// A Promise shows a device as valid where `history` says so of its sender, and not where `history` says that it lapsed.
pub fn promises_show_validity_in_each_run()
    ensures { PromisesShowValidity }
{}

/// Where the tasks are told, they are what `history` says.
pub fn told_as_in_history()
    ensures { ToldAsInHistory }
{}

/// Where the tasks of a node that is up are told, it has them: those that are not over, on their devices and as far, in order; and until it has
/// installed its session all of them.
pub fn queues_of_each_run()
    ensures { QueuesOfEachRun }
{}

/// A `disk` line, and a part of a round, at a node that is up whose tasks are told does the command that is due, and is skipped for want of work exactly
/// where none is; or the node goes down in the save before it.
pub fn disk_lines_of_each_run()
    ensures { DiskLinesOfEachRun }
{}

/// Where the tasks of a node that is up are told, they show whether it has a command due.
pub fn work_of_each_run()
    ensures { WorkOfEachRun }
{}
