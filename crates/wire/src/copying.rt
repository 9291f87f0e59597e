ghost use Rattle.std.specs.Prelude.{◌≡◌, IfOk, Some, None, if◌then◌else◌};
ghost use Rattle.wire.specs.Kinds.{is_promise, is_ready};

use crate::lists::{Keys, Reading, Readings, Texts};
use crate::message::{Body, Install, Message};
use crate::report::{GroupReport, GroupReports, Report, ResourceReport, ResourceReports};
use cl_base::Bytes;
use std::alloc::{AllocError, Global};

fn copy_text(alloc: Global, text: &Bytes) -> Result<Bytes, AllocError>
    ensures copy { IfOk result (λ copy. copy ≡ text.now) }
{
    Ok(Bytes::new(text.items().to_vec(alloc)?))
}

/// The same texts again.
pub fn copy_texts(alloc: Global, texts: &Texts) -> Result<Texts, AllocError>
    ensures copy { IfOk result (λ copy. copy ≡ texts.now) }
{
    let mut copies = Vec::new(alloc);
    let listed = texts.items();
    for text in listed {
        copies.push(copy_text(alloc, text)?)?;
    }
    Ok(Texts::new(copies))
}

/// The same text again, if there is one.
pub fn copy_pending(alloc: Global, pending: &Option<Bytes>) -> Result<Option<Bytes>, AllocError>
    ensures copy { IfOk result (λ copy. copy ≡ pending.now) }
{
    match pending {
        Some(text) => Ok(Some(copy_text(alloc, text)?)),
        None => Ok(None),
    }
}

fn copy_reading(alloc: Global, reading: &Reading) -> Result<Reading, AllocError>
    ensures copy { IfOk result (λ copy. copy ≡ reading.now) }
{
    Ok(Reading {
        device: reading.device,
        seizer: reading.seizer,
        keys: Keys::new(reading.keys.items().to_vec(alloc)?),
    })
}

fn copy_readings(alloc: Global, readings: &Readings) -> Result<Readings, AllocError>
    ensures copy { IfOk result (λ copy. copy ≡ readings.now) }
{
    let mut copies = Vec::new(alloc);
    let listed = readings.items();
    for reading in listed {
        copies.push(copy_reading(alloc, reading)?)?;
    }
    Ok(Readings::new(copies))
}

/// The same Install again.
pub fn copy_install(alloc: Global, i: &Install) -> Result<Install, AllocError>
    ensures copy { IfOk result (λ copy. copy ≡ i.now) }
{
    Ok(Install {
        epoch: i.epoch,
        members: i.members,
        committed: copy_texts(alloc, &i.committed)?,
        pending: copy_pending(alloc, &i.pending)?,
        readings: copy_readings(alloc, &i.readings)?,
    })
}

fn copy_resource(alloc: Global, r: &ResourceReport) -> Result<ResourceReport, AllocError>
    ensures copy { IfOk result (λ copy. copy ≡ r.now) }
{
    Ok(ResourceReport {
        resource: copy_text(alloc, &r.resource)?,
        marks: r.marks,
    })
}

fn copy_resources(alloc: Global, list: &ResourceReports) -> Result<ResourceReports, AllocError>
    ensures copy { IfOk result (λ copy. copy ≡ list.now) }
{
    let mut copies = Vec::new(alloc);
    let listed = list.items();
    for r in listed {
        copies.push(copy_resource(alloc, r)?)?;
    }
    Ok(ResourceReports::new(copies))
}

fn copy_group(alloc: Global, g: &GroupReport) -> Result<GroupReport, AllocError>
    ensures copy { IfOk result (λ copy. copy ≡ g.now) }
{
    Ok(GroupReport {
        group: copy_text(alloc, &g.group)?,
        failures: g.failures,
        moved: g.moved,
    })
}

fn copy_groups(alloc: Global, list: &GroupReports) -> Result<GroupReports, AllocError>
    ensures copy { IfOk result (λ copy. copy ≡ list.now) }
{
    let mut copies = Vec::new(alloc);
    let listed = list.items();
    for g in listed {
        copies.push(copy_group(alloc, g)?)?;
    }
    Ok(GroupReports::new(copies))
}

fn copy_report(alloc: Global, report: &Report) -> Result<Report, AllocError>
    ensures copy { IfOk result (λ copy. copy ≡ report.now) }
{
    Ok(Report {
        resources: copy_resources(alloc, &report.resources)?,
        groups: copy_groups(alloc, &report.groups)?,
    })
}

/// The same message again, where it is a Promise.
pub fn copy_promise(alloc: Global, m: &Message) -> Result<Option<Message>, AllocError>
    ensures copy { IfOk result (λ copy. copy ≡ (if is_promise m.now.body then Some m.now else None)) }
{
    match &m.body {
        Body::Promise {
            epoch,
            installed,
            members,
            valid,
            flagged,
            committed,
            pending,
        } => {
            let body = Body::Promise {
                epoch: *epoch,
                installed: *installed,
                members: *members,
                valid: *valid,
                flagged: *flagged,
                committed: copy_texts(alloc, committed)?,
                pending: copy_pending(alloc, pending)?,
            };
            let sender = m.sender;
            Ok(Some(Message { sender, body }))
        }
        _ => Ok(None),
    }
}

/// The same message again, where it is a Ready.
pub fn copy_ready(alloc: Global, m: &Message) -> Result<Option<Message>, AllocError>
    ensures copy { IfOk result (λ copy. copy ≡ (if is_ready m.now.body then Some m.now else None)) }
{
    match &m.body {
        Body::Ready {
            epoch,
            joined,
            report,
        } => {
            let body = Body::Ready {
                epoch: *epoch,
                joined: *joined,
                report: copy_report(alloc, report)?,
            };
            let sender = m.sender;
            Ok(Some(Message { sender, body }))
        }
        _ => Ok(None),
    }
}
