ghost use Rattle.std.specs.Prelude.{◌≡◌, IfOk};
ghost use Rattle.status_report.specs.NodeLines.{node_text, down_text, panic_text};

use crate::node_entry::{DownCause, NodeEntry};
use crate::words::{named, plain, with_bytes};
use cl_base::{NodeId, Panic};
use std::alloc::{AllocError, Global};

#[tactic(auto, using(crate::proofs::Joins::joined_once))]
/// What a node tells of itself.
pub fn node_line(alloc: Global, node: NodeId, entry: NodeEntry) -> Result<Vec<u8>, AllocError>
    ensures { IfOk result (λ line. line.items ≡ node_text node entry) }
{
    let n = node.number();
    match entry {
        NodeEntry::Up => Ok(format!(in alloc; "up {n}")?.into_bytes()),
        NodeEntry::Down(cause) => {
            let cause = down_text(alloc, cause)?;
            with_bytes(format!(in alloc; "down {n} ")?, cause.as_slice())
        }
        NodeEntry::Ticked => Ok(format!(in alloc; "ticked {n}")?.into_bytes()),
        NodeEntry::Saved => Ok(format!(in alloc; "saved {n}")?.into_bytes()),
        NodeEntry::Installed(epoch) => {
            let epoch = epoch.number();
            Ok(format!(in alloc; "installed {n} {epoch}")?.into_bytes())
        }
        NodeEntry::Member(epoch) => {
            let epoch = epoch.number();
            Ok(format!(in alloc; "member {n} {epoch}")?.into_bytes())
        }
    }
}

fn down_text(alloc: Global, cause: DownCause) -> Result<Vec<u8>, AllocError>
    ensures { IfOk result (λ text. text.items ≡ down_text cause) }
{
    match cause {
        DownCause::Crash => plain(alloc, "crash"),
        DownCause::Stopped => plain(alloc, "stopped"),
        DownCause::Panic(panic) => panic_text(alloc, panic),
    }
}

fn panic_text(alloc: Global, panic: Panic) -> Result<Vec<u8>, AllocError>
    ensures { IfOk result (λ text. text.items ≡ panic_text panic) }
{
    match panic {
        Panic::Fenced(device) => {
            let device = device.number();
            Ok(format!(in alloc; "panic fenced {device}")?.into_bytes())
        }
        Panic::Excluded(epoch) => {
            let epoch = epoch.number();
            Ok(format!(in alloc; "panic excluded {epoch}")?.into_bytes())
        }
        Panic::Disk => plain(alloc, "panic disk"),
        Panic::Stop(resource) => named(alloc, "panic stop ", &resource),
    }
}
