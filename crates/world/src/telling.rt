// The trace.
ghost use Rattle.std.specs.Prelude.{◌≡◌, ◌++◌, OnOk};
ghost use Rattle.status_report.specs.Lines.{printed};

use status_report::{Entry, print};
use std::alloc::{AllocError, Global};

/// An entry of the trace is written.
pub fn tell(alloc: Global, out: &mut Vec<u8>, entry: Entry) -> Result<(), AllocError>
    ensures { OnOk result (out.new.items ≡ out.old.items ++ printed entry) }
{
    let text = print(alloc, &entry)?;
    out.extend_from_slice(&text)?;
    Ok(())
}
