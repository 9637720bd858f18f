//! How a reconciliation ended.
ghost use Rattle.std.specs.Prelude.{◌≡◌, length, IfOk, IsTrue, Some};
ghost use Rattle.std.specs.Option.{option_copied};
ghost use Rattle.orc_print.specs.inside.Adding.{Adds};
ghost use Rattle.orc_print.specs.Printed.{is_end_among, mended_line, reconciled_line};

use crate::causes::{push_link_fault, push_refused};
use orc_call::RecFault;
use orc_decls::device_name;
use orc_text::{Memory, Text};
use std::alloc::Global;

/// The line of a reconciliation that ended, and where none did, that the controller is down. Where the
/// disk failed, or the journal had no room, it has no byte. The names are those of all devices, in the
/// order of declaration.
pub fn reconciled(
    alloc: Global,
    ended: Option<&Result<(), RecFault>>,
    names: &[Text],
) -> Result<Vec<u8>, Memory>
    requires { IsTrue (is_end_among (length names.now) (option_copied ended)) }
    ensures { IfOk result (λ bytes. bytes.items ≡ reconciled_line names.now (option_copied ended.entry)) }
{
    let mut out = String::new(alloc);
    match ended {
        None => out.push_str("reconcile down\n")?,
        Some(ended) => push_end(&mut out, alloc, names, ended)?,
    }
    Ok(out.into_bytes())
}

// The line of a reconciliation that ended.
fn push_end(
    out: &mut String,
    alloc: Global,
    names: &[Text],
    ended: &Result<(), RecFault>,
) -> Result<(), Memory>
    requires { IsTrue (is_end_among (length names.now) (Some ended.now)) }
    ensures { Adds result out.old out.new (mended_line names.now ended.now) }
{
    match ended {
        Ok(()) => out.push_str("reconcile ok\n")?,
        Err(RecFault::LinkFault { device, number }) => {
            out.push_str("reconcile ")?;
            push_link_fault(out, alloc, device_name(names, *device), *number)?;
            out.push_str("\n")?;
        }
        Err(RecFault::Refused { device, tag }) => {
            out.push_str("reconcile ")?;
            push_refused(out, device_name(names, *device), *tag)?;
            out.push_str("\n")?;
        }
        Err(RecFault::Memory) => out.push_str("reconcile Memory\n")?,
        Err(RecFault::DiskFault) => {}
        Err(RecFault::Full { .. }) => {}
    }
    Ok(())
}
