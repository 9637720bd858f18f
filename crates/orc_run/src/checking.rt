//! Checking a bundle.
ghost use Rattle.std.specs.Prelude.{◌≡◌, IfOk, IsErrOf};
ghost use Rattle.orc_io.specs.Counts.{Rose};
ghost use Rattle.orc_run.specs.Checks.{EndsCheck, checked_line};
ghost use Rattle.orc_run.specs.declared.stop.Stop.{Stop};

use crate::{Done, Stop};
use orc_decls::Decls;
use orc_io::{Sink, write_whole};
use orc_script::ScriptStep;
use orc_text::Memory;
use std::alloc::Global;

/// Writes how many devices and steps a bundle has.
pub(crate) fn check_bundle<K: Sink>(
    alloc: Global,
    decls: &Decls,
    steps: &[ScriptStep],
    sink: &mut K,
) -> Result<Done, Stop>
    ensures ends { EndsCheck (record { decls = decls.now; steps = steps.now })
        (K.sink.held sink.old) (K.sink.held sink.new) result }
    ensures write { IsErrOf result Stop.WriteFault → Rose (K.sink.faults sink.old) (K.sink.faults sink.new) }
{
    let line = match checked_line(alloc, decls, steps) {
        Ok(line) => line,
        Err(Memory) => return Err(Stop::Memory),
    };
    match write_whole(sink, line.as_slice()) {
        Ok(()) => Ok(Done),
        Err(_) => Err(Stop::WriteFault),
    }
}

// How many devices and steps the bundle has.
fn checked_line(alloc: Global, decls: &Decls, steps: &[ScriptStep]) -> Result<Vec<u8>, Memory>
    ensures { IfOk result (λ bytes. bytes.items
        ≡ checked_line (record { decls = decls.now; steps = steps.now })) }
{
    let mut out = String::from_str(alloc, "ok ")?;
    out.push_str(decls.devices().len().to_string(alloc)?.as_str())?;
    out.push_str(" ")?;
    out.push_str(steps.len().to_string(alloc)?.as_str())?;
    out.push_str("\n")?;
    Ok(out.into_bytes())
}
