//! Lines on the controller itself.
ghost use Rattle.std.specs.Prelude.{◌≡◌, codes, IfOk};
ghost use Rattle.orc_print.specs.Printed.{recovered_line};

use orc_text::Memory;
use std::alloc::Global;

/// That the controller stopped.
pub fn stopped(alloc: Global) -> Result<Vec<u8>, Memory>
    ensures { IfOk result (λ bytes. bytes.items ≡ codes "stopped\n") }
{
    Ok(String::from_str(alloc, "stopped\n")?.into_bytes())
}

/// That the controller is down.
pub fn down(alloc: Global) -> Result<Vec<u8>, Memory>
    ensures { IfOk result (λ bytes. bytes.items ≡ codes "down\n") }
{
    Ok(String::from_str(alloc, "down\n")?.into_bytes())
}

/// How many calls the history has after a recovery.
pub fn recovered(alloc: Global, entries: u64) -> Result<Vec<u8>, Memory>
    ensures { IfOk result (λ bytes. bytes.items ≡ recovered_line entries) }
{
    let mut out = String::from_str(alloc, "recovered ")?;
    out.push_str(entries.to_string(alloc)?.as_str())?;
    out.push_str("\n")?;
    Ok(out.into_bytes())
}
