//! The bytes of an entry.
ghost use Rattle.std.specs.Prelude.{◌≡◌, ◌++◌, ◌<◌, IfOk, OnOk};
ghost use Rattle.std.specs.Int.{w64, to_be_bytes};
ghost use Rattle.orc_call.specs.Encoding.{IsCall, call_bytes};
ghost use Rattle.orc_journal.specs.Entries.{IsEntry, AreDevices, devices_bytes, payload};

use crate::Entry;
use orc_call::{Call, encode};
use orc_text::Memory;
use std::alloc::Global;

// How many devices, and the number of each.
fn push_devices(out: &mut Vec<u8>, devices: &[u32]) -> Result<(), Memory>
    requires { AreDevices devices.now }
    ensures { OnOk result (out.new.items ≡ out.old.items ++ devices_bytes devices.now) }
{
    out.extend_from_slice(&(devices.len() as u16).to_be_bytes())?;
    for device in devices {
        out.extend_from_slice(&(*device as u16).to_be_bytes())?;
    }
    Ok(())
}

// What an intent says.
fn intent_payload(alloc: Global, t: u64, call: &Call, devices: &[u32]) -> Result<Vec<u8>, Memory>
    requires call { IsCall call.now }
    requires devices { AreDevices devices.now }
    ensures { IfOk result (λ bytes.
        bytes.items ≡ to_be_bytes w64 t ++ call_bytes call.now ++ devices_bytes devices.now) }
{
    let mut out = Vec::from_slice(alloc, &t.to_be_bytes())?;
    out.extend_from_slice(&encode(alloc, call)?)?;
    push_devices(&mut out, devices)?;
    Ok(out)
}

/// What an entry says.
pub(crate) fn payload_of(alloc: Global, entry: &Entry) -> Result<Vec<u8>, Memory>
    requires { IsEntry entry.now }
    ensures { IfOk result (λ bytes. bytes.items ≡ payload entry.now) }
{
    match entry {
        Entry::Intent { t, call, devices } => intent_payload(alloc, *t, call, devices.as_slice()),
        Entry::Decide { t } | Entry::Abort { t } | Entry::Settled { t } => {
            Ok(Vec::from_slice(alloc, &t.to_be_bytes())?)
        }
    }
}
