//! The bundle, line by line.
ghost use Rattle.std.specs.Prelude.{◌≡◌, ◌≤◌, ◌<◌, ◌++◌, codes, IfOk, OnOk};
ghost use Rattle.std.specs.Fmt.{decimal};
ghost use Rattle.orc_generator.specs.inside.Adding.{Adds};
ghost use Rattle.orc_generator.specs.Generated.{
  behind_call,
  call_line,
  generated_devices,
  entry_line,
  generated,
  generated_action,
  generated_call,
  generated_calls,
  settle_line,
};

use crate::draws::Draws;
use orc_text::Memory;
use std::alloc::Global;

/// The bundle that is drawn from a number, with 1 to 64 devices and at most 5,000 calls.
pub fn generate(alloc: Global, number: u64, devices: u32, calls: u32) -> Result<Vec<u8>, Memory>
    requires some { 0 < devices }
    requires few { devices ≤ 64 }
    requires short { calls ≤ 5000 }
    ensures { IfOk result (λ bytes. bytes.items ≡ generated number devices calls) }
{
    let mut out = String::from_str(alloc, "orc 1\n")?;
    push_devices(&mut out, alloc, devices)?;
    out.push_str("script\n")?;
    push_calls(&mut out, alloc, number, devices, calls)?;
    out.push_str("settle\n")?;
    Ok(out.into_bytes())
}

// The devices.
fn push_devices(out: &mut String, alloc: Global, devices: u32) -> Result<(), Memory>
    ensures { Adds result out.old out.new (generated_devices devices) }
{
    for device in 0..devices {
        push_device(out, alloc, device)?;
    }
    Ok(())
}

// A device and its base.
fn push_device(out: &mut String, alloc: Global, device: u32) -> Result<(), Memory>
    ensures { Adds result out.old out.new
        (codes "device d" ++ decimal device ++ codes " plain\nbase d" ++ decimal device ++ codes " /g:mtu = 1500\n") }
{
    out.push_str("device d")?;
    out.push_str(device.to_string(alloc)?.as_str())?;
    out.push_str(" plain\nbase d")?;
    out.push_str(device.to_string(alloc)?.as_str())?;
    out.push_str(" /g:mtu = 1500\n")?;
    Ok(())
}

// The calls, each sixteen of them settled.
fn push_calls(
    out: &mut String,
    alloc: Global,
    number: u64,
    devices: u32,
    calls: u32,
) -> Result<(), Memory>
    requires some { 0 < devices }
    ensures { Adds result out.old out.new (generated_calls number devices calls calls) }
{
    let mut draws = Draws { state: number };
    for call in 0..calls {
        push_call(out, alloc, &mut draws, devices, calls, call + 1)?;
        push_settle(out, call + 1)?;
    }
    Ok(())
}

// A line `settle` after each sixteenth call.
fn push_settle(out: &mut String, number: u32) -> Result<(), Memory>
    ensures { Adds result out.old out.new (settle_line number) }
{
    if number % 16 == 0 {
        out.push_str("settle\n")?;
    }
    Ok(())
}

// A call, as four draws say.
fn push_call(
    out: &mut String,
    alloc: Global,
    draws: &mut Draws,
    devices: u32,
    calls: u32,
    number: u32,
) -> Result<(), Memory>
    requires some { 0 < devices }
    requires any { 0 < calls }
    ensures text { Adds result out.old out.new (generated_call devices calls draws.old.state number) }
    ensures state { OnOk result (draws.new.state ≡ behind_call draws.old.state) }
{
    push_call_line(out, alloc, number)?;
    let choice = draws.draw(4);
    let service = draws.draw(u64::from(calls));
    let device = draws.draw(u64::from(devices));
    let key = draws.draw(100);
    push_action(out, alloc, choice, service, device, key)?;
    out.push_str("end\n")?;
    Ok(())
}

// The line that begins a call.
fn push_call_line(out: &mut String, alloc: Global, number: u32) -> Result<(), Memory>
    ensures { Adds result out.old out.new (call_line number) }
{
    out.push_str("call c")?;
    out.push_str((number % 16).to_string(alloc)?.as_str())?;
    out.push_str(" ")?;
    out.push_str(number.to_string(alloc)?.as_str())?;
    out.push_str("\n")?;
    Ok(())
}

// A literal service with three entries, or that one is deleted.
fn push_action(
    out: &mut String,
    alloc: Global,
    choice: u64,
    service: u64,
    device: u64,
    key: u64,
) -> Result<(), Memory>
    requires small { key < 100 }
    ensures { Adds result out.old out.new (generated_action choice service device key) }
{
    if choice < 3 {
        push_named(out, alloc, "literal s", service)?;
        push_entry(out, alloc, device, key)?;
        push_entry(out, alloc, device, key + 1)?;
        push_entry(out, alloc, device, key + 2)
    } else {
        push_named(out, alloc, "delete s", service)
    }
}

// A line of a word and the number of a service.
fn push_named(out: &mut String, alloc: Global, word: &str, service: u64) -> Result<(), Memory>
    ensures { Adds result out.old out.new (word.now ++ decimal service ++ codes "\n") }
{
    out.push_str(word)?;
    out.push_str(service.to_string(alloc)?.as_str())?;
    out.push_str("\n")?;
    Ok(())
}

// A write of one entry.
fn push_entry(out: &mut String, alloc: Global, device: u64, key: u64) -> Result<(), Memory>
    ensures { Adds result out.old out.new (entry_line device key) }
{
    out.push_str("write d")?;
    out.push_str(device.to_string(alloc)?.as_str())?;
    out.push_str(" /g:p[")?;
    out.push_str(key.to_string(alloc)?.as_str())?;
    out.push_str("]/v = ")?;
    out.push_str(key.to_string(alloc)?.as_str())?;
    out.push_str("\n")?;
    Ok(())
}
