//! Whether the devices of a call are known.
ghost use Rattle.std.specs.Prelude.{◌≡◌};
ghost use Rattle.orc_rules.specs.Fits.{first_stale, stale_one};

use orc_call::{Answer, Why};

// The answer to a call with this device, where that is stale.
fn stale_one(device: u32, stale: &[Option<Why>]) -> Option<Answer>
    ensures { result ≡ stale_one device stale.now }
{
    match stale.get(device as usize) {
        Some(Some(why)) => Some(Answer::OutOfSync(device, *why)),
        _ => None,
    }
}

/// The answer for the least of these devices, which ascend, that is stale.
pub fn first_stale(devices: &[u32], stale: &[Option<Why>]) -> Option<Answer>
    ensures { result ≡ first_stale devices.now stale.now }
{
    for device in devices {
        let found = stale_one(*device, stale);
        if found.is_some() {
            return found;
        }
    }
    None
}
