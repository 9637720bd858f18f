//! A living service, with what it writes on each device.
ghost use Rattle.std.specs.Prelude.{◌≡◌, ◌==◌, length, not, slice_get};
ghost use Rattle.std.specs.FinMap.{empty, len};
ghost use Rattle.std.specs.Option.{option_copied, option_map_or};
ghost use Rattle.orc_datastore.specs.Services.{spread, written_on};

use orc_text::{Row, Text};
use orc_tree::Tree;
use std::marker::Model;

/// A living service: its name, how many devices are declared, and the items that it writes on each device on
/// which it writes, with the device's number.
#[derive(Drop)]
pub struct Service {
    id: Text,
    devices: usize,
    written: Row<(u32, Tree)>,
}

impl Model for Service {
    ghost use Rattle.orc_datastore.specs.Services.{LivingService, living_service_code, spread};

    ghost Value = { LivingService };

    ghost coded = { living_service_code };

    ghost view = { λ service. record {
      id = service.id;
      parts = spread service.written 0 service.devices;
    } };
}

impl Service {
    /// The service of a name that writes on some of so many devices.
    pub(crate) fn new(id: Text, devices: usize, written: Row<(u32, Tree)>) -> Service
        ensures { result ≡ record { id = id; parts = spread written 0 devices } }
    {
        Service {
            id,
            devices,
            written,
        }
    }

    /// Its name.
    pub fn id(&self) -> &Text
        ensures { result.now ≡ self.now.id }
    {
        &self.id
    }

    /// How many devices are declared.
    pub fn devices(&self) -> usize
        ensures { result ≡ length self.now.parts }
    {
        self.devices
    }

    /// What it writes on the device of a number; none only where it writes nothing there.
    pub fn part(&self, device: u32) -> Option<&Tree>
        ensures { option_map_or (λ config. config) (option_copied result) empty
            ≡ option_map_or (λ config. config) (slice_get self.now.parts device) empty }
    {
        if (device as usize) < self.devices {
            written_on(self.written.as_slice(), device)
        } else {
            None
        }
    }

    /// Whether it has an item on the device of a number.
    pub(crate) fn is_on(&self, device: u32) -> bool
        ensures { result
            ≡ not (len (option_map_or (λ config. config) (slice_get self.now.parts device) empty) == 0) }
    {
        match self.part(device) {
            Some(tree) => !is_blank(tree),
            None => false,
        }
    }
}

/// What stands at a number among numbered configurations.
pub(crate) fn written_on(written: &[(u32, Tree)], device: u32) -> Option<&Tree>
    ensures { option_map_or (λ config. config) (option_copied result) empty ≡ written_on written.now device }
{
    for one in written {
        if one.0 == device {
            return Some(&one.1);
        }
    }
    None
}

// Whether a configuration has no item.
fn is_blank(tree: &Tree) -> bool
    ensures { result ≡ (len tree.now == 0) }
{
    tree.is_empty()
}
