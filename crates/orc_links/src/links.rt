//! The links of a network, and what one who looks at them sees.
ghost use Rattle.std.specs.Prelude.{◌≡◌, ◌<◌, length, map, MatchOption, OnErr, OnOk, slice_get};
ghost use Rattle.orc_rules.specs.Hubs.{with_changed};
ghost use Rattle.orc_links.specs.Logs.{cleared_log};
ghost use Rattle.orc_links.specs.Networks.{link_dropped, link_listing, link_restarted, link_ticked};

use crate::logs::clear_at;
use crate::passing::{drop_all, list_fault_at, restart_at, tick_all};
use orc_device::{Device, Logged};
use orc_node::{Link, OpKind, When};
use orc_text::{Memory, Row};
use orc_tree::Tree;
use std::alloc::Global;

/// The links to the declared devices, in the order of their numbers, and, for each, the operations
/// that were performed there since its log was printed last.
#[derive(Drop)]
pub struct Links {
    pub links: Row<Link>,
    pub logs: Row<Row<Logged>>,
}

impl Links {
    /// The links.
    pub fn as_slice(&self) -> &[Link]
        ensures { result.now ≡ self.now.links }
    {
        self.links.as_slice()
    }

    /// What a device runs.
    pub fn running(&self, device: u32) -> &Tree
        requires { device < length self.now.links }
        ensures { MatchOption (slice_get self.now.links device) ⊥ (λ link. result.now ≡ link.node.state.running) }
    {
        self.links.as_slice()[device as usize].node().running()
    }

    /// How often the link of a device failed.
    pub fn faults(&self, device: u32) -> u64
        requires { device < length self.now.links }
        ensures { MatchOption (slice_get self.now.links device) ⊥ (λ link. result ≡ link.faults) }
    {
        self.links.as_slice()[device as usize].faults()
    }

    /// The operations that were performed on a device since its log was printed last.
    pub fn log(&self, device: u32) -> &[Logged]
        requires { device < length self.now.logs }
        ensures { MatchOption (slice_get self.now.logs device) ⊥ (λ log. result.now ≡ log) }
    {
        self.logs.as_slice()[device as usize].as_slice()
    }

    /// The log of a device begins anew.
    pub fn clear_log(&mut self, alloc: Global, device: u32)
        requires { device < length self.old.logs }
        ensures { self.new ≡ record self.old { logs = cleared_log device self.old.logs } }
    {
        clear_at(alloc, self.logs.as_mut_slice(), device);
    }

    /// So many seconds pass at each device.
    pub fn tick(&mut self, seconds: u32)
        ensures { self.new ≡ record self.old { links = map (link_ticked seconds) self.old.links } }
    {
        tick_all(self.links.as_mut_slice(), seconds);
    }

    /// A device restarts.
    pub fn restart(&mut self, device: u32)
        requires { device < length self.old.links }
        ensures { self.new ≡ record self.old { links = with_changed link_restarted device self.old.links } }
    {
        restart_at(self.links.as_mut_slice(), device);
    }

    /// All sessions end.
    pub fn drop_sessions(&mut self)
        ensures { self.new ≡ record self.old { links = map link_dropped self.old.links } }
    {
        drop_all(self.links.as_mut_slice());
    }

    /// The next operation of this kind on a device fails, before its effect or after. Where memory runs
    /// out nothing is changed.
    pub fn fail_next(&mut self, device: u32, op: OpKind, when: When) -> Result<(), Memory>
        requires { device < length self.old.links }
        ensures ok { OnOk result
            (self.new ≡ record self.old { links = with_changed (link_listing op when) device self.old.links }) }
        ensures err { OnErr result (self.new ≡ self.old) }
    {
        list_fault_at(self.links.as_mut_slice(), device, op, when)
    }
}
