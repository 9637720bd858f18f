//! What time, restarts and a stop of the controller do to the devices.
ghost use Rattle.std.specs.Prelude.{◌≡◌, ◌<◌, length, map, OnErr, OnOk};
ghost use Rattle.orc_rules.specs.Hubs.{with_changed};
ghost use Rattle.orc_links.specs.Networks.{link_dropped, link_listing, link_restarted, link_ticked};

use orc_node::{Link, OpKind, When};
use orc_text::Memory;

// So many seconds pass at a device.
fn tick(link: &mut Link, seconds: u32)
    ensures { link.new ≡ link_ticked seconds link.old }
{
    link.node_mut().tick(seconds);
}

// All sessions of a device end.
fn drop_sessions(link: &mut Link)
    ensures { link.new ≡ link_dropped link.old }
{
    link.node_mut().drop_sessions();
}

// A device restarts.
fn restart(link: &mut Link)
    ensures { link.new ≡ link_restarted link.old }
{
    link.node_mut().restart();
}

/// So many seconds pass at each device.
pub(crate) fn tick_all(links: &mut [Link], seconds: u32)
    ensures { links.new ≡ map (link_ticked seconds) links.old }
{
    for link in links.iter_mut() {
        tick(link, seconds);
    }
}

/// All sessions end.
pub(crate) fn drop_all(links: &mut [Link])
    ensures { links.new ≡ map link_dropped links.old }
{
    for link in links.iter_mut() {
        drop_sessions(link);
    }
}

/// The device of this number restarts.
pub(crate) fn restart_at(links: &mut [Link], device: u32)
    requires { device < length links.old }
    ensures { links.new ≡ with_changed link_restarted device links.old }
{
    restart(&mut links[device as usize]);
}

/// The next operation of this kind on a device fails. If memory runs out, nothing is changed.
pub(crate) fn list_fault_at(
    links: &mut [Link],
    device: u32,
    op: OpKind,
    when: When,
) -> Result<(), Memory>
    requires { device < length links.old }
    ensures ok { OnOk result (links.new ≡ with_changed (link_listing op when) device links.old) }
    ensures err { OnErr result (links.new ≡ links.old) }
{
    links[device as usize].fail_next(op, when)
}
