//! Operations that are performed and noted.
ghost use Rattle.std.specs.Prelude.{◌≡◌, ◌<◌, ◌+◌, ◌≤◌, ◌++◌, ◌∷◌, [], length, vec_len, vec_capacity, IfOk, OnErr, OnOk};
ghost use Rattle.orc_device.specs.Operations.{mark_of};
ghost use Rattle.orc_node.specs.LinkStates.{LinkPerforms};
ghost use Rattle.orc_links.specs.Logs.{PerformsLogged, PerformsNoted, cleared_log, logged_as};

use crate::links::Links;
use orc_device::{Device, Logged, Op, Reply};
use orc_node::Link;
use orc_text::{Memory, Row};
use std::alloc::Global;
use std::mem;

// Adds an item where there is room for it.
fn keep<T: Drop>(items: &mut Vec<T>, item: T)
    requires { vec_len items.old < vec_capacity items.old }
    ensures { items.new.items ≡ items.old.items ++ item ∷ [] }
{
    match items.push(item) {
        Ok(()) => {}
        Err(_) => unreachable!(),
    }
}

// Performs an operation on a link, and notes it, where there is room for the line.
fn perform_within(link: &mut Link, lines: &mut Vec<Logged>, op: Op) -> Reply
    requires { vec_len lines.old < vec_capacity lines.old }
    ensures performs { LinkPerforms link.old op link.new result }
    ensures noted { lines.new.items ≡ lines.old.items ++ logged_as op result ∷ [] }
{
    let reply = link.perform(&op);
    let mark = reply.mark();
    keep(lines, Logged { op, mark });
    reply
}

// Room for one item more.
fn make_room<T: Drop>(items: &mut Vec<T>) -> Result<(), Memory>
    ensures items { items.new.items ≡ items.old.items }
    ensures room { OnOk result (vec_len items.new < vec_capacity items.new) }
{
    items.reserve(1)?;
    Ok(())
}

// Performs an operation on a link, and notes it. Where there is no memory for the line, nothing is done.
fn perform_noted(
    alloc: Global,
    link: &mut Link,
    log: &mut Row<Logged>,
    op: Op,
) -> Result<Reply, Memory>
    ensures ok { IfOk result (λ reply. PerformsNoted link.old log.old op reply link.new log.new) }
    ensures link { OnErr result (link.new ≡ link.old) }
    ensures log { OnErr result (log.new ≡ log.old) }
{
    let mut lines = mem::replace(log, Row::new(alloc)).into_vec();
    match make_room(&mut lines) {
        Ok(()) => {
            let reply = perform_within(link, &mut lines, op);
            *log = Row::from_vec(lines);
            Ok(reply)
        }
        Err(Memory) => {
            *log = Row::from_vec(lines);
            Err(Memory)
        }
    }
}

// Performs an operation on the device of this number, and notes it.
fn perform_at(
    alloc: Global,
    links: &mut [Link],
    logs: &mut [Row<Logged>],
    device: u32,
    op: Op,
) -> Result<Reply, Memory>
    requires link { device < length links.old }
    requires log { device < length logs.old }
    ensures ok { IfOk result (λ reply. PerformsLogged links.old logs.old device op reply links.new logs.new) }
    ensures links { OnErr result (links.new ≡ links.old) }
    ensures logs { OnErr result (logs.new ≡ logs.old) }
{
    perform_noted(
        alloc,
        &mut links[device as usize],
        &mut logs[device as usize],
        op,
    )
}

/// The log of a device begins anew.
pub(crate) fn clear_at(alloc: Global, logs: &mut [Row<Logged>], device: u32)
    requires { device < length logs.old }
    ensures { logs.new ≡ cleared_log device logs.old }
{
    logs[device as usize] = Row::new(alloc);
}

impl Links {
    /// Performs an operation on a device, and notes it in its log. Where there is no memory for the line
    /// nothing is done.
    pub fn perform(&mut self, alloc: Global, device: u32, op: Op) -> Result<Reply, Memory>
        requires link { device < length self.old.links }
        requires log { device < length self.old.logs }
        ensures ok { IfOk result (λ reply.
            PerformsLogged self.old.links self.old.logs device op reply self.new.links self.new.logs) }
        ensures err { OnErr result (self.new ≡ self.old) }
    {
        perform_at(
            alloc,
            self.links.as_mut_slice(),
            self.logs.as_mut_slice(),
            device,
            op,
        )
    }
}
