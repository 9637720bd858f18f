//! Tables of devices: done from top to bottom on one device, with a link to it, and on a worker or a mender.
//!
//! Items and changes are parted by ` | `; a change is `+ ITEM` or `- PATH`.
//!
//! - `plain`, `typed MODULES`: the next device is plain, as it is without this, or of these YANG modules
//! - `max LIST N`, `forbid ITEM`: it keeps this rule too
//! - `fill N`: it has so many more entries of a list, each with a leaf
//! - `device ITEMS`, `refused ITEMS`: one that runs this, with a new link; or none may run it
//! - `start N`, `end N`: a session begins and has this number, or ends
//! - `tick N`, `restart`, `drop`: so many seconds pass, it restarts, or all sessions end
//! - `running ITEMS`: this is what it runs
//! - `as N OP > REPLY`: what a session asks for, and is answered
//! - `fail OP before`, `fail OP after`: the next operation of this kind fails on the link
//! - `link OP > REPLY`, `faults N`: what the link's session asks for, and is answered; how often the
//!   link failed
//! - `worker T CHANGES`, `mender T commit, T abort > ITEMS`: the work of a transaction, or of a
//!   reconciliation with these transactions and this tree due
//! - `due OP`, `due none`: the operation that is due for it
//! - `took REPLY N > REPORT`: what it reports of a reply with this count of faults
//! - `step OP > REPLY > REPORT`: the operation due, what the link answers, and what it reports
//! - `go commit`, `go abort`: the decision
//! - `transactions N CHANGES > CHANGES`: so many times a transaction with these changes and then one
//!   with those is done, and confirmed

mod device;
mod duty;
mod many;

use crate::devices::device::on_device;
use crate::devices::duty::{Duty, mender_of, worker_of};
use crate::devices::many::{fill, transact};
use crate::items::tree_of;
use crate::line::first_word;
use crate::modules::schema_of;
use crate::schemas::add_rule;
use crate::table::Table;
use crate::undone::Undone;
use orc_check::Accept;
use orc_node::{Link, Node, NodeFault};
use orc_schema::Schema;
use orc_text::Row;
use std::alloc::Global;
use std::mem::replace;

/// What the next device accepts, how many entries more it has, the device with the link to it, and the work that is done there.
#[derive(Drop)]
pub(crate) struct Devices {
    alloc: Global,
    accept: Accept,
    entries: u64,
    link: Option<Link>,
    duty: Duty,
}

// What a device of a schema without other rules accepts.
fn accept_of(alloc: Global, schema: Schema) -> Accept {
    Accept {
        schema,
        max: Row::new(alloc),
        forbid: Row::new(alloc),
    }
}

impl Table for Devices {
    fn take(&mut self, line: &str) -> Result<bool, Undone> {
        let (word, rest) = first_word(line);
        match word {
            "plain" => self.accept = accept_of(self.alloc, Schema::plain(self.alloc)),
            "typed" => self.accept = accept_of(self.alloc, schema_of(self.alloc, rest)?),
            "fill" => self.entries = rest.parse()?,
            "max" | "forbid" => add_rule(self.alloc, &mut self.accept, line)?,
            "worker" => self.duty = worker_of(self.alloc, rest)?,
            "mender" => self.duty = mender_of(self.alloc, rest)?,
            _ => return self.says(word, rest),
        }
        Ok(true)
    }
}

impl Devices {
    /// Plain devices, none of which is there yet.
    pub(crate) fn new(alloc: Global) -> Devices {
        Devices {
            alloc,
            accept: accept_of(alloc, Schema::plain(alloc)),
            entries: 0,
            link: None,
            duty: Duty::Free,
        }
    }

    // Says whether it is so, as a line asks.
    fn says(&mut self, word: &str, rest: &str) -> Result<bool, Undone> {
        match word {
            "device" => self.begins(rest),
            "refused" => Ok(!self.begins(rest)?),
            "due" => self.duty.is_due(self.alloc, rest),
            "took" => self.duty.takes(self.alloc, rest),
            "go" => self.duty.go(rest),
            "step" => match &mut self.link {
                Some(link) => self.duty.step(self.alloc, link, rest),
                None => Err(Undone),
            },
            "transactions" => match &mut self.link {
                Some(link) => transact(self.alloc, link, rest),
                None => Err(Undone),
            },
            _ => match &mut self.link {
                Some(link) => on_device(self.alloc, link, word, rest),
                None => Err(Undone),
            },
        }
    }

    // A device that runs these items, with a link to it; says whether it accepts them.
    fn begins(&mut self, items: &str) -> Result<bool, Undone> {
        let mut base = tree_of(self.alloc, items)?;
        fill(self.alloc, &mut base, replace(&mut self.entries, 0))?;
        let next = accept_of(self.alloc, Schema::plain(self.alloc));
        let accept = replace(&mut self.accept, next);
        match Node::new(self.alloc, base, accept) {
            Ok(node) => {
                self.link = Some(Link::over(self.alloc, node));
                Ok(true)
            }
            Err(NodeFault::NotAccepted) => Ok(false),
            Err(NodeFault::Memory) => Err(Undone),
        }
    }
}
