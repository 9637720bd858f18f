//! Lines on the work that is done on the device.
use crate::items::{changes_of, tree_of};
use crate::line::{first_word, parted};
use crate::operations::{is_op, is_reply, reply_of};
use crate::reports::{push_mend, push_report};
use crate::shown::Shown;
use crate::undone::Undone;
use orc_device::{Device, Op, Reply};
use orc_node::Link;
use orc_recover::Mender;
use orc_worker::Worker;
use std::alloc::Global;

/// The work that is done on the device.
#[derive(Drop)]
pub(crate) enum Duty {
    Free,
    Works(Worker),
    Mends(Mender),
}

// Whether a word says that a transaction is decided.
fn is_commit(word: &str) -> Result<bool, Undone> {
    match word {
        "commit" => Ok(true),
        "abort" => Ok(false),
        _ => Err(Undone),
    }
}

/// The work of a transaction: its number, and what it changes.
pub(crate) fn worker_of(alloc: Global, rest: &str) -> Result<Duty, Undone> {
    let (t, changes) = first_word(rest);
    let set = changes_of(alloc, changes)?;
    Ok(Duty::Works(Worker::new(t.parse()?, set)))
}

/// The work of a reconciliation: transactions, or `none`, and the configuration due.
pub(crate) fn mender_of(alloc: Global, rest: &str) -> Result<Duty, Undone> {
    let (listed, items) = parted(rest)?;
    let mut intents = Vec::new(alloc);
    if listed != "none" {
        for intent in listed.split(", ") {
            let (t, word) = first_word(intent);
            intents.push((t.parse()?, is_commit(word)?))?;
        }
    }
    Ok(Duty::Mends(Mender::new(intents, tree_of(alloc, items)?)))
}

impl Duty {
    // The operation that is due.
    fn next(&self, alloc: Global) -> Result<Option<Op>, Undone> {
        match self {
            Duty::Free => Ok(None),
            Duty::Works(worker) => Ok(worker.next(alloc)?),
            Duty::Mends(mender) => Ok(mender.next(alloc)?),
        }
    }

    // Takes a reply, and gives what is reported.
    fn took(&mut self, alloc: Global, reply: Reply, faults: u64) -> Result<Shown, Undone> {
        match self {
            Duty::Free => Err(Undone),
            Duty::Works(worker) => worker_took(alloc, worker, reply, faults),
            Duty::Mends(mender) => mender_took(alloc, mender, reply, faults),
        }
    }

    /// Whether this operation is due.
    pub(crate) fn is_due(&self, alloc: Global, text: &str) -> Result<bool, Undone> {
        let op = self.next(alloc)?;
        is_op(alloc, op.as_ref(), text)
    }

    /// Takes the reply of a line, and says whether what is reported is the line's.
    pub(crate) fn takes(&mut self, alloc: Global, rest: &str) -> Result<bool, Undone> {
        let (given, wanted) = parted(rest)?;
        let Some((text, faults)) = given.rsplit_once(' ') else {
            return Err(Undone);
        };
        let reply = reply_of(alloc, text)?;
        let report = self.took(alloc, reply, faults.parse()?)?;
        Ok(report.as_str() == wanted)
    }

    /// Gives the worker the decision.
    pub(crate) fn go(&mut self, word: &str) -> Result<bool, Undone> {
        let commit = is_commit(word)?;
        match self {
            Duty::Works(worker) => told(worker, commit),
            _ => Err(Undone),
        }
    }

    /// Does the operation due on the link, and says whether it, its reply and the report are those
    /// of a line.
    pub(crate) fn step(
        &mut self,
        alloc: Global,
        link: &mut Link,
        rest: &str,
    ) -> Result<bool, Undone> {
        let (asked, later) = parted(rest)?;
        let (answer, wanted) = parted(later)?;
        let Some(op) = self.next(alloc)? else {
            return Ok(false);
        };
        let reply = link.perform(&op);
        let good = is_op(alloc, Some(&op), asked)? && is_reply(alloc, &reply, answer)?;
        let report = self.took(alloc, reply, link.faults())?;
        Ok(good && report.as_str() == wanted)
    }
}

// Takes a reply to the operation due for a transaction.
fn worker_took(
    alloc: Global,
    worker: &mut Worker,
    reply: Reply,
    faults: u64,
) -> Result<Shown, Undone> {
    let mut shown = Shown::new(alloc);
    if !worker.is_due() {
        return Err(Undone);
    }
    push_report(&mut shown, worker.took(reply, faults))?;
    Ok(shown)
}

// Takes a reply to the operation due for a reconciliation.
fn mender_took(
    alloc: Global,
    mender: &mut Mender,
    reply: Reply,
    faults: u64,
) -> Result<Shown, Undone> {
    let mut shown = Shown::new(alloc);
    if !mender.is_due() {
        return Err(Undone);
    }
    push_mend(&mut shown, mender.took(reply, faults))?;
    Ok(shown)
}

// Gives a worker the decision that it waits for.
fn told(worker: &mut Worker, commit: bool) -> Result<bool, Undone> {
    if !worker.is_waiting() {
        return Err(Undone);
    }
    worker.go(commit);
    Ok(true)
}
