//! Large devices, and many transactions on one.
use crate::items::{changes_of, leaf_of, set};
use crate::line::{first_word, parted};
use crate::undone::Undone;
use orc_device::Device;
use orc_node::Link;
use orc_tree::{ChangeSet, Tree};
use orc_worker::{Outcome, Worker};
use std::alloc::Global;

// How many operations a transaction takes at most, with its decision.
const TURNS: u64 = 24;

/// Adds so many entries of a list, each with a leaf.
pub(crate) fn fill(alloc: Global, tree: &mut Tree, entries: u64) -> Result<(), Undone> {
    for number in 0..entries {
        let path = format!(in alloc; "/if:port[b{number}]/mtu")?;
        if !set(tree, leaf_of(alloc, path.as_str(), "1500")?)? {
            return Err(Undone);
        }
    }
    Ok(())
}

// Does the operation that is due for a worker, if one is.
fn turn(alloc: Global, link: &mut Link, worker: &mut Worker) -> Result<(), Undone> {
    if worker.is_waiting() {
        worker.go(true);
    }
    let Some(op) = worker.next(alloc)? else {
        return Ok(());
    };
    let reply = link.perform(&op);
    if worker.is_due() {
        let _report = worker.took(reply, link.faults());
    }
    Ok(())
}

// Does a transaction, and says whether it was confirmed.
fn confirms(alloc: Global, link: &mut Link, t: u64, set: ChangeSet) -> Result<bool, Undone> {
    let mut worker = Worker::new(t, set);
    for _turn in 0..TURNS {
        turn(alloc, link, &mut worker)?;
    }
    match worker.outcome {
        Some(Outcome::Confirmed) => Ok(true),
        _ => Ok(false),
    }
}

/// Does so many pairs of transactions with the changes of a line, and says whether all were confirmed.
pub(crate) fn transact(alloc: Global, link: &mut Link, rest: &str) -> Result<bool, Undone> {
    let (given, back) = parted(rest)?;
    let (count, there) = first_word(given);
    let pairs: u64 = count.parse()?;
    let there = changes_of(alloc, there)?;
    let back = changes_of(alloc, back)?;
    for _pair in 0..pairs {
        if !confirms(alloc, link, 1, there.copy(alloc)?)?
            || !confirms(alloc, link, 2, back.copy(alloc)?)?
        {
            return Ok(false);
        }
    }
    Ok(true)
}
