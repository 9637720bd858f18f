//! Lines on the device of a table, and on the link to it.
use crate::items::tree_of;
use crate::line::{first_word, parted};
use crate::operations::{is_op, is_reply, kind_of, mark_word, op_of, when_of};
use crate::undone::Undone;
use orc_device::{Device, Logged, Op, Reply};
use orc_node::{Link, Node};
use std::alloc::Global;

// Whether a log has the operation and its reply so, as copies of it say too.
fn is_logged(
    alloc: Global,
    op: &Op,
    reply: &Reply,
    asked: &str,
    answer: &str,
) -> Result<bool, Undone> {
    let mark = reply.copy(alloc)?.mark().copy(alloc)?;
    let op = op.copy(alloc)?;
    let logged = Logged { op, mark }.copy(alloc)?;
    let (word, _) = first_word(answer);
    Ok(is_op(alloc, Some(&logged.op), asked)? && mark_word(logged.mark) == word)
}

// Whether a session of the device is answered so.
fn answers(alloc: Global, node: &mut Node, rest: &str) -> Result<bool, Undone> {
    let (asked, wanted) = parted(rest)?;
    let (session, text) = first_word(asked);
    let op = op_of(alloc, text)?;
    let reply = node.perform_as(session.parse()?, &op);
    is_reply(alloc, &reply, wanted)
}

// Whether the link's session is answered so.
fn link_answers(alloc: Global, link: &mut Link, rest: &str) -> Result<bool, Undone> {
    let (asked, wanted) = parted(rest)?;
    let op = op_of(alloc, asked)?;
    let reply = link.perform(&op);
    Ok(is_reply(alloc, &reply, wanted)? && is_logged(alloc, &op, &reply, asked, wanted)?)
}

// Lists an operation that is to fail.
fn fail(alloc: Global, link: &mut Link, rest: &str) -> Result<bool, Undone> {
    let (name, when) = first_word(rest);
    let op = kind_of(name)?.copy(alloc)?;
    let when = when_of(when)?.copy(alloc)?;
    link.fail_next(op, when)?;
    Ok(true)
}

// Does a line on the device alone.
fn on_node(alloc: Global, node: &mut Node, word: &str, rest: &str) -> Result<bool, Undone> {
    match word {
        "start" => return Ok(node.start_session() == rest.parse()?),
        "end" => node.end_session(rest.parse()?),
        "tick" => node.tick(rest.parse()?),
        "restart" => node.restart(),
        "drop" => node.drop_sessions(),
        "as" => return answers(alloc, node, rest),
        _ => return Err(Undone),
    }
    Ok(true)
}

/// Does a line on the device or the link.
pub(crate) fn on_device(
    alloc: Global,
    link: &mut Link,
    word: &str,
    rest: &str,
) -> Result<bool, Undone> {
    match word {
        "fail" => fail(alloc, link, rest),
        "link" => link_answers(alloc, link, rest),
        "faults" => Ok(link.faults() == rest.parse()?),
        "running" => Ok(link.node().running().equals(&tree_of(alloc, rest)?)),
        _ => on_node(alloc, link.node_mut(), word, rest),
    }
}
