//! Lines on the hub of a table.

use crate::hub::answers::push_answer;
use crate::hub::calls::call_of;
use crate::hub::courses::{agrees, cancels, confirms, prepares};
use crate::hub::entries::push_fault;
use crate::hub::kept::Kept;
use crate::hub::outcomes::{push_admit, push_decided, push_submitted};
use crate::hub::steps::{device_of, is_due, steps};
use crate::items::tree_of;
use crate::line::first_word;
use crate::shown::Shown;
use crate::undone::Undone;
use orc_text::Text;
use std::alloc::Global;

/// Does a line on the hub, and says whether it holds.
pub(crate) fn on_hub(
    alloc: Global,
    hub: &mut Kept,
    declared: &str,
    word: &str,
    rest: &str,
) -> Result<bool, Undone> {
    match word {
        "step" => steps(alloc, hub, rest),
        "prepare" => prepares(alloc, hub, rest),
        "confirm" => confirms(alloc, hub, rest),
        "cancel" => cancels(alloc, hub, rest),
        "agree" => agrees(alloc, hub, rest),
        "due" => is_due(alloc, hub, rest),
        "idle" => Ok(hub.idle() == is_yes(rest)?),
        "down" => Ok(hub.is_down() == is_yes(rest)?),
        "tree" => has_tree(alloc, hub, rest),
        _ => comes_to(alloc, hub, declared, word, rest),
    }
}

// Whether a word says yes.
fn is_yes(word: &str) -> Result<bool, Undone> {
    match word {
        "yes" => Ok(true),
        "no" => Ok(false),
        _ => Err(Undone),
    }
}

// Whether these items are due on a device.
fn has_tree(alloc: Global, hub: &Kept, rest: &str) -> Result<bool, Undone> {
    let (name, items) = first_word(rest);
    let device = device_of(alloc, hub, name)?;
    hub.is_tree_due(device, &tree_of(alloc, items)?)
}

// Does what a line asks, and says whether that came to what it says: `ASKED > OUTCOME`, or `> OUTCOME`.
fn comes_to(
    alloc: Global,
    hub: &mut Kept,
    declared: &str,
    word: &str,
    rest: &str,
) -> Result<bool, Undone> {
    let (asked, wanted) = rest.split_once("> ").ok_or(Undone)?;
    let asked = asked.strip_suffix(' ').unwrap_or(asked);
    let mut came = Shown::new(alloc);
    push_came(&mut came, hub, declared, word, asked)?;
    Ok(came.as_str() == wanted)
}

// Does what a line asks, and adds what came of it.
fn push_came(
    out: &mut Shown,
    hub: &mut Kept,
    declared: &str,
    word: &str,
    asked: &str,
) -> Result<(), Undone> {
    match word {
        "submit" => submit(out, hub, declared, asked, false),
        "late" => submit(out, hub, declared, asked, true),
        "admit" => admit(out, hub),
        "decide" => decide(out, hub),
        "answer" => push_last(out, hub, asked),
        "reconcile" => reconcile(out, hub),
        "finish" => finish(out, hub),
        _ => Err(Undone),
    }
}

// Plans a call on a snapshot, which was taken before or is taken now, and submits it.
fn submit(
    out: &mut Shown,
    hub: &mut Kept,
    declared: &str,
    text: &str,
    is_late: bool,
) -> Result<(), Undone> {
    let call = call_of(out.alloc, declared, text)?;
    let caller = call.caller.copy(out.alloc)?;
    let number = call.number;
    let came = hub.submit(out.alloc, call, is_late)?;
    push_submitted(out, hub.names(), &caller, number, &came)
}

fn admit(out: &mut Shown, hub: &mut Kept) -> Result<(), Undone> {
    let came = hub.admit(out.alloc)?;
    push_admit(out, hub.names(), &came)
}

fn decide(out: &mut Shown, hub: &mut Kept) -> Result<(), Undone> {
    let came = hub.decide(out.alloc);
    push_decided(out, hub.names(), &came)
}

// Adds the last answer to a caller and number, if there is one.
fn push_last(out: &mut Shown, hub: &Kept, asked: &str) -> Result<(), Undone> {
    let (name, number) = first_word(asked);
    let caller = Text::from_str(out.alloc, name)?;
    let number: u64 = number.parse()?;
    match hub.answer_of(&caller, number) {
        Some(answer) => push_answer(out, hub.names(), &caller, number, answer),
        None => out.add(&["none"]),
    }
}

// Begins a reconciliation.
fn reconcile(out: &mut Shown, hub: &mut Kept) -> Result<(), Undone> {
    match hub.begin_reconcile(out.alloc)? {
        Ok(()) => out.add(&["ok"]),
        Err(_) => out.add(&["Memory"]),
    }
}

// Ends it.
fn finish(out: &mut Shown, hub: &mut Kept) -> Result<(), Undone> {
    match hub.finish_reconcile(out.alloc)? {
        Ok(()) => out.add(&["ok"]),
        Err(fault) => push_fault(out, hub.names(), fault),
    }
}
