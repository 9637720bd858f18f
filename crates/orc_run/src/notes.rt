//! What a run knows at its end beside its status, for whoever reads standard error.
ghost use Rattle.std.specs.Prelude.{◌≡◌};
ghost use Rattle.orc_lines.specs.Answers.{plain_fault};

use orc_call::Why;
use orc_decls::BundleFault;
use orc_disk::Disk;
use orc_lines::{Detail, ExplainedFault};
use orc_rules::{Phase, Transaction, Waiting};
use orc_text::{Memory, Row, Text};
use orc_world::World;
use std::alloc::Global;

/// What a run knows at its end beside its status. It is for people, and no clause speaks of it. Of a run that never began
/// it has nothing, and where memory runs out for it the lists are empty.
#[derive(Drop)]
pub struct Notes {
    /// The devices that are out of step with what is due there, in the order of the declarations. There are none where the
    /// controller isn't up.
    pub out_of_step: Row<OutOfStep>,
    /// The calls without an answer, those under way before those that wait, each in their order. There are none where the
    /// controller isn't up: as it stopped it printed so.
    pub open_calls: Row<OpenCall>,
    /// How many bytes stood after the ending gate of the journal as it was opened at first.
    pub after_end: u64,
    /// What in particular is at fault in the line at which a bundle was refused; none where memory ran out for it.
    pub detail: Option<Box<Detail>>,
}

/// A device that is out of step with what is due there.
#[derive(Drop)]
pub struct OutOfStep {
    /// The name of the device.
    pub device: Text,
    /// The first cause since its last reconciliation.
    pub why: Why,
}

/// A call that has no answer yet.
#[derive(Drop)]
pub struct OpenCall {
    pub caller: Text,
    pub number: u64,
}

impl Notes {
    // Nothing is known.
    pub(crate) fn none(alloc: Global) -> Notes {
        Notes::of_opening(alloc, 0)
    }

    // Nothing is known but how many bytes stood after the ending gate of the journal.
    fn of_opening(alloc: Global, after_end: u64) -> Notes {
        Notes {
            out_of_step: Row::new(alloc),
            open_calls: Row::new(alloc),
            after_end,
            detail: None,
        }
    }

    // Keeps what in particular is at fault in a line, and answers the line and its rule alone.
    pub(crate) fn take_fault(&mut self, alloc: Global, fault: ExplainedFault) -> BundleFault
        ensures { result ≡ plain_fault fault }
    {
        match fault {
            ExplainedFault::At { line, rule, detail } => {
                self.detail = Box::new(alloc, detail).ok();
                BundleFault::At { line, rule }
            }
            ExplainedFault::Memory => BundleFault::Memory,
        }
    }

    // What is known of a world, over a journal after whose ending gate so many bytes stood.
    pub(crate) fn of_world<D: Disk>(alloc: Global, world: &World<D>, after_end: u64) -> Notes {
        match notes_of(alloc, world, after_end) {
            Ok(notes) => notes,
            Err(Memory) => Notes::of_opening(alloc, after_end),
        }
    }
}

// What is known of a world.
fn notes_of<D: Disk>(alloc: Global, world: &World<D>, after_end: u64) -> Result<Notes, Memory> {
    match world.hub() {
        Some(hub) => Ok(Notes {
            out_of_step: out_of_step(alloc, hub.decls().names(), hub.stale.as_slice())?,
            open_calls: open_calls(alloc, hub.active.as_slice(), hub.waiting.as_slice())?,
            after_end,
            detail: None,
        }),
        None => Ok(Notes::of_opening(alloc, after_end)),
    }
}

// The devices of these names that are stale, with their causes.
fn out_of_step(
    alloc: Global,
    names: &[Text],
    stale: &[Option<Why>],
) -> Result<Row<OutOfStep>, Memory> {
    let mut found = Row::new(alloc);
    for (name, why) in names.iter().zip(stale) {
        if let Some(why) = why {
            found.push(OutOfStep {
                device: name.copy(alloc)?,
                why: *why,
            })?;
        }
    }
    Ok(found)
}

// The calls of these that have no answer.
fn open_calls(
    alloc: Global,
    active: &[Transaction],
    waiting: &[Waiting],
) -> Result<Row<OpenCall>, Memory> {
    let mut found = Row::new(alloc);
    for it in active {
        if it.phase == Phase::Preparing {
            found.push(open_call(alloc, &it.call.caller, it.call.number)?)?;
        }
    }
    for it in waiting {
        found.push(open_call(alloc, &it.call.caller, it.call.number)?)?;
    }
    Ok(found)
}

// The call of this caller and number.
fn open_call(alloc: Global, caller: &Text, number: u64) -> Result<OpenCall, Memory> {
    Ok(OpenCall {
        caller: caller.copy(alloc)?,
        number,
    })
}

/// How many bytes stood after the ending gate of the journal over which the hub of a world is up.
pub(crate) fn bytes_after_end<D: Disk>(world: &World<D>) -> u64 {
    match world.hub() {
        Some(hub) => hub.log.journal.after_end(),
        None => 0,
    }
}
