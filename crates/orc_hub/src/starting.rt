//! Starting: the entries of a journal make a hub.
ghost use Rattle.std.specs.Prelude.{◌≡◌, List, map, IfErr, IfOk, IsTrue};
ghost use Rattle.orc_journal.specs.declared.entry.Entry.{Entry};
ghost use Rattle.orc_decls.specs.Declarations.{AreDecls};
ghost use Rattle.orc_journal.specs.Opened.{Holds};
ghost use Rattle.orc_journal.specs.Orders.{is_ordered};
ghost use Rattle.orc_rules.specs.Worlds.{declared};
ghost use Rattle.orc_hub.specs.Keeps.{IsHub};
ghost use Rattle.orc_hub.specs.Starts.{HasStarted, IsStartFault, known_at_start};
ghost use Rattle.orc_hub_parts.specs.Pasts.{IsPast};

use crate::hub::Hub;
use orc_call::Why;
use orc_decls::Decls;
use orc_disk::Disk;
use orc_hub_parts::{Askers, Log, Past, PastFault};
use orc_journal::{Entry, Journal};
use orc_queue::Queue;
use orc_rules::Duty;
use orc_text::{Memory, Row};
use std::alloc::Global;

/// Why a journal makes no hub.
#[derive(Clone, Copy)]
pub enum StartFault {
    /// The n-th decided call isn't legal after those before it; its Decide stands at this offset.
    Damaged { n: u64, at: u64 },
    /// Memory ran out.
    Memory,
}

// No operation is due on any device.
fn all_free(alloc: Global, decls: &Decls) -> Result<Row<Duty>, Memory>
    ensures { IfOk result (λ duties. duties ≡ map (λ device. Duty.Free) (declared decls.now)) }
{
    let mut duties = Row::new(alloc);
    for _place in 0..decls.names().len() {
        duties.push(Duty::Free)?;
    }
    Ok(duties)
}

// What is known of each device: all of it, where the journal is new.
fn all_known(alloc: Global, decls: &Decls, fresh: bool) -> Result<Row<Option<Why>>, Memory>
    ensures { IfOk result (λ stale. stale ≡ map (λ device. known_at_start fresh) (declared decls.now)) }
{
    let known = if fresh { None } else { Some(Why::Recovered) };
    let mut stale = Row::new(alloc);
    for _place in 0..decls.names().len() {
        stale.push(known)?;
    }
    Ok(stale)
}

// Both.
fn at_start(
    alloc: Global,
    decls: &Decls,
    fresh: bool,
) -> Result<(Row<Duty>, Row<Option<Why>>), Memory>
    ensures duties { IfOk result (λ both. both.0 ≡ map (λ device. Duty.Free) (declared decls.now)) }
    ensures stale { IfOk result (λ both. both.1 ≡ map (λ device. known_at_start fresh) (declared decls.now)) }
{
    Ok((all_free(alloc, decls)?, all_known(alloc, decls, fresh)?))
}

// The disk of a journal that makes no hub: all else is let go here, once.
fn disk_of<D: Disk>(_decls: Decls, journal: Journal<D>, _entries: Vec<Entry>) -> D
    ensures { result ≡ journal.disk }
{
    journal.into_disk()
}

// The disk of a journal whose past makes no hub.
fn disk_without<D: Disk>(_decls: Decls, journal: Journal<D>, _past: Past) -> D
    ensures { result ≡ journal.disk }
{
    journal.into_disk()
}

impl<D: Disk> Hub<D> {
    /// The hub over an open journal, whose entries these are. A refusal hands the disk back.
    pub fn start(
        alloc: Global,
        decls: Decls,
        journal: Journal<D>,
        entries: Vec<Entry>,
    ) -> Result<Hub<D>, (StartFault, D)>
        requires decls { AreDecls decls }
        requires holds { Holds D.disk journal decls.text entries.items }
        requires ordered { IsTrue (is_ordered entries.items) }
        ensures hub { IfOk result (λ hub. IsHub D.disk hub entries.items) }
        ensures started { IfOk result (λ hub. HasStarted decls journal hub) }
        ensures refused { IfErr result (λ refused. (refused.1 ≡ journal.disk)
            × IsStartFault decls entries.items refused.0) }
    {
        match Past::read(alloc, &decls, &entries) {
            Ok(past) => Hub::of_past(alloc, decls, journal, past),
            Err(PastFault::Illegal { place, n }) => {
                let at = journal.offset(&entries, place);
                Err((
                    StartFault::Damaged { n, at },
                    disk_of(decls, journal, entries),
                ))
            }
            Err(PastFault::Memory) => Err((StartFault::Memory, disk_of(decls, journal, entries))),
        }
    }

    // The hub of this past.
    fn of_past(
        alloc: Global,
        decls: Decls,
        journal: Journal<D>,
        past: Past,
    ) -> Result<Hub<D>, (StartFault, D)>
        requires decls { AreDecls decls }
        requires first { past.numbers.next ≡ 1 }
        ensures hub { IfOk result (λ hub. (entries : List Entry) → Holds D.disk journal decls.text entries
            → IsTrue (is_ordered entries) → IsPast decls past entries → IsHub D.disk hub entries) }
        ensures started { IfOk result (λ hub. HasStarted decls journal hub) }
        ensures refused { IfErr result (λ refused. (refused.1 ≡ journal.disk) × (refused.0 ≡ StartFault.Memory)) }
    {
        match at_start(alloc, &decls, journal.fresh()) {
            Ok((duties, stale)) => Ok(Hub {
                decls,
                log: Log {
                    journal,
                    unsettled: past.unsettled,
                },
                state: past.state,
                numbers: past.numbers,
                waiting: Queue::new(alloc),
                active: Row::new(alloc),
                duties,
                stale,
                askers: Askers::new(alloc),
                mends: None,
                down: false,
            }),
            Err(Memory) => Err((StartFault::Memory, disk_without(decls, journal, past))),
        }
    }
}
