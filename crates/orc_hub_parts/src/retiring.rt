//! How far transactions are, and which of them are active no more.
ghost use Rattle.std.specs.Prelude.{◌≡◌, map};
ghost use Rattle.std.specs.List.{filter};
ghost use Rattle.orc_rules.specs.Transactions.{are_over, has_lost, in_phase, is_lost, is_other, is_told, nothing_held, retired};

use crate::duties::{is_over_on, outcome_on};
use orc_expr::ReadSet;
use orc_queue::Held;
use orc_rules::{Duty, Phase, Transaction};
use orc_text::Row;
use orc_worker::Outcome;
use std::alloc::Global;

// Whether the transaction was decided or aborted, and a worker may go on.
fn is_told(phase: Phase) -> bool
    ensures { result ≡ is_told phase }
{
    match phase {
        Phase::Decided | Phase::Aborted => true,
        _ => false,
    }
}

// Whether an outcome is that of a link that failed.
fn is_lost(outcome: Option<Outcome>) -> bool
    ensures { result ≡ is_lost outcome }
{
    match outcome {
        Some(Outcome::Lost(_)) => true,
        _ => false,
    }
}

// Whether the work of a transaction has ended on each of the devices.
fn are_over(duties: &[Duty], t: u64, devices: &[u32]) -> bool
    ensures { result ≡ are_over duties.now t devices.now }
{
    devices.iter().all(|device| is_over_on(duties, t, *device))
}

// Whether the last outcome on one of the devices is that the link failed.
fn has_lost(duties: &[Duty], t: u64, devices: &[u32]) -> bool
    ensures { result ≡ has_lost duties.now t devices.now }
{
    devices
        .iter()
        .any(|device| is_lost(outcome_on(duties, t, *device)))
}

// What holds nothing.
fn nothing_held(alloc: Global) -> Held
    ensures { result ≡ nothing_held }
{
    Held {
        devices: Row::new(alloc),
        services: Row::new(alloc),
        reads: ReadSet::new(alloc),
        targets: Row::new(alloc),
    }
}

// A transaction whose workers have all ended after its decision is active no more.
fn retire(it: &mut Transaction, alloc: Global, duties: &[Duty])
    ensures { it.new ≡ retired duties.now it.old }
{
    let devices = it.plan.held.devices.as_slice();
    if is_told(it.phase) && are_over(duties, it.t, devices) {
        it.phase = if has_lost(duties, it.t, devices) {
            Phase::Left
        } else {
            Phase::Settling
        };
        it.plan.held = nothing_held(alloc);
    }
}

// The transaction of this number comes to a phase.
fn come(it: &mut Transaction, t: u64, phase: Phase)
    ensures { it.new ≡ in_phase t phase it.old }
{
    if it.t == t {
        it.phase = phase;
    }
}

/// Each transaction whose workers have all ended after its decision is active no more.
pub fn retire_all(alloc: Global, active: &mut [Transaction], duties: &[Duty])
    ensures { active.new ≡ map (retired duties.now) active.old }
{
    for it in active.iter_mut() {
        retire(it, alloc, duties);
    }
}

/// The transaction of this number is there no more.
pub fn leave(active: &mut Vec<Transaction>, t: u64)
    ensures { active.new.items ≡ filter (is_other t) active.old.items }
{
    active.retain(|it| it.t != t);
}

/// The transaction of a number comes to a phase.
pub fn come_all(active: &mut [Transaction], t: u64, phase: Phase)
    ensures { active.new ≡ map (in_phase t phase) active.old }
{
    for it in active.iter_mut() {
        come(it, t, phase);
    }
}
