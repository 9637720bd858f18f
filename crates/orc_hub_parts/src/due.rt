//! What is due in the journal.
ghost use Rattle.std.specs.Prelude.{◌≡◌, ◌↔◌, All, IsTrue, MatchOption, Some, slice_get};
ghost use Rattle.orc_rules.specs.Due.{due_with, is_decision_due, is_entry_due, least_due, lesser_number};
ghost use Rattle.orc_hub_parts.specs.Due.{IsDueAs};
ghost use Rattle.orc_rules.specs.Transactions.{is_preparing, is_settling};
ghost use Rattle.orc_rules.specs.declared.transaction.Transaction.{Transaction};

use crate::verdicts::are_heard;
use orc_rules::{Duty, Phase, Transaction};

fn is_preparing(phase: Phase) -> bool
    ensures { result ≡ is_preparing phase }
{
    match phase {
        Phase::Preparing => true,
        _ => false,
    }
}

/// Whether the Settled of a transaction in this phase is due.
pub fn is_settling(phase: Phase) -> bool
    ensures { result ≡ is_settling phase }
{
    match phase {
        Phase::Settling => true,
        _ => false,
    }
}

// Whether the decision of a transaction is due.
pub fn is_decision_due(duties: &[Duty], it: &Transaction) -> bool
    ensures { result ≡ is_decision_due duties.now it.now }
{
    is_preparing(it.phase) && are_heard(duties, it.t, it.plan.held.devices.as_slice())
}

// Whether something is due for a transaction.
fn is_entry_due(duties: &[Duty], it: &Transaction) -> bool
    ensures { result ≡ is_entry_due duties.now it.now }
{
    is_settling(it.phase) || is_decision_due(duties, it)
}

fn lesser_number(found: Option<u64>, t: u64) -> Option<u64>
    ensures { result ≡ lesser_number found t }
{
    match found {
        None => Some(t),
        Some(other) => Some(other.min(t)),
    }
}

fn due_with(duties: &[Duty], found: Option<u64>, it: &Transaction) -> Option<u64>
    ensures { result ≡ due_with duties.now found it.now }
{
    if is_entry_due(duties, it) {
        lesser_number(found, it.t)
    } else {
        found
    }
}

/// The least number of a transaction for which something is due.
pub fn least_due(duties: &[Duty], active: &[Transaction]) -> Option<u64>
    ensures { result ≡ least_due duties.now active.now }
{
    let mut found = None;
    for it in active {
        found = due_with(duties, found, it);
    }
    found
}

/// The place of a transaction of this number for which something is due.
pub fn place_due(duties: &[Duty], active: &[Transaction], t: u64) -> Option<usize>
    ensures { MatchOption result (All (λ it. IsDueAs duties.now t it → ⊥) active.now)
        (λ place. (it : Transaction) × (slice_get active.now place ≡ Some it) × IsDueAs duties.now t it) }
{
    for place in 0..active.len() {
        if is_due_as(duties, t, &active[place]) {
            return Some(place);
        }
    }
    None
}

// Whether something is due for a transaction, and this is its number.
fn is_due_as(duties: &[Duty], t: u64, it: &Transaction) -> bool
    ensures { IsTrue result ↔ IsDueAs duties.now t it.now }
{
    it.t == t && is_entry_due(duties, it)
}
