//! What one who looks at the hub sees: a snapshot, the answers, and whether it is idle.
ghost use Rattle.std.specs.Prelude.{◌≡◌, ◌↔◌, ◌<◌, false, IfOk, IsTrue, MatchOption, None, length, get_or, slice_get, if◌then◌else◌};
ghost use Rattle.std.specs.List.{list_all};
ghost use Rattle.std.specs.Option.{option_map};
ghost use Rattle.orc_hub.specs.Admits.{IsNextToAdmit, NoneFits};
ghost use Rattle.orc_hub_parts.specs.Askers.{answer_of};
ghost use Rattle.orc_rules.specs.Due.{least_due};
ghost use Rattle.orc_rules.specs.Worlds.{IsIdle, is_over};
ghost use Rattle.orc_state.specs.States.{IsSnapshotAt};
ghost use Rattle.orc_hub.specs.Hubs.{record_of};
ghost use Rattle.orc_hub.specs.Keeps.{IsSoundHub};

use crate::hub::Hub;
use orc_call::Answer;
use orc_datastore::Snapshot;
use orc_disk::Disk;
use orc_hub_parts::least_due;
use orc_rules::{Phase, Transaction, Waiting};
use orc_text::{Memory, Text};
use std::alloc::Global;

// Whether nothing is done for it any more.
fn is_over(it: &Transaction) -> bool
    ensures { result ≡ is_over it.now.phase }
{
    match it.phase {
        Phase::Left => true,
        _ => false,
    }
}

// Whether nothing is done for any of them.
fn are_over(active: &[Transaction]) -> bool
    ensures { result ≡ list_all (λ it. is_over it.phase) active.now }
{
    active.iter().all(|it| is_over(it))
}

// The number of the transaction of the call that waits at this place.
fn number_at(waiting: &[Waiting], place: usize) -> u64
    requires { place < length waiting.now }
    ensures { MatchOption (slice_get waiting.now place) ⊥ (λ it. it.t ≡ result) }
{
    waiting[place].t
}

impl<D: Disk> Hub<D> {
    /// A snapshot of the state, to plan a call on.
    pub fn begin(&self, alloc: Global) -> Result<Snapshot, Memory>
        requires { IsSoundHub D.disk self.now }
        ensures front { IfOk result (λ snapshot. snapshot.front ≡ length self.now.state.history) }
        ensures at { self.now.down ≡ false
            → IfOk result (IsSnapshotAt self.now.decls self.now.state.history) }
    {
        self.state.snapshot(alloc)
    }

    /// Whether nothing waits, nothing is under way, and no reconciliation is begun and unfinished.
    pub fn idle(&self) -> bool
        ensures { IsTrue result ↔ IsIdle (record_of self.now) }
    {
        self.waiting.as_slice().is_empty()
            && are_over(self.active.as_slice())
            && self.mends.is_none()
    }

    /// The number of the transaction whose call `admit` looks at next, if a waiting call fits. It takes no
    /// memory.
    pub fn next_to_admit(&self) -> Option<u64>
        ensures { MatchOption result (NoneFits self.now.active self.now.waiting)
            (IsNextToAdmit self.now.active self.now.waiting) }
    {
        match self.waiting.first_fit(self.active.as_slice()) {
            None => None,
            Some(place) => Some(number_at(self.waiting.as_slice(), place)),
        }
    }

    /// The number of the transaction that `decide` decides or settles next, if one of these is due. It takes
    /// no memory.
    pub fn next_to_decide(&self) -> Option<u64>
        ensures { result ≡ (if self.now.down then None else least_due self.now.duties self.now.active) }
    {
        if self.down {
            return None;
        }
        least_due(self.duties.as_slice(), self.active.as_slice())
    }

    /// The last answer to this caller and number, if there is one. It takes no memory.
    pub fn answer_of(&self, caller: &Text, number: u64) -> Option<&Answer>
        ensures { option_map (λ found. found.now) result ≡ answer_of self.now.askers caller.now number }
    {
        self.askers.answer_of(caller, number)
    }
}
