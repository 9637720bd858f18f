//! Calls that wait, and calls that are under way.
use orc_call::Call;
use orc_datastore::Plan;
use orc_queue::{Held, Holds};

/// How far a transaction is.
#[derive(Clone, Copy, PartialEq, Eq)]
pub enum Phase {
    /// It has its Intent, and neither Decide nor Abort.
    Preparing,
    /// It has its Decide, and some worker hasn't ended.
    Decided,
    /// It has its Abort, and some worker hasn't ended.
    Aborted,
    /// All its workers have ended, none of them Lost since: its Settled is due.
    Settling,
    /// All its workers have ended, one of them Lost since. A reconciliation will settle it.
    Left,
}

/// A call that waits for its admission: its transaction's number, the call and its plan, and the place
/// of the one who asks.
#[derive(Drop)]
pub struct Waiting {
    pub t: u64,
    pub call: Call,
    pub plan: Plan,
    pub asker: usize,
}

/// A call under way: besides, how many calls the history had at its Intent, and its phase. Once all its
/// workers have ended it holds no device, service, read or target, so that others fit with it.
#[derive(Drop)]
pub struct Transaction {
    pub t: u64,
    pub call: Call,
    pub plan: Plan,
    pub asker: usize,
    pub since: usize,
    pub phase: Phase,
}

impl Holds for Waiting {
    ghost held = { λ it. it.plan.held };

    fn held(&self) -> &Held {
        &self.plan.held
    }
}

impl Holds for Transaction {
    ghost held = { λ it. it.plan.held };

    fn held(&self) -> &Held {
        &self.plan.held
    }
}
