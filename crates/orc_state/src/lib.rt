//! The state of the orchestrator with its history: the committed calls, found by caller and number, and
//! what each of them wrote. A call is planned on a snapshot of it, checked on the present state and
//! committed by its plan, with no service expanded again.
#![tactic(auto)]

mod conflict;
mod history;
mod laws;
mod literals;
mod replay;
mod state;
mod writes;

pub use laws::{
    conflict_is_one, passed_can_commit, plan_is_at_front, plan_stays_at_front,
    snapshot_stays_at_front,
};
pub use state::State;
