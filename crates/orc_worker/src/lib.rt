//! A worker: what a transaction does on one of its devices, operation by operation.
//!
//! It opens a session, locks, edits, validates and commits to be confirmed; then it waits for the
//! decision, and confirms or cancels. `next` is the operation due, `took` takes its reply and reports
//! an outcome or a fault, `go` gives it the decision.
#![tactic(auto)]

mod laws;
mod outcomes;
mod report;
mod stage;
mod worker;

pub use laws::{courses_are_these, operation_is_due, workers_stay_sound};
pub use report::{Outcome, Report};
pub use stage::Stage;
pub use worker::{CONFIRM_SECONDS, Worker};
