//! A mender: what a reconciliation does on one device, operation by operation.
//!
//! It opens a session, confirms or cancels what is left of unsettled transactions, reads the running
//! configuration, and where that isn't the one due, brings it there. `next` is the operation due,
//! `took` takes its reply and reports how the reconciliation of the device ended.
#![tactic(auto)]

mod ends;
mod laws;
mod mender;
mod stage;

pub use ends::Mend;
pub use laws::{ends_where_it_says, mending_is_due, reconciles_along_replies};
pub use mender::Mender;
pub use stage::MendStage;
