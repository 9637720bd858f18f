//! The hub: calls wait, are admitted, prepared on their devices, decided and settled.
#![tactic(auto)]

mod admitting;
mod deciding;
mod hub;
mod kept;
mod looking;
mod ordering;
mod reconciling;
mod reporting;
mod starting;
mod submitting;
mod writing;

pub use hub::{Admit, Decided, Hub, Submitted};
pub use kept::{
    abort_keeps, begin_keeps, commit_keeps, mending_begun_keeps, mending_ended_keeps, report_keeps,
    settle_keeps, submit_keeps, turn_away_keeps,
};
pub use starting::StartFault;
